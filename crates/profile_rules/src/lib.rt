// When a profile is acceptable, and which rule it breaks where it is not.
#![tactic(auto)]

ghost use Rattle.std.specs.Prelude.{◌≡◌, ◌++◌, ◌≤◌, ◌<◌, ◌+◌};
ghost use Rattle.verdict.specs.Check.{first_fault};
ghost use Rattle.profile.specs.Areas.{areas_of, total_of};
ghost use Rattle.profile_rules.specs.Rules.{unit_fits, acceptance_of, head_checks, area_checks, table_checks, config, small_config, tail_checks};
ghost use Rattle.profile_rules.specs.Judged.{tallies_of, survey_of, judged_as, judged_of};

use profile::{Area, Profile};

// One rule for each condition of the protocol; those of an area carry its number in the table.
#[derive(Clone, Copy)]
pub enum Rule {
    // NOA is 1 to 8
    AreaCount,
    // SCI and RMB are at least 1
    NoClock,
    NoTopRate,
    // KOA is 0 to 2
    Kind(usize),
    // SAD is at most EAD, and EAD is below FFFFFFFFh
    EndsBeforeStart(usize),
    EndsAtTop(usize),
    // areas ascend and do not overlap
    NotAbove(usize),
    // a nonzero EAU or WAU divides SAD and the area's size
    EraseUnit(usize),
    WriteUnit(usize),
    // WAU is at most 1,024
    LongWriteUnit(usize),
    // exactly one area is config, of at least 16 bytes
    ConfigCount,
    ConfigSize,
    // sizes total at most 16,777,216
    TooLarge,
    // low is at most high
    WindowReversed,
}

// That a profile is acceptable, or the rule that it breaks.
pub type Acceptance = Result<(), Rule>;

// The config areas, those of them that are too small, and the image's length.
#[derive(Clone, Copy)]
struct Tallies {
    configs: usize,
    small: usize,
    total: usize,
}

// Whether the unit is 0, or divides the area's start and size.
#[tactic(auto, unfolding(crate::specs::Rules::unit_fits))]
fn unit_fits(area: Area, unit: u32) -> bool
    ensures { result ≡ unit_fits area unit }
{
    unit == 0 || (area.sad % unit == 0 && profile::size(area) % unit as usize == 0)
}

#[tactic(auto, unfolding(crate::specs::Rules::head_checks, verdict::specs::Check::first_fault))]
fn check_head(profile: Profile) -> Acceptance
    ensures { result ≡ acceptance_of (first_fault (head_checks profile)) }
{
    if profile.noa < 1 {
        return Err(Rule::AreaCount);
    }
    if 8 < profile.noa {
        return Err(Rule::AreaCount);
    }
    if profile.sci < 1 {
        return Err(Rule::NoClock);
    }
    if profile.rmb < 1 {
        return Err(Rule::NoTopRate);
    }
    Ok(())
}

// The area with number i; `free` is the first address above the areas before it.
#[tactic(auto, unfolding(crate::specs::Rules::area_checks, verdict::specs::Check::first_fault))]
fn check_area(area: Area, i: usize, free: u64) -> Acceptance
    ensures { result ≡ acceptance_of (first_fault (area_checks i free area)) }
{
    if 2 < area.koa {
        return Err(Rule::Kind(i));
    }
    if area.ead < area.sad {
        return Err(Rule::EndsBeforeStart(i));
    }
    if 0xFFFF_FFFF <= area.ead {
        return Err(Rule::EndsAtTop(i));
    }
    if (area.sad as u64) < free {
        return Err(Rule::NotAbove(i));
    }
    if !unit_fits(area, area.eau) {
        return Err(Rule::EraseUnit(i));
    }
    if !unit_fits(area, area.wau) {
        return Err(Rule::WriteUnit(i));
    }
    if 1024 < area.wau {
        return Err(Rule::LongWriteUnit(i));
    }
    Ok(())
}

// 1 for a config area, 0 for another.
#[tactic(auto, unfolding(crate::specs::Rules::config))]
fn one_if_config(area: Area) -> usize
    ensures { (result ≡ config area) × (result ≤ 1) }
{
    usize::from(area.koa == 2)
}

// 1 for a config area of fewer than 16 bytes, 0 for another.
#[tactic(auto, unfolding(crate::specs::Rules::small_config))]
fn one_if_small(area: Area) -> usize
    ensures { (result ≡ small_config area) × (result ≤ 1) }
{
    usize::from(area.koa == 2 && profile::size(area) < 16)
}

// One walk over the areas in use for all that their table is checked and counted for.
fn survey(profile: Profile) -> Result<Tallies, Rule>
    ensures { result ≡ survey_of (areas_of profile) }
{
    let mut free: u64 = 0;
    let mut configs: usize = 0;
    let mut small: usize = 0;
    let mut total: usize = 0;
    for (i, area) in profile::areas_in_use(&profile).iter().enumerate() {
        check_area(*area, i, free)?;
        free = area.ead as u64 + 1;
        configs += one_if_config(*area);
        small += one_if_small(*area);
        total += profile::size(*area);
    }
    Ok(Tallies {
        configs,
        small,
        total,
    })
}

// What the table was counted for, and the window.
#[tactic(auto, unfolding(crate::specs::Rules::tail_checks, verdict::specs::Check::first_fault))]
fn check_tail(profile: Profile, counted: Tallies) -> Acceptance
    requires { counted ≡ tallies_of (areas_of profile) }
    ensures { result ≡ acceptance_of (first_fault (tail_checks profile)) }
{
    if counted.configs != 1 {
        return Err(Rule::ConfigCount);
    }
    if counted.small != 0 {
        return Err(Rule::ConfigSize);
    }
    if 16777216 < counted.total {
        return Err(Rule::TooLarge);
    }
    if profile.window.high < profile.window.low {
        return Err(Rule::WindowReversed);
    }
    Ok(())
}

fn check_rest(profile: Profile) -> Result<usize, Rule>
    ensures { result ≡ judged_as (first_fault (table_checks 0 0 (areas_of profile) ++ tail_checks profile)) (total_of (areas_of profile)) }
{
    let counted = survey(profile)?;
    check_tail(profile, counted)?;
    Ok(counted.total)
}

// The length of the image that an acceptable profile asks for, or the first rule that the profile breaks.
pub fn judge(profile: Profile) -> Result<usize, Rule>
    ensures { result ≡ judged_of profile }
{
    check_head(profile)?;
    check_rest(profile)
}
