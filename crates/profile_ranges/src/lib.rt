// What a range of addresses may be asked for: the checks behind D0h and DAh, for commands and for states alike.
#![tactic(auto)]

ghost use Rattle.std.specs.Prelude.{◌≡◌};
ghost use Rattle.verdict.specs.Check.{first_fault, verdict_of};
ghost use Rattle.profile.specs.Areas.{areas_of};
ghost use Rattle.profile_ranges.specs.Ranges.{unit_checks, window_checks, change_checks, purpose_checks, within_of, end_checks, range_checks};
ghost use Rattle.profile_ranges.specs.InArea.{StartsIn};

use profile::{Area, Profile, Window};
use verdict::{Reason, Verdict};

#[derive(Clone, Copy)]
pub enum Purpose {
    Erase,
    Write,
    Read,
}

// Whole units: the unit divides SAD and EAD + 1.
#[tactic(auto, unfolding(verdict::specs::Check::first_fault, crate::specs::Ranges::unit_checks))]
fn check_units(unit: u32, sad: u32, ead: u32) -> Verdict
    ensures { result ≡ verdict_of (first_fault (unit_checks unit sad ead)) }
{
    if unit == 0 {
        return Err(Reason::NoUnit);
    }
    if sad % unit != 0 {
        return Err(Reason::StartUnaligned);
    }
    let behind = ead as u64 + 1;
    if behind % (unit as u64) != 0 {
        return Err(Reason::EndUnaligned);
    }
    Ok(())
}

// The window limits user areas, where low differs from high.
#[tactic(auto, unfolding(verdict::specs::Check::first_fault, crate::specs::Ranges::window_checks, crate::specs::Ranges::limited))]
fn check_window(window: Window, koa: u8, sad: u32, ead: u32) -> Verdict
    ensures { result ≡ verdict_of (first_fault (window_checks window koa sad ead)) }
{
    if koa != 0 || window.low == window.high {
        return Ok(());
    }
    if sad < window.low {
        return Err(Reason::BelowWindow);
    }
    if window.high <= ead {
        return Err(Reason::AboveWindow);
    }
    Ok(())
}

#[tactic(auto, using(verdict::proofs::FirstFault::granted_then), unfolding(crate::specs::Ranges::change_checks))]
fn check_change(area: Area, window: Window, unit: u32, sad: u32, ead: u32) -> Verdict
    ensures { result ≡ verdict_of (first_fault (change_checks area window unit sad ead)) }
{
    check_units(unit, sad, ead)?;
    check_window(window, area.koa, sad, ead)
}

#[tactic(auto, unfolding(verdict::specs::Check::first_fault, crate::specs::Ranges::purpose_checks))]
fn check_purpose(area: Area, window: Window, purpose: Purpose, sad: u32, ead: u32) -> Verdict
    ensures { result ≡ verdict_of (first_fault (purpose_checks purpose area window sad ead)) }
{
    match purpose {
        Purpose::Erase => check_change(area, window, area.eau, sad, ead),
        Purpose::Write => check_change(area, window, area.wau, sad, ead),
        Purpose::Read => Ok(()),
    }
}

// Whether the range from SAD, which lies in the area, to EAD may be asked for.
#[tactic(auto, using(verdict::proofs::FirstFault::is_granted), unfolding(crate::specs::Ranges::within_of))]
pub fn within(area: Area, window: Window, purpose: Purpose, sad: u32, ead: u32) -> bool
    ensures { result ≡ within_of area window purpose sad ead }
{
    profile::holds(area, ead) && check_purpose(area, window, purpose, sad, ead).is_ok()
}

// The range starts in the area. EAD is searched for only where the area does not hold it, to tell why.
#[tactic(auto, using(crate::proofs::OneSearch::verdict_held), unfolding(verdict::specs::Check::first_fault, crate::specs::Ranges::end_checks))]
fn check_end(
    profile: Profile,
    area: Area,
    window: Window,
    purpose: Purpose,
    sad: u32,
    ead: u32,
) -> Verdict
    requires { StartsIn (areas_of profile) sad area }
    ensures { result ≡ verdict_of (first_fault (end_checks (areas_of profile) area window purpose sad ead)) }
{
    if profile::holds(area, ead) {
        return check_purpose(area, window, purpose, sad, ead);
    }
    match profile::locate(profile, ead) {
        None => Err(Reason::EndNowhere),
        Some(_) => Err(Reason::TwoAreas),
    }
}

// The range SAD to EAD, both inclusive, under the window that holds.
#[tactic(auto, unfolding(verdict::specs::Check::first_fault, crate::specs::Ranges::range_checks))]
pub fn check_range(
    profile: Profile,
    window: Window,
    purpose: Purpose,
    sad: u32,
    ead: u32,
) -> Verdict
    ensures { result ≡ verdict_of (first_fault (range_checks (areas_of profile) window purpose sad ead)) }
{
    if ead < sad {
        return Err(Reason::Reversed);
    }
    let Some(spot) = profile::locate(profile, sad) else {
        return Err(Reason::StartNowhere);
    };
    check_end(profile, spot.area, window, purpose, sad, ead)
}
