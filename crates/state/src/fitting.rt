// Whether a state fits the profile and the receive buffer.
ghost use Rattle.std.specs.Prelude.{◌≡◌};
ghost use Rattle.profile.specs.Areas.{areas_of};
ghost use Rattle.state.specs.Awaits.{held_fits};
ghost use Rattle.state.specs.Fits.{range_fits, stage_fits, fits_of};

use crate::{Awaited, Range, Stage, State, awaits, window};
use packet::waits;
use profile::{Profile, Window};
use profile_ranges::Purpose;

// Whether held bytes may wait for their rest.
#[tactic(auto, unfolding(crate::specs::Awaits::held_fits))]
fn held_fits(awaited: Awaited, held: &[u8]) -> bool
    ensures { result ≡ held_fits awaited held.now }
{
    match awaited {
        Awaited::WakeUp(_) => held.is_empty(),
        Awaited::Packet(kind) => waits(held, kind),
    }
}

// Whether a range may be under way. One search tells: the area where the range goes on has to hold its end too.
#[tactic(auto, using(crate::proofs::FitLaws::by_place), unfolding(crate::specs::Fits::range_fits))]
fn range_fits(profile: Profile, window: Window, purpose: Purpose, range: Range) -> bool
    ensures { result ≡ range_fits (areas_of profile) window purpose range }
{
    let behind = range.next as u64 + range.left as u64;
    if range.left < 1 || 0x1_0000_0000 < behind {
        return false;
    }
    let last = (behind - 1) as u32;
    profile::locate(profile, range.next).is_some_and(|spot| profile_ranges::within(
        spot.area, window, purpose, range.next, last,
    ))
}

#[tactic(auto, unfolding(crate::specs::Fits::stage_fits))]
fn stage_fits(profile: Profile, window: Window, stage: Stage) -> bool
    ensures { result ≡ stage_fits (areas_of profile) window stage }
{
    match stage {
        Stage::Setting(_) | Stage::Authentication | Stage::Command => true,
        Stage::Writing(range) => range_fits(profile, window, Purpose::Write, range),
        Stage::Reading(range) => range_fits(profile, window, Purpose::Read, range),
    }
}

// Whether a state fits.
#[tactic(auto, unfolding(crate::specs::Fits::fits_of))]
pub fn fits(profile: Profile, state: State, receive: &[u8]) -> bool
    ensures { result ≡ fits_of profile state receive.now }
{
    state.held <= receive.len()
        && held_fits(awaits(state.stage), &receive[..state.held])
        && stage_fits(profile, window(profile, state), state.stage)
}
