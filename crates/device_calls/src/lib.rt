// Which calls are refused; starting and resetting.
#![tactic(auto)]

mod refusals;

ghost use Rattle.std.specs.Prelude.{length};
ghost use Rattle.state.specs.State.{zero_state};
ghost use Rattle.device_calls.specs.Calls.{Starts};

use profile::Profile;
use refusals::unstarted;
pub use refusals::{is_accepted, number, refused};
use state::State;

// The rows of the refused calls, in order of check.
#[derive(Clone, Copy)]
pub enum Row {
    // the profile is not acceptable: 4
    Unacceptable,
    // the image's length is not the profile's total: 1
    WrongImage,
    // the state doesn't fit the profile and the receive buffer: 5
    WrongState,
    // the receive buffer has under 1,030 bytes: 2
    ShortReceive,
    // the reply buffer has under 1,030 bytes: 3
    ShortReply,
}

// A call is accepted, or refused by a row.
pub type Refusal = Result<(), Row>;

// What starting and resetting answer.
#[derive(Clone, Copy)]
pub struct Started {
    pub refusal: Refusal,
    pub state: State,
}

// A fresh state for a profile and an image.
pub fn start(profile: Profile, image: &[u8]) -> Started
    ensures { Starts profile (length image.now) zero_state result }
{
    reset(profile, image, state::zero())
}

// Starting again, whatever the state was; a refused reset leaves it.
#[tactic(auto, using(crate::proofs::Rows::starts, crate::proofs::Rows::started_fresh, crate::proofs::Rows::started_same))]
pub fn reset(profile: Profile, image: &[u8], state: State) -> Started
    ensures { Starts profile (length image.now) state result }
{
    let refusal = unstarted(profile, image.len());
    let state = if is_accepted(refusal) {
        state::fresh(profile)
    } else {
        state
    };
    Started { refusal, state }
}
