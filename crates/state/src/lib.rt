// The state of the device: its stages and what they await, states that are made and changed, and whether one fits.
#![tactic(auto)]

mod changing;
mod fitting;

ghost use Rattle.std.specs.Prelude.{◌≡◌};
ghost use Rattle.state.specs.Awaits.{awaits_of};
ghost use Rattle.state.specs.State.{fresh_state, zero_state, window_of};

use baud::LineSetting;
pub use changing::{with_held, with_id, with_line, with_stage};
pub use fitting::fits;
use packet::Kind;
use profile::{Profile, Window};

// How far waking up has come.
#[derive(Clone, Copy)]
pub enum Pulse {
    Zero,
    One,
    Acknowledged,
}

// What a write or a read has still to do; at least one byte is left.
#[derive(Clone, Copy)]
pub struct Range {
    pub next: u32,
    pub left: u32,
}

#[derive(Clone, Copy)]
pub enum Stage {
    Setting(Pulse),
    Authentication,
    Command,
    Writing(Range),
    Reading(Range),
}

// What a stage waits for.
#[derive(Clone, Copy)]
pub enum Awaited {
    // a byte of waking up, behind these low pulses
    WakeUp(Pulse),
    Packet(Kind),
}

// The ID stands first: the compiled code then copies a state by fewer and wider moves (docs/BENCHMARKS.md).
#[derive(Clone, Copy)]
pub struct State {
    // as latched with C3h
    pub id: [u8; 16],
    pub stage: Stage,
    pub line: LineSetting,
    // bytes of an incomplete packet at the front of the receive buffer
    pub held: usize,
}

// The state in which a device starts.
#[tactic(auto, unfolding(crate::specs::State::fresh_state))]
pub fn fresh(profile: Profile) -> State
    ensures { result ≡ fresh_state profile }
{
    State {
        stage: Stage::Setting(Pulse::Zero),
        id: [0xFFu8; 16],
        line: baud::setting(profile.sci, 9600),
        held: 0,
    }
}

// The state of a refused start: all zero.
#[tactic(auto, unfolding(crate::specs::State::zero_state))]
pub fn zero() -> State
    ensures { result ≡ zero_state }
{
    State {
        stage: Stage::Setting(Pulse::Zero),
        id: [0u8; 16],
        line: LineSetting {
            abcs: 0,
            brr: 0,
            mddr: 0,
        },
        held: 0,
    }
}

// What the stage waits for.
pub fn awaits(stage: Stage) -> Awaited
    ensures { result ≡ awaits_of stage }
{
    match stage {
        Stage::Setting(pulse) => Awaited::WakeUp(pulse),
        Stage::Authentication | Stage::Command => Awaited::Packet(Kind::Command),
        Stage::Writing(_) | Stage::Reading(_) => Awaited::Packet(Kind::Data),
    }
}

// The window that holds in a state.
pub fn window(profile: Profile, state: State) -> Window
    ensures { result ≡ window_of profile state }
{
    profile.window
}
