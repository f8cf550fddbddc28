// Waking up: one byte in setting.
#![tactic(auto)]

ghost use Rattle.std.specs.Prelude.{◌≡◌, [], ◌∷◌};
ghost use Rattle.packet.specs.Frame.{Roomy};
ghost use Rattle.state.specs.declared.Stage.TheVariants.{Setting};
ghost use Rattle.flash.specs.declared.Act.TheVariants.{Nothing};
ghost use Rattle.answer.specs.Answer.{moved, Answers};
ghost use Rattle.answer_waking.specs.Wake.{awake, woken, wake_of};

use answer::{Answered, in_stage};
use flash::Act;
use profile::Profile;
use state::{Pulse, Stage, State};

// One byte of answer.
#[tactic(auto, using(crate::proofs::Woken::front_one))]
fn say(reply: &mut [u8], state: State, byte: u8) -> Answered
    requires { Roomy reply.old }
    ensures { Answers (woken state (byte ∷ [])) result reply.old reply.new }
{
    reply[0] = byte;
    Answered {
        act: Act::Nothing,
        state,
        count: 1,
    }
}

// The ID is latched, and with it the stage.
#[tactic(auto, unfolding(crate::specs::Wake::awake))]
fn awaken(profile: Profile, image: &[u8], state: State) -> State
    ensures { result ≡ awake profile image.now state }
{
    let id = id_code::stored_id(image, profile);
    let stage = if id_code::is_none(id) {
        Stage::Command
    } else {
        Stage::Authentication
    };
    state::with_id(in_stage(state, stage), id)
}

// No answer: setting goes on at a pulse.
fn go(state: State, pulse: Pulse) -> Answered
    ensures { result ≡ record { act = Nothing; state = moved (Setting pulse) state; count = 0 } }
{
    Answered {
        act: Act::Nothing,
        state: in_stage(state, Stage::Setting(pulse)),
        count: 0,
    }
}

// One byte in setting.
#[tactic(auto, using(answer::proofs::Sending::answers_as), unfolding(crate::specs::Wake::wake_of))]
pub fn wake(
    profile: Profile,
    image: &[u8],
    state: State,
    pulse: Pulse,
    byte: u8,
    reply: &mut [u8],
) -> Answered
    requires { Roomy reply.old }
    ensures { Answers (wake_of profile image.now state pulse byte) result reply.old reply.new }
{
    match (pulse, byte) {
        (Pulse::Zero, 0x00) => go(state, Pulse::One),
        (Pulse::One, 0x00) => say(
            reply,
            in_stage(state, Stage::Setting(Pulse::Acknowledged)),
            0x00,
        ),
        (Pulse::Acknowledged, 0x55) => say(reply, awaken(profile, image, state), 0xC3),
        (Pulse::Acknowledged, 0x00) => go(state, Pulse::Acknowledged),
        _ => go(state, Pulse::Zero),
    }
}
