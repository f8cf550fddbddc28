// A delivery: bytes that only add to a packet at once, the others one by one.
ghost use Rattle.std.specs.Prelude.{◌≡◌, ◌+◌};
ghost use Rattle.profile_rules.specs.Rules.{Accepted as AcceptedProfile};
ghost use Rattle.packet.specs.Frame.{Roomy};
ghost use Rattle.flash.specs.declared.Act.TheVariants.{Nothing};
ghost use Rattle.state.specs.declared.Awaited.TheVariants.{Packet};
ghost use Rattle.state.specs.Awaits.{awaits_of};
ghost use Rattle.state.specs.State.{with_held};
ghost use Rattle.answer.specs.Answer.{Answers};
ghost use Rattle.device_calls.specs.Calls.{buffers};
ghost use Rattle.device_calls.specs.Ready.{Ready};
ghost use Rattle.device_steps.specs.Step.{machine_of, early_of, refused_early, answer_of, step_of};
ghost use Rattle.device_steps.specs.Feed.{feed_of};
ghost use Rattle.device.specs.Steps.{RangeIn, acted, Stood, Holding, Added};
ghost use Rattle.device.specs.Post.{Ran};

use crate::Fed;
use answer::{Answered, in_stage, tell};
use answer_command::answer_command;
use answer_transfer::{answer_next, answer_write};
use answer_waking::wake;
use flash::Act;
use packet::{Kind, Progress};
use packet_gather::gather;
use profile::Profile;
use state::{Awaited, Stage, State, awaits, with_held};
use verdict::Reason;

// COM or RES of an early refusal, and the stage that it leads to: a transfer ends.
fn early(stage: Stage) -> (u8, Stage)
    ensures { result ≡ early_of stage }
{
    match stage {
        Stage::Setting(_) | Stage::Authentication | Stage::Command => (0x00, stage),
        Stage::Writing(_) => (packet_fields::WRITE, Stage::Command),
        Stage::Reading(_) => (packet_fields::READ, Stage::Command),
    }
}

// A length outside its range: refused behind the second length byte.
fn refuse_early(state: State, reply: &mut [u8]) -> Answered
    requires { Roomy reply.old }
    ensures { Answers (refused_early state) result reply.old reply.new }
{
    let (code, end) = early(state.stage);
    tell(
        reply,
        Act::Nothing,
        in_stage(state, end),
        code,
        Err(Reason::LengthRefused),
    )
}

// What answers a complete packet. Setting awaits none.
#[tactic(auto, using(answer::proofs::Sending::answers_as, crate::proofs::Steps::answer_at))]
fn decide(profile: Profile, image: &[u8], state: State, packet: &[u8], reply: &mut [u8]) -> Answered
    requires { AcceptedProfile profile × RangeIn state.stage × Roomy reply.old }
    ensures { Answers (answer_of profile image.now state state.stage packet.now) result reply.old reply.new }
{
    match state.stage {
        Stage::Setting(_) | Stage::Authentication | Stage::Command => {
            answer_command(profile, image, state, packet, reply)
        }
        Stage::Writing(range) => answer_write(profile, image, state, range, packet, reply),
        Stage::Reading(range) => answer_next(profile, image, state, range, packet, reply),
    }
}

// No answer: so many bytes are held.
fn holding(state: State, held: usize) -> Answered
    ensures { result ≡ record { act = Nothing; state = with_held held state; count = 0 } }
{
    Answered {
        act: Act::Nothing,
        state: with_held(state, held),
        count: 0,
    }
}

// A byte where a packet is awaited.
fn listen(
    profile: Profile,
    image: &[u8],
    state: State,
    kind: Kind,
    receive: &mut [u8],
    reply: &mut [u8],
    byte: u8,
) -> Answered
    requires { Ready profile state (buffers image.now receive.old reply.old) × (awaits_of state.stage ≡ Packet kind) }
    ensures { Stood (step_of profile (machine_of state (buffers image.now receive.old reply.old)) byte) profile
        (buffers image.now receive.old reply.old) (acted profile image.now result.act (state.held + 1) receive.new reply.new) result }
{
    let at = state.held;
    receive[at] = byte;
    let n = at + 1;
    match packet::gathered(&receive[..n], kind) {
        Progress::Astray | Progress::Excess => holding(state, 0),
        Progress::Partial => holding(state, n),
        Progress::Unfit => refuse_early(state, reply),
        Progress::Complete => decide(profile, image, state, &receive[..n], reply),
    }
}

// One byte: what it is answered, and the act that is still to be performed.
fn step(
    profile: Profile,
    image: &[u8],
    state: State,
    receive: &mut [u8],
    reply: &mut [u8],
    byte: u8,
) -> Answered
    requires { Ready profile state (buffers image.now receive.old reply.old) }
    ensures { Stood (step_of profile (machine_of state (buffers image.now receive.old reply.old)) byte) profile
        (buffers image.now receive.old reply.old) (acted profile image.now result.act (state.held + 1) receive.new reply.new) result }
{
    match awaits(state.stage) {
        Awaited::WakeUp(pulse) => wake(profile, image, state, pulse, byte, reply),
        Awaited::Packet(kind) => listen(profile, image, state, kind, receive, reply, byte),
    }
}

// As many bytes of input as only add to what is awaited, put behind the held ones; how many they are.
fn add(stage: Stage, held: usize, receive: &mut [u8], input: &[u8]) -> usize
    requires { Holding (awaits_of stage) held receive.old }
    ensures { Added (awaits_of stage) held input.now result receive.old receive.new }
{
    match awaits(stage) {
        Awaited::WakeUp(_) => 0,
        Awaited::Packet(kind) => gather(kind, held, receive, input),
    }
}

// A delivery byte by byte: behind each byte those that only add to a packet at once. No other line of the device than that with
// `perform` changes the flash.
fn turns(
    profile: Profile,
    image: &mut [u8],
    state: State,
    receive: &mut [u8],
    reply: &mut [u8],
    input: &[u8],
) -> Fed
    requires { Ready profile state (buffers image.old receive.old reply.old) }
    ensures { Ran (feed_of profile (machine_of state (buffers image.old receive.old reply.old)) input.now) input.now
        (buffers image.old receive.old reply.old) (buffers image.new receive.new reply.new) result }
{
    let mut now_state = state;
    // The place stays a number: `consumed` is that number, and over a rest it would be reckoned besides.
    let mut i = 0;
    let mut count = 0;
    while i < input.len() {
        let n = now_state.held + 1;
        let s = step(profile, image, now_state, receive, reply, input[i]);
        flash::perform(image, profile, s.act, packet_fields::info(&receive[..n]));
        now_state = s.state;
        i += 1;
        count = s.count;
        if count != 0 {
            break;
        }
        let taken = add(now_state.stage, now_state.held, receive, &input[i..]);
        now_state = with_held(now_state, now_state.held + taken);
        i += taken;
    }
    Fed {
        refusal: Ok(()),
        state: now_state,
        consumed: i,
        count,
    }
}

// An accepted delivery. Most only add to a packet, so those bytes come first.
pub(crate) fn run(
    profile: Profile,
    image: &mut [u8],
    state: State,
    receive: &mut [u8],
    reply: &mut [u8],
    input: &[u8],
) -> Fed
    requires { Ready profile state (buffers image.old receive.old reply.old) }
    ensures { Ran (feed_of profile (machine_of state (buffers image.old receive.old reply.old)) input.now) input.now
        (buffers image.old receive.old reply.old) (buffers image.new receive.new reply.new) result }
{
    let taken = add(state.stage, state.held, receive, input);
    let first = with_held(state, state.held + taken);
    if input.len() <= taken {
        return Fed {
            refusal: Ok(()),
            state: first,
            consumed: taken,
            count: 0,
        };
    }
    let rest = turns(profile, image, first, receive, reply, &input[taken..]);
    Fed {
        refusal: Ok(()),
        state: rest.state,
        consumed: taken + rest.consumed,
        count: rest.count,
    }
}
