// The device for other languages: numbers and byte slices.
#![tactic(auto)]

ghost use Rattle.std.specs.Prelude.{◌||◌, cond, ◌≡◌, eqb, length};
ghost use Rattle.profile_bytes.specs.Profile.{profile_in};
ghost use Rattle.state_bytes.specs.State.{state_length, state_over};
ghost use Rattle.state.specs.State.{zero_state};
ghost use Rattle.device_calls.specs.Calls.{buffers, feed_refusal, started_by};
ghost use Rattle.device_steps.specs.Step.{machine_of};
ghost use Rattle.device_steps.specs.Feed.{feed_of};
ghost use Rattle.interface.specs.Calls.{bytes, starting_refusal};
ghost use Rattle.interface.specs.Post.{numbers, StartedBytes, ResetBytes, FedBytes, FeedsBytes, Handed};

use device::{Row, Started};
use profile::Profile;
use state::State;
use state_bytes::STATE_LENGTH;

// Why a start with a profile's bytes and `room` bytes for the state is refused, and the state that it gives.
fn begin(profile: &[u8], image: &[u8], room: usize) -> Started
    ensures { result ≡ started_by (starting_refusal profile.now (length image.now) room) (profile_in profile.now) zero_state }
{
    let begun = device::start(profile_bytes::profile_in(profile), image);
    if !device::is_accepted(begun.refusal) {
        return begun;
    }
    if room != STATE_LENGTH {
        return Started {
            refusal: Err(Row::WrongState),
            state: state::zero(),
        };
    }
    begun
}

// The state that a call gives, in the bytes that are lent for it; a refused call leaves them, unless `always`.
fn put(state: &mut [u8], given: State, number: u8, always: bool)
    ensures { state.new ≡ cond (eqb number 0 || always) (state_over given state.old) state.old }
{
    if number == 0 || always {
        state_bytes::put_state(state, given);
    }
}

// A fresh state for a profile and an image; a refused start leaves the zero state.
#[unsafe(no_mangle)]
pub extern "C" fn indraveck_start(profile: &[u8], image: &[u8], state: &mut [u8]) -> u32
    ensures { StartedBytes profile.now (length image.now) state.old state.new result }
{
    let begun = begin(profile, image, state.len());
    let number = device::number(begun.refusal);
    put(state, begun.state, number, true);
    number as u32
}

// The fresh state again; a refused reset leaves the bytes.
#[unsafe(no_mangle)]
pub extern "C" fn indraveck_reset(profile: &[u8], image: &[u8], state: &mut [u8]) -> u32
    ensures { ResetBytes profile.now (length image.now) state.old state.new result }
{
    let begun = begin(profile, image, state.len());
    let number = device::number(begun.refusal);
    put(state, begun.state, number, false);
    number as u32
}

// Bytes for a state that was found in 33 bytes.
fn feed_state(
    p: Profile,
    image: &mut [u8],
    state: &mut [u8],
    st: State,
    receive: &mut [u8],
    reply: &mut [u8],
    input: &[u8],
    consumed: &mut u64,
    sent: &mut u64,
) -> u32
    requires { length state.old ≡ state_length }
    ensures { FedBytes (feed_refusal p st (buffers image.old receive.old reply.old))
        (feed_of p (machine_of st (buffers image.old receive.old reply.old)) input.now) input.now
        (bytes image.old state.old receive.old reply.old)
        (bytes image.new state.new receive.new reply.new)
        (numbers result consumed.new sent.new) }
{
    let fed = device::feed(p, image, st, receive, reply, input);
    let number = device::number(fed.refusal);
    put(state, fed.state, number, false);
    *consumed = fed.consumed as u64;
    *sent = fed.count as u64;
    number as u32
}

// Received bytes, up to the one that completes the first reply.
#[unsafe(no_mangle)]
pub extern "C" fn indraveck_feed(
    profile: &[u8],
    image: &mut [u8],
    state: &mut [u8],
    receive: &mut [u8],
    reply: &mut [u8],
    input: &[u8],
    consumed: &mut u64,
    sent: &mut u64,
) -> u32
    ensures { FeedsBytes profile.now input.now
        (bytes image.old state.old receive.old reply.old)
        (bytes image.new state.new receive.new reply.new)
        (numbers result consumed.new sent.new) }
{
    match state_bytes::stage_in(state) {
        None => {
            *consumed = 0;
            *sent = 0;
            device::number(begin(profile, image, 0).refusal) as u32
        }
        Some(stage) => {
            let p = profile_bytes::profile_in(profile);
            let st = state_bytes::state_in(state, stage);
            feed_state(p, image, state, st, receive, reply, input, consumed, sent)
        }
    }
}

// Where the payload of the first `count` bytes of the receive buffer stands: 1, or 0 where it is empty.
#[unsafe(no_mangle)]
pub extern "C" fn indraveck_payload(
    receive: &[u8],
    count: usize,
    start: &mut u64,
    size: &mut u64,
) -> u32
    ensures { Handed receive.now count result start.new size.new }
{
    let part = packet::payload(receive, count);
    *size = part.len() as u64;
    if part.is_empty() {
        *start = 0;
        return 0;
    }
    *start = 3;
    1
}
