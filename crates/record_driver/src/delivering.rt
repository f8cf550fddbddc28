// One record of a script, given to a device: a delivery, a reset, or nothing.
ghost use Rattle.std.specs.Prelude.{◌≤◌, length};
ghost use Rattle.device_calls.specs.Calls.{buffers};
ghost use Rattle.device_steps.specs.Step.{machine_of};
ghost use Rattle.device_calls.specs.Ready.{Ready};
ghost use Rattle.record_history.specs.History.{hearing, machine_after, replies_over, buffer_after};
ghost use Rattle.record_driver.specs.Stands.{Stands, calls_at};

use profile::Profile;
use recording::{Direction, Part};
use state::State;

// A delivery, and again what a reply left unread.
fn deliver(
    profile: Profile,
    image: &mut [u8],
    state: State,
    receive: &mut [u8],
    reply: &mut [u8],
    input: &[u8],
) -> State
    requires { Ready profile state (buffers image.old receive.old reply.old) }
    ensures { Stands profile (hearing profile (machine_of state (buffers image.old receive.old reply.old)) input.now)
        (replies_over profile (machine_of state (buffers image.old receive.old reply.old)) input.now reply.old)
        result (buffers image.new receive.new reply.new) }
{
    let mut reached = state;
    let mut rest = input;
    while !rest.is_empty() {
        let fed = device::feed(profile, image, reached, receive, reply, rest);
        reached = fed.state;
        rest = &rest[fed.consumed..];
    }
    reached
}

// A record of a script.
pub fn call(
    profile: Profile,
    image: &mut [u8],
    state: State,
    receive: &mut [u8],
    reply: &mut [u8],
    script: &[u8],
    direction: Direction,
    part: Part,
) -> State
    requires { Ready profile state (buffers image.old receive.old reply.old) × (part.from ≤ part.to) × (part.to ≤ length script.now) }
    ensures { Stands profile (machine_after profile (machine_of state (buffers image.old receive.old reply.old)) (calls_at script.now direction part))
        (buffer_after profile (machine_of state (buffers image.old receive.old reply.old)) (calls_at script.now direction part) reply.old)
        result (buffers image.new receive.new reply.new) }
{
    match direction {
        Direction::Host => deliver(
            profile,
            image,
            state,
            receive,
            reply,
            &script[part.from..part.to],
        ),
        Direction::Device => state,
        Direction::Reset => device::reset(profile, image, state).state,
    }
}
