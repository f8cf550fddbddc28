// A device driven over a script of deliveries and resets.
#![tactic(auto)]

mod delivering;

ghost use Rattle.std.specs.Prelude.{◌≡◌};
ghost use Rattle.recording.specs.Recording.{unread};
ghost use Rattle.device_calls.specs.Calls.{buffers};
ghost use Rattle.device_steps.specs.Step.{machine_of};
ghost use Rattle.device_calls.specs.Ready.{Ready};
ghost use Rattle.record_driver.specs.Post.{DroveOn, Drives};

use delivering::call;
use device::Refusal;
use profile::Profile;
use recording::{Ended, Extent, Found};
use state::State;

// How a script was driven: the refusal of its first call, the state after the last, how far the script was read and why no farther.
#[derive(Clone, Copy)]
pub struct Driven {
    pub refusal: Refusal,
    pub state: State,
    pub read: Extent,
}

// A script that was not begun.
fn refused(refusal: Refusal, state: State) -> Driven
    ensures { result ≡ record { refusal = refusal; state = state; read = unread } }
{
    Driven {
        refusal,
        state,
        read: Extent {
            count: 0,
            ended: Ended::Not,
        },
    }
}

// A script on a device that has started.
fn run(
    profile: Profile,
    image: &mut [u8],
    state: State,
    receive: &mut [u8],
    reply: &mut [u8],
    script: &[u8],
) -> Driven
    requires { Ready profile state (buffers image.old receive.old reply.old) }
    ensures { DroveOn profile (machine_of state (buffers image.old receive.old reply.old)) script.now
        (buffers image.old receive.old reply.old) (buffers image.new receive.new reply.new) result }
{
    let mut st = state;
    let mut at = 0;
    // Stays a loop: a reader that keeps its place in a recording belongs to a later request.
    loop {
        let found = recording::record_at(script, at);
        let Found::Is(direction, part) = found else {
            return Driven {
                refusal: Ok(()),
                state: st,
                read: Extent {
                    count: at,
                    ended: recording::ended_by(found),
                },
            };
        };
        st = call(profile, image, st, receive, reply, script, direction, part);
        at = part.to;
    }
}

// Starts a device on an image and drives it over a script.
pub fn drive(
    profile: Profile,
    image: &mut [u8],
    receive: &mut [u8],
    reply: &mut [u8],
    script: &[u8],
) -> Driven
    ensures { Drives profile script.now (buffers image.old receive.old reply.old)
        (buffers image.new receive.new reply.new) result }
{
    let begun = device::start(profile, image);
    if !device::is_accepted(begun.refusal) {
        return refused(begun.refusal, begun.state);
    }
    // a delivery of no bytes tells whether the buffers will do
    let first = device::feed(profile, image, begun.state, receive, reply, &script[..0]);
    if !device::is_accepted(first.refusal) {
        return refused(first.refusal, begun.state);
    }
    run(profile, image, begun.state, receive, reply, script)
}
