// The device: start, reset, feed.
#![tactic(auto)]

mod feeding;

ghost use Rattle.device_calls.specs.Calls.{buffers};
ghost use Rattle.device.specs.Post.{Feeds};

use device_calls::refused;
pub use device_calls::{Refusal, Row, Started, is_accepted, number, reset, start};
use feeding::run;
use profile::Profile;
use state::State;

// What feeding answers: the state, how many bytes were consumed, and how long the reply is.
#[derive(Clone, Copy)]
pub struct Fed {
    pub refusal: Refusal,
    pub state: State,
    pub consumed: usize,
    pub count: usize,
}

// Received bytes, up to the one that completes the first reply. Profile, state and the three lent buffers stay parameters, here and below: they are
// what C lends, and the promise says of each what it becomes.
pub fn feed(
    profile: Profile,
    image: &mut [u8],
    state: State,
    receive: &mut [u8],
    reply: &mut [u8],
    input: &[u8],
) -> Fed
    ensures { Feeds profile state input.now (buffers image.old receive.old reply.old)
        (buffers image.new receive.new reply.new) result }
{
    let refusal = refused(profile, image.len(), state, receive, reply.len());
    if is_accepted(refusal) {
        return run(profile, image, state, receive, reply, input);
    }
    Fed {
        refusal,
        state,
        consumed: 0,
        count: 0,
    }
}
