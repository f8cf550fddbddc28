// What answering gives: an act on the flash, the state that follows, and a reply at the front of the reply buffer.
#![tactic(auto)]

ghost use Rattle.std.specs.Prelude.{◌≡◌, ◌≤◌, length};
ghost use Rattle.packet.specs.Frame.{longest_data, Roomy};
ghost use Rattle.packet_reply.specs.Reply.{status_reply, data_reply};
ghost use Rattle.flash.specs.declared.Act.TheVariants.{Nothing};
ghost use Rattle.answer.specs.Answer.{moved, Answers};

use flash::Act;
use state::{Stage, State};
use verdict::Verdict;

// What a request or a wake-up leads to; the reply has `count` bytes.
#[derive(Clone, Copy)]
pub struct Answered {
    pub act: Act,
    pub state: State,
    pub count: usize,
}

// The state in a stage, with nothing held.
pub fn in_stage(state: State, stage: Stage) -> State
    ensures { result ≡ moved stage state }
{
    state::with_held(state::with_stage(state, stage), 0)
}

// A status reply to a request with this COM or RES. That the buffer is `Roomy` stays a clause, here and in the floors above: a type round the lent slice
// would stand between each clause and the caller's bytes.
pub fn tell(reply: &mut [u8], act: Act, state: State, request: u8, verdict: Verdict) -> Answered
    requires { Roomy reply.old }
    ensures { Answers (record { act = act; state = state; reply = status_reply request verdict }) result reply.old reply.new }
{
    let count = packet_reply::put_status(reply, request, verdict).unwrap();
    Answered { act, state, count }
}

// A data reply: nothing is done to the flash.
pub fn send(reply: &mut [u8], state: State, res: u8, bytes: &[u8]) -> Answered
    requires { Roomy reply.old × (length bytes.now ≤ longest_data) }
    ensures { Answers (record { act = Nothing; state = state; reply = data_reply res bytes.now }) result reply.old reply.new }
{
    let count = packet_reply::put_data(reply, res, bytes).unwrap();
    Answered {
        act: Act::Nothing,
        state,
        count,
    }
}
