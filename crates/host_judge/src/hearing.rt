// What a reply says: its length and the places in it, and the whole of it to a request.
ghost use Rattle.std.specs.Prelude.{◌≡◌, ◌≤◌};
ghost use Rattle.host_judge.specs.Reply.{is_unanswered, grants, judged_by};
ghost use Rattle.host_judge.specs.Judge.{length_in, data_end, with_count, place_in, last_judged};

use crate::{Due, Judgement, Reply, due_to};
use host_request::Request;

// What the length bytes say.
pub(crate) fn length(reply: Reply) -> u32
    ensures { (result ≡ length_in reply) × (result ≤ 65535) }
{
    u16::from_be_bytes([reply.high, reply.low]) as u32
}

// The place in the reply behind its data.
pub(crate) fn data_end(reply: Reply) -> usize
    ensures { (result ≡ data_end reply) × (result ≤ 65538) }
{
    let n = length(reply) as usize;
    4 + n.saturating_sub(1)
}

// Where a place in a reply, of which `count` bytes came, stands among the last `taken` of them.
pub(crate) fn place(taken: usize, count: usize, at: usize) -> usize
    ensures { result ≡ place_in taken count at }
{
    taken.saturating_sub(count.saturating_sub(at))
}

pub(crate) fn is_unanswered(judgement: Judgement) -> bool
    ensures { result ≡ is_unanswered judgement }
{
    matches!(judgement, Judgement::Unanswered)
}

// A reply of so many bytes, all else as it is.
pub(crate) fn with_count(reply: Reply, count: u32) -> Reply
    ensures { result ≡ with_count count reply }
{
    Reply { count, ..reply }
}

// Whether a reply grants a request of this number, to which that is due.
#[tactic(auto, unfolding(crate::specs::Reply::grants))]
fn is_grant(due: Due, number: u8, n: usize, res: u8, first: u8) -> bool
    ensures { result ≡ grants due number n res first }
{
    if res != number {
        return false;
    }
    match due {
        Due::Status => n == 2 && first == 0,
        Due::Data(count) => 0 < n && n - 1 == count,
        Due::Nothing => false,
    }
}

// What a whole packet says, by its length, RES and the byte behind RES.
#[tactic(auto, using(crate::proofs::OneByte::judged_tests))]
fn judge_contents(request: Request, n: usize, res: u8, first: u8) -> Judgement
    ensures { result ≡ judged_by request n res first }
{
    let number = host_request::number(request);
    if is_grant(due_to(request), number, n, res, first) {
        return Judgement::Passed;
    }
    if n == 2 && res == number + 128 && first != 0 {
        return Judgement::Refused(first);
    }
    Judgement::WrongReply
}

// What the whole reply says, the byte its last one.
pub(crate) fn judge_last(request: Request, reply: Reply, byte: u8) -> Judgement
    ensures { result ≡ last_judged request reply byte }
{
    if byte != 0x03 || reply.sum != 0 {
        return Judgement::WrongReply;
    }
    judge_contents(request, length(reply) as usize, reply.res, reply.first[0])
}
