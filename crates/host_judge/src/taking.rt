// Replies as they come: byte by byte up to the one behind RES, the rest at once.
ghost use Rattle.std.specs.Prelude.{◌≡◌, ℕ, ◌+◌, ◌<◌, ◌≤◌, length};
ghost use Rattle.host_judge.specs.Judge.{is_kept, grown};
ghost use Rattle.host_judge.specs.Runs.{mark_place, began_part, next_part, kept_of, run_added, run_part, hearing_with, HeardBytes};

use crate::hearing::{data_end, is_unanswered, judge_last, length, with_count};
use crate::{Judge, Judgement, Reply};
use packet::Kind;

// The judge behind some bytes, and how many of them were taken.
#[derive(Clone, Copy)]
pub(crate) struct Hearing {
    pub(crate) judge: Judge,
    pub(crate) count: usize,
}

// What came of a reply behind some bytes, and how many of them were taken.
#[derive(Clone, Copy)]
struct Part {
    reply: Reply,
    taken: usize,
}

// Where the first 81h stands, or behind the bytes where there is none.
fn mark_place(bytes: &[u8]) -> usize
    ensures { (result ≡ mark_place bytes.now) × (result ≤ length bytes.now) }
{
    bytes
        .iter()
        .position(|byte| *byte == 0x81)
        .unwrap_or(bytes.len())
}

// Before 81h every other byte is skipped.
fn begin_part(reply: Reply, bytes: &[u8]) -> Part
    ensures { result ≡ began_part reply bytes.now }
{
    if reply.count != 0 {
        return Part { reply, taken: 0 };
    }
    let i = mark_place(bytes);
    if bytes.len() <= i {
        return Part { reply, taken: i };
    }
    Part {
        reply: with_count(reply, 1),
        taken: i + 1,
    }
}

// Whether the next byte is one of the first seventeen of the data.
fn is_kept(reply: Reply) -> bool
    ensures { result ≡ is_kept reply }
{
    let at = reply.count as usize;
    (4..data_end(reply).min(21)).contains(&at)
}

// One byte more, of those that SUM counts, at most the one behind RES: it goes where its place says. One expression makes the reply: where fields are set in
// a copy of it, the compiler moves it in pieces that overlap, and a byte a call costs half as much again.
#[tactic(auto, using(crate::proofs::OneByte::none_kept), unfolding(crate::specs::Judge::grown))]
fn grow(reply: Reply, place: u32, byte: u8) -> Reply
    requires { (reply.count ≡ place) × (place ≤ 4) }
    ensures { result ≡ grown reply byte }
{
    let mut first = reply.first;
    if place == 4 && is_kept(reply) {
        first[0] = byte;
    }
    Reply {
        count: place + 1,
        high: if place == 1 { byte } else { reply.high },
        low: if place == 2 { byte } else { reply.low },
        res: if place == 3 { byte } else { reply.res },
        sum: reply.sum.wrapping_add(byte),
        first,
    }
}

// The byte with this place in the reply, if it is the next one and not ETX.
#[tactic(auto, unfolding(crate::specs::Runs::next_part))]
fn hear_next(part: Part, bytes: &[u8], place: u32) -> Part
    requires { (1 ≤ place) × (place ≤ 4) }
    ensures { result ≡ next_part place bytes.now part }
{
    let Part { reply, taken } = part;
    if bytes.len() <= taken || reply.count != place || length(reply) + 4 <= place {
        return part;
    }
    Part {
        reply: grow(reply, place, bytes[taken]),
        taken: taken + 1,
    }
}

// The first seventeen data bytes, when some more bytes came.
fn keep(reply: Reply, more: &[u8]) -> [u8; 17]
    requires { 4 ≤ reply.count }
    ensures { result ≡ kept_of reply more.now }
{
    let at = reply.count as usize;
    let end = data_end(reply).min(21);
    let mut first = reply.first;
    if at < end {
        let n = more.len().min(end - at);
        let from = at - 4;
        let to = from + n;
        numbers::copy(&more[..n], &mut first[from..to]);
    }
    first
}

// Bytes before ETX at once.
fn add(reply: Reply, more: &[u8]) -> Reply
    requires { (4 ≤ reply.count) × (reply.count + length more.now ≤ 65539) }
    ensures { result ≡ run_added reply more.now }
{
    Reply {
        count: reply.count + more.len() as u32,
        sum: reply.sum.wrapping_add(packet::sum(more)),
        first: keep(reply, more),
        ..reply
    }
}

// All bytes before ETX, from the one behind RES on.
#[tactic(auto, unfolding(crate::specs::Runs::run_part))]
fn hear_run(part: Part, bytes: &[u8]) -> Part
    ensures { result ≡ run_part bytes.now part }
{
    let Part { reply, taken } = part;
    let at = reply.count as usize;
    let end = length(reply) as usize + 4;
    if bytes.len() <= taken || at < 4 || end <= at {
        return part;
    }
    let to = taken + (bytes.len() - taken).min(end - at);
    Part {
        reply: add(reply, &bytes[taken..to]),
        taken: to,
    }
}

// The judge with this verdict and reply.
fn told(judge: Judge, judgement: Judgement, reply: Reply, count: usize) -> Hearing
    ensures { result ≡ hearing_with judge judgement reply count }
{
    Hearing {
        judge: Judge {
            judgement,
            reply,
            ..judge
        },
        count,
    }
}

// Bytes up to the one that decides: a length outside its range decides at its second byte, and ETX does.
pub(crate) fn hear(judge: Judge, bytes: &[u8]) -> Hearing
    ensures { HeardBytes judge bytes.now result }
{
    if !is_unanswered(judge.judgement) {
        return Hearing { judge, count: 0 };
    }
    let high = hear_next(begin_part(judge.reply, bytes), bytes, 1);
    let low = hear_next(high, bytes, 2);
    if high.taken < low.taken && !packet::is_permitted(Kind::Data, length(low.reply) as usize) {
        return told(judge, Judgement::WrongReply, low.reply, low.taken);
    }
    let status = hear_next(hear_next(low, bytes, 3), bytes, 4);
    let Part { reply, taken } = hear_run(status, bytes);
    if bytes.len() <= taken {
        return told(judge, judge.judgement, reply, taken);
    }
    let said = judge_last(judge.request, reply, bytes[taken]);
    told(judge, said, with_count(reply, length(reply) + 5), taken + 1)
}
