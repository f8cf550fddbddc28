// Requests as numbers, and a judge out of 36 bytes and into them.
#![tactic(auto)]

mod requests;

ghost use Rattle.std.specs.Prelude.{[], ◌∷◌, ◌++◌, ◌≡◌};
ghost use Rattle.std.proofs.lemmas.List.Edits.{sets};
ghost use Rattle.std.proofs.Math.Seq.{paste};
ghost use Rattle.numbers.specs.Bytes.{bytes_of};
ghost use Rattle.packet_fields.specs.Fields.{bytes_from};
ghost use Rattle.host_judge.specs.Reply.{judgement_number};
ghost use Rattle.host_bytes.specs.Judges.{judgement_in, head_in, reply_in, judge_with, head_bytes, reply_head, judge_over};

use host_judge::{Judge, Judgement, Reply};
use host_request::Request;
pub use requests::request_of;
use requests::{own_numbers, request_number};

// How many bytes a judge has.
pub const JUDGE_LENGTH: usize = 36;

// The verdict of a number: a refusal has a code, and 0 is none.
#[tactic(auto, unfolding(crate::specs::Judges::judgement_in))]
fn judgement_of(n: u32) -> Option<Judgement>
    ensures { result ≡ judgement_in n }
{
    match n {
        0 => Some(Judgement::Unanswered),
        1 => Some(Judgement::Passed),
        2 => Some(Judgement::WrongReply),
        257..=511 => Some(Judgement::Refused((n - 256) as u8)),
        _ => None,
    }
}

// What the bytes begin with, if they are a judge.
#[tactic(auto, unfolding(crate::specs::Judges::head_in))]
pub fn head_in(bytes: &[u8]) -> Option<(Request, Judgement)>
    ensures { result ≡ head_in bytes.now }
{
    if bytes.len() != JUDGE_LENGTH {
        return None;
    }
    let n = packet_fields::byte_at(bytes, 2) as u32;
    let first = packet_fields::four_at(bytes, 3);
    let second = packet_fields::four_at(bytes, 7);
    let said = profile_bytes::two_at(bytes, 0) as u32;
    Some((request_of(n, first, second)?, judgement_of(said)?))
}

// The first data bytes of the reply, in one copy; 0 where they are not there.
fn first_in(bytes: &[u8]) -> [u8; 17]
    ensures { result ≡ bytes_from 17 19 bytes.now }
{
    let mut first = [0u8; 17];
    let from = usize::min(19, bytes.len());
    let end = usize::min(36, bytes.len());
    numbers::copy(&bytes[from..end], &mut first);
    first
}

// What came of the reply, out of the bytes.
#[tactic(auto, unfolding(crate::specs::Judges::reply_in))]
fn reply_in(bytes: &[u8]) -> Reply
    ensures { result ≡ reply_in bytes.now }
{
    Reply {
        count: packet_fields::four_at(bytes, 11),
        high: packet_fields::byte_at(bytes, 15),
        low: packet_fields::byte_at(bytes, 16),
        res: packet_fields::byte_at(bytes, 17),
        sum: packet_fields::byte_at(bytes, 18),
        first: first_in(bytes),
    }
}

// The judge with this request and verdict, and the rest out of the bytes.
pub fn judge_in(bytes: &[u8], request: Request, judgement: Judgement) -> Judge
    ensures { result ≡ judge_with bytes.now request judgement }
{
    Judge {
        request,
        judgement,
        reply: reply_in(bytes),
    }
}

// Verdict and request, in bytes 0 to 10.
fn put_head(bytes: &mut [u8; JUDGE_LENGTH], request: Request, judgement: Judgement)
    ensures { bytes.new ≡ sets bytes.old 0 (head_bytes request judgement) }
{
    numbers::write(bytes, 0, u32::from(judgement) as u16);
    bytes[2] = request_number(request);
    let (first, second) = own_numbers(request);
    numbers::write(bytes, 3, first);
    numbers::write(bytes, 7, second);
}

// Count, length bytes, RES and sum of the reply, in bytes 11 to 18.
fn put_reply(bytes: &mut [u8; JUDGE_LENGTH], reply: Reply)
    ensures { bytes.new ≡ sets bytes.old 11 (reply_head reply) }
{
    numbers::write(bytes, 11, reply.count);
    bytes[15] = reply.high;
    bytes[16] = reply.low;
    bytes[17] = reply.res;
    bytes[18] = reply.sum;
}

// The first data bytes of the reply, in bytes 19 to 35, in one copy.
#[tactic(auto, using(crate::proofs::Put::judge_first_put))]
fn put_first(bytes: &mut [u8; JUDGE_LENGTH], first: [u8; 17])
    ensures { bytes.new ≡ paste bytes.old 19 first 17 }
{
    numbers::copy(&first, &mut bytes[19..36]);
}

// The judge's bytes, in 36 that are lent for it; in fewer or more nothing is written.
pub fn put_judge(bytes: &mut [u8], judge: Judge)
    ensures { bytes.new ≡ judge_over judge bytes.old }
{
    let Some(bytes) = bytes.as_mut_array::<JUDGE_LENGTH>() else {
        return;
    };
    put_head(bytes, judge.request, judge.judgement);
    put_reply(bytes, judge.reply);
    put_first(bytes, judge.reply.first);
}
