// The judge of replies: what the bytes that come back say to a request. No verdict is there until a reply gives one.
#![tactic(auto)]

mod hearing;
mod taking;

ghost use Rattle.std.specs.Prelude.{◌≡◌, ◌+◌, ◌-◌, ◌≤◌};
ghost use Rattle.host_judge.specs.Reply.{due_for, read_due, judgement_number};
ghost use Rattle.host_judge.specs.Judge.{fresh_judge, taken_of, sci_in, area_in};

use hearing::{data_end, place};
use host_request::Request;
use profile::Area;
use taking::{Hearing, hear};

// What a request was answered.
#[derive(Clone, Copy)]
pub enum Judgement {
    // nothing yet, or part of a packet
    Unanswered,
    // an OK, or the data that was asked for
    Passed,
    // an error, with its status code
    Refused(u8),
    // a packet that is neither, or none
    WrongReply,
}

// What grants a request.
#[derive(Clone, Copy)]
pub enum Due {
    // a status reply, OK
    Status,
    // a data reply with so many bytes
    Data(usize),
    // no reply does
    Nothing,
}

// What came of a reply. All of it that later requests need stands here.
#[derive(Clone, Copy)]
pub struct Reply {
    // how many bytes: 81h is the first
    pub count: u32,
    // its length bytes and RES; 0 until they come
    pub high: u8,
    pub low: u8,
    pub res: u8,
    // the sum of its bytes behind 81h and before ETX, modulo 256
    pub sum: u8,
    // the first bytes behind RES: all of a status, a signature or an area; 0 until they come
    pub first: [u8; 17],
}

// What the judge knows between two bytes.
#[derive(Clone, Copy)]
pub struct Judge {
    pub request: Request,
    pub judgement: Judgement,
    pub reply: Reply,
}

// What taking bytes answers.
#[derive(Clone, Copy)]
pub struct Taken {
    pub judge: Judge,
    // how many bytes were taken
    pub count: usize,
    // those of them that are the reply's data: from `from` up to, not including, `to`
    pub from: usize,
    pub to: usize,
}

// The paper has no numbers for these; 0 is that nothing was answered.
impl From<Judgement> for u32 {
    ghost from_gives = { λ judgement n. (n ≡ judgement_number judgement) × (n ≤ 511) };

    fn from(judgement: Judgement) -> u32 {
        match judgement {
            Judgement::Unanswered => 0,
            Judgement::Passed => 1,
            Judgement::WrongReply => 2,
            Judgement::Refused(code) => 256 + u32::from(code),
        }
    }
}

// What grants a read with so many bytes left.
fn read_due(left: usize) -> Due
    ensures { result ≡ read_due left }
{
    if left == 0 {
        return Due::Nothing;
    }
    Due::Data(left.min(packet::LONGEST_DATA))
}

// How many addresses from SAD to EAD.
fn span(sad: u32, ead: u32) -> usize
    ensures { result ≡ ead + 1 - sad }
{
    (ead as usize + 1).saturating_sub(sad as usize)
}

// What grants the request.
pub fn due_to(request: Request) -> Due
    ensures { result ≡ due_for request }
{
    match request {
        Request::Inquiry
        | Request::Erase(_, _)
        | Request::Write(_, _)
        | Request::Authenticate
        | Request::Baud(_)
        | Request::WriteData => Due::Status,
        Request::Read(sad, ead) => read_due(span(sad, ead)),
        Request::Signature => Due::Data(12),
        Request::Area(_) => Due::Data(17),
        Request::Next(left) => read_due(left as usize),
    }
}

// A judge of the replies to a request: unanswered.
pub fn begin(request: Request) -> Judge
    ensures { result ≡ fresh_judge request }
{
    Judge {
        request,
        judgement: Judgement::Unanswered,
        reply: Reply {
            count: 0,
            high: 0,
            low: 0,
            res: 0,
            sum: 0,
            first: [0; 17],
        },
    }
}

// Takes bytes as they came, up to the one that decides; behind a verdict none.
pub fn take(judge: Judge, bytes: &[u8]) -> Taken
    ensures { result ≡ taken_of judge bytes.now }
{
    let Hearing { judge, count } = hear(judge, bytes);
    let came = judge.reply.count as usize;
    Taken {
        judge,
        count,
        from: place(count, came, 4),
        to: place(count, came, data_end(judge.reply)),
    }
}

// SCI, where the judge passed a signature.
pub fn passed_sci(judge: Judge) -> Option<u32>
    ensures { result ≡ sci_in judge }
{
    match (judge.judgement, judge.request) {
        (Judgement::Passed, Request::Signature) => {
            Some(packet_fields::four_at(&judge.reply.first, 0))
        }
        _ => None,
    }
}

// The area, where the judge passed one.
pub fn passed_area(judge: Judge) -> Option<Area>
    ensures { result ≡ area_in judge }
{
    match (judge.judgement, judge.request) {
        (Judgement::Passed, Request::Area(_)) => Some(profile_bytes::area_of(&judge.reply.first)),
        _ => None,
    }
}
