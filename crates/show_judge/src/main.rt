// What replies say to requests: whole ones, in noise and in cuts, and with each byte changed to every value. Each call has a line: what was
// given, and what is answered.
#![tactic(auto)]

ghost use Rattle.std.specs.Prelude.{◌<◌, ◌≤◌, length};

use host_judge::{Judgement, Taken};
use host_request::Request;
use show_common::{Byte, Excerpt, RequestWords};
use std::{fmt, io};
use verdict::Reason;

// The replies of the line examples, and those of a device that lost step.
const REPLIES: [(Request, &[u8]); 14] = [
    (
        Request::Signature,
        b"\x81\x00\x0D\x3A\x03\x93\x87\x00\x00\x3D\x09\x00\x02\x01\x01\x00\x52\x03",
    ),
    (Request::Inquiry, b"\x81\x00\x02\x00\x00\xFE\x03"),
    (Request::Inquiry, b"\x81\x00\x02\x80\xC3\xBB\x03"),
    (Request::Inquiry, b"\x81\x00\x02\x80\xC2\xBC\x03"),
    (Request::Inquiry, b"\x81\x00\x02\x80\xC1\xBD\x03"),
    (
        Request::Erase(0x4000, 0x7FFF),
        b"\x81\x00\x02\x12\x00\xEC\x03",
    ),
    (
        Request::Erase(0x4000, 0x7FFF),
        b"\x81\x00\x02\x80\xC1\xBD\x03",
    ),
    (Request::Area(2), b"\x81\x00\x02\xBB\xD0\x73\x03"),
    (Request::WriteData, b"\x81\x00\x02\x93\xE2\x89\x03"),
    (Request::WriteData, b"\x81\x00\x02\x95\xC1\xA8\x03"),
    (Request::Next(1), b"\x81\x00\x02\x93\xC1\xAA\x03"),
    (Request::Next(1), b"\x81\x00\x02\x15\x00\xE9\x03"),
    (Request::Read(0, 0), b"\x81\x00\x02\x15\xD0\x19\x03"),
    (Request::Read(1, 0), b"\x81\x00\x01\x15\xEA\x03"),
];

// Noise, several packets, lengths.
const NOISE: [(Request, &[u8]); 13] = [
    (Request::Inquiry, b""),
    (Request::Inquiry, b"\x00\xC3\x01\x00\x01\x00\xFF\x03"),
    (Request::Inquiry, b"\x00\xC3\x81\x00\x02\x00\x00\xFE\x03"),
    (
        Request::Inquiry,
        b"\x81\x00\x02\x00\x00\xFE\x03\x81\x00\x02\x00\x00\xFE\x03",
    ),
    (
        Request::Inquiry,
        b"\x81\x00\x02\x12\x00\xEC\x03\x81\x00\x02\x00\x00\xFE\x03",
    ),
    (Request::Inquiry, b"\x81\x81\x00\x02\x00\x00\xFE\x03"),
    (Request::Inquiry, b"\x81\x00\x00\x03"),
    (Request::Inquiry, b"\x81\x04\x02\x03"),
    (Request::Inquiry, b"\x81\x04\x01\x00\x00\xFE\x03"),
    (Request::Inquiry, b"\x81\xFF"),
    (Request::Inquiry, b"\x81\x00\x01\x00\xFF\x03"),
    (Request::Read(0, 1), b"\x81\x00\x02\x15\x00\xE9\x03"),
    (Request::Read(0, 1), b"\x81\x00\x04\x15\x00\x00\x00\xE7\x03"),
];

// A name for each request, and the data of the reply that grants it.
const GRANTED: [(&str, Request, &[u8]); 11] = [
    ("inquiry", Request::Inquiry, b"\x00"),
    ("erase", Request::Erase(0, 0x1FFF), b"\x00"),
    ("write", Request::Write(0, 0x7F), b"\x00"),
    ("read1", Request::Read(0, 0), b"\x00"),
    (
        "read16",
        Request::Read(0, 15),
        b"\x00\x01\x02\x03\x04\x05\x06\x07\x08\x09\x0A\x0B\x0C\x0D\x0E\x0F",
    ),
    ("authenticate", Request::Authenticate, b"\x00"),
    ("baud", Request::Baud(9600), b"\x00"),
    (
        "signature",
        Request::Signature,
        b"\x03\x93\x87\x00\x00\x3D\x09\x00\x02\x01\x01\x00",
    ),
    (
        "area",
        Request::Area(1),
        b"\x02\x01\x00\x00\x00\x01\x00\x00\xFF\x00\x00\x00\x00\x00\x00\x00\x10",
    ),
    ("write-data", Request::WriteData, b"\x00"),
    ("next", Request::Next(3), b"\xAA\xBB\xCC"),
];

// What bytes say, how many of them were taken, and where among them the reply's data stands.
#[derive(Clone, Copy)]
struct Heard(Taken);

impl fmt::Display for Heard {
    fn fmt<W: fmt::Write>(&self, f: &mut fmt::Formatter<W>) -> fmt::Result {
        let taken = self.0;
        let judgement = taken.judge.judgement;
        match judgement {
            Judgement::Unanswered => write!(f, "unanswered")?,
            Judgement::Passed => write!(f, "passed")?,
            Judgement::WrongReply => write!(f, "wrong reply")?,
            Judgement::Refused(code) => write!(f, "refused {}h", Byte(code))?,
        }
        let number = u32::from(judgement);
        write!(
            f,
            " {number}, took {}, data {}..{}",
            taken.count, taken.from, taken.to
        )
    }
}

// What some bytes say to a request.
fn hear(rt: &impl Print, request: Request, bytes: &[u8]) -> io::Result<()> {
    let taken = host_judge::take(host_judge::begin(request), bytes);
    println!(rt;
        "{} <- {}: {}",
        RequestWords(request),
        Excerpt(bytes),
        Heard(taken)
    )
}

// A reply cut in two: what the judge says behind each part.
fn hear_in_two(rt: &impl Print, request: Request, bytes: &[u8], at: usize) -> io::Result<()>
    requires { at ≤ length bytes.now }
{
    let (front, back) = bytes.split_at(at);
    let first = host_judge::take(host_judge::begin(request), front);
    let second = host_judge::take(first.judge, back);
    println!(rt; "cut at {at}: {}; {}", Heard(first), Heard(second))
}

// At every place, with a byte before it and one behind.
fn hear_cuts(rt: &impl Print) -> io::Result<()> {
    let bytes = b"\x00\x81\x00\x05\x15\x11\x22\x33\x44\x3C\x03\x00";
    println!(rt; "== cuts of a read's reply, 4 bytes")?;
    for at in 0..=bytes.len() {
        hear_in_two(rt, Request::Read(0x100, 0x103), bytes, at)?;
    }
    Ok(())
}

// A read's longest packet, SUM worked out so that all bytes but the first and the last add to 0.
fn hear_longest(rt: &impl Print) -> io::Result<()> {
    let data = [0x01; 1024];
    let mut reply = [0; 1030];
    println!(rt; "== the longest reply")?;
    packet_reply::put_data(&mut reply, 0x15, &data);
    hear(rt, Request::Read(0, 0x3FF), &reply)?;
    hear(rt, Request::Read(0, 0x400), &reply)?;
    hear(rt, Request::Next(1024), &reply)?;
    hear(rt, Request::Next(1023), &reply)?;
    hear(rt, Request::Read(0, 0xFFFF_FFFF), &reply)?;
    hear_in_two(rt, Request::Next(0xFFFF_FFFF), &reply, 515)?;
    hear_in_two(rt, Request::Next(0xFFFF_FFFF), &reply, 1028)?;
    hear_in_two(rt, Request::Next(0xFFFF_FFFF), &reply, 1029)?;
    reply[600] = 2;
    hear(rt, Request::Next(0xFFFF_FFFF), &reply)
}

// What a reply says with the byte at a place changed to every value.
fn judge_changes(request: Request, reply: &mut [u8], at: usize) -> [Judgement; 256]
    requires { at < length reply.old }
{
    let kept = reply[at];
    let mut judgements = [Judgement::Unanswered; 256];
    for (value, judgement) in (0..=u8::MAX).zip(&mut judgements) {
        reply[at] = value;
        *judgement = host_judge::take(host_judge::begin(request), reply)
            .judge
            .judgement;
    }
    reply[at] = kept;
    judgements
}

// How many judgements are each of the four: unanswered, passed, refused, wrong.
#[derive(Clone, Copy)]
struct Counts<'a>(&'a [Judgement]);

impl fmt::Display for Counts<'_> {
    fn fmt<W: fmt::Write>(&self, f: &mut fmt::Formatter<W>) -> fmt::Result {
        let judgements = self.0;
        let unanswered = judgements
            .iter()
            .filter(|j| matches!(j, Judgement::Unanswered))
            .count();
        let passed = judgements
            .iter()
            .filter(|j| matches!(j, Judgement::Passed))
            .count();
        let refused = judgements
            .iter()
            .filter(|j| matches!(j, Judgement::Refused(_)))
            .count();
        let wrong = judgements
            .iter()
            .filter(|j| matches!(j, Judgement::WrongReply))
            .count();
        write!(f, "{unanswered} {passed} {refused} {wrong}")
    }
}

// A line for each byte of a reply.
fn count_reply(
    rt: &impl Print,
    name: &str,
    kind: &str,
    request: Request,
    reply: &mut [u8],
) -> io::Result<()> {
    for at in 0..reply.len() {
        let judgements = judge_changes(request, reply, at);
        println!(rt; "{name} {kind} {at} {}", Counts(&judgements))?;
    }
    Ok(())
}

// What grants the request, and D0h.
#[tactic(auto, using(show_common::proofs::Replies::within, show_common::proofs::Replies::part_length))]
fn count_request(rt: &impl Print, name: &str, request: Request, data: &[u8]) -> io::Result<()> {
    let mut reply = [0; 1030];
    let code = host_request::number(request);
    let granted = packet_reply::put_data(&mut reply, code, data).unwrap_or(0);
    count_reply(rt, name, "granted", request, &mut reply[..granted])?;
    let refused = packet_reply::put_status(&mut reply, code, Err(Reason::Reversed)).unwrap_or(0);
    count_reply(rt, name, "refused", request, &mut reply[..refused])
}

fn main(rt: HostRuntime) -> io::Result<()> {
    println!(rt; "== replies")?;
    for (request, bytes) in REPLIES {
        hear(&rt, request, bytes)?;
    }
    println!(rt; "== noise and lengths")?;
    for (request, bytes) in NOISE {
        hear(&rt, request, bytes)?;
    }
    hear_cuts(&rt)?;
    hear_longest(&rt)?;
    println!(rt; "== each byte changed to every value: unanswered passed refused wrong")?;
    for (name, request, data) in GRANTED {
        count_request(&rt, name, request, data)?;
    }
    Ok(())
}
