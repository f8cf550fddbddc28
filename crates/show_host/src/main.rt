// Requests and their packets, and plans of writes. Each call has a line: what was given, and what is answered.
#![tactic(auto)]

ghost use Rattle.std.specs.Prelude.{◌≤◌};

use host_plan::{Plan, Unplanned};
use host_request::{Request, Unbuilt};
use show_common::{Excerpt, RequestWords};
use std::io;

// The total-erase code.
const CODE: [u8; 16] = [
    0x41, 0x4C, 0x65, 0x52, 0x41, 0x53, 0x45, 0xFF, 0xFF, 0xFF, 0xFF, 0xFF, 0xFF, 0xFF, 0xFF, 0xFF,
];

// What no packet begins with: where it still stands, nothing was written.
const UNWRITTEN: u8 = 0xEE;

// A buffer that any packet fits into.
const ROOMY: usize = 1031;

fn unbuilt_words(why: Unbuilt) -> &'static str {
    match why {
        Unbuilt::WrongAmount => "wrong amount",
        Unbuilt::NothingLeft => "nothing left",
        Unbuilt::NoRoom => "no room",
    }
}

fn unplanned_words(why: Unplanned) -> &'static str {
    match why {
        Unplanned::Reversed => "reversed",
        Unplanned::NoUnit => "no unit",
        Unplanned::LongUnit => "long unit",
        Unplanned::StartUnaligned => "start unaligned",
        Unplanned::EndUnaligned => "end unaligned",
        Unplanned::WrongAmount => "wrong amount",
    }
}

// A request's packet in a buffer, and whether the rest of it stayed.
#[tactic(auto, using(crate::proofs::Laws::within, crate::proofs::Laws::part_length))]
fn show_built(
    rt: &impl Print,
    request: Request,
    bytes: &[u8],
    buffer: &mut [u8],
) -> io::Result<()> {
    let words = RequestWords(request);
    print!(rt; "{words} with {} in {}: ", bytes.len(), buffer.len())?;
    let end = match host_request::build(buffer, request, bytes) {
        Ok(n) => {
            print!(rt; "{}", Excerpt(&buffer[..n]))?;
            n
        }
        Err(why) => {
            rt.print(unbuilt_words(why))?;
            0
        }
    };
    if buffer.iter().skip(end).any(|byte| *byte != UNWRITTEN) {
        print!(rt; ", and more was written")?;
    }
    println!(rt)
}

// In a buffer of so many bytes.
fn build<const SIZE: usize>(rt: &impl Print, request: Request, bytes: &[u8]) -> io::Result<()>
    requires { SIZE ≤ 1031 }
{
    let mut buffer = [UNWRITTEN; SIZE];
    show_built(rt, request, bytes, &mut buffer)
}

fn build_commands(rt: &impl Print) -> io::Result<()> {
    println!(rt; "== packets")?;
    build::<ROOMY>(rt, Request::Inquiry, b"")?;
    build::<ROOMY>(rt, Request::Erase(0x4000, 0x7FFF), b"")?;
    build::<ROOMY>(rt, Request::Write(0, 0x7F), b"")?;
    build::<ROOMY>(rt, Request::Read(0, 0xFFFF_FFFF), b"")?;
    build::<ROOMY>(rt, Request::Read(1, 0), b"")?;
    build::<ROOMY>(rt, Request::Authenticate, &CODE)?;
    build::<ROOMY>(rt, Request::Baud(9600), b"")?;
    build::<ROOMY>(rt, Request::Signature, b"")?;
    build::<ROOMY>(rt, Request::Area(2), b"")?;
    build::<ROOMY>(rt, Request::WriteData, &CODE)?;
    build::<ROOMY>(rt, Request::WriteData, &[0xA5])?;
    build::<ROOMY>(rt, Request::Next(1), b"")?;
    build::<ROOMY>(rt, Request::Next(0xFFFF_FC00), b"")
}

fn build_amounts(rt: &impl Print) -> io::Result<()> {
    let many = [0x5A; 1025];
    println!(rt; "== amounts")?;
    build::<ROOMY>(rt, Request::WriteData, &many[..1024])?;
    build::<ROOMY>(rt, Request::WriteData, &many)?;
    build::<ROOMY>(rt, Request::WriteData, b"")?;
    build::<ROOMY>(rt, Request::Authenticate, &many[..15])?;
    build::<ROOMY>(rt, Request::Authenticate, &many[..17])?;
    build::<ROOMY>(rt, Request::Inquiry, &many[..1])?;
    build::<ROOMY>(rt, Request::Next(5), &many[..1])?;
    build::<ROOMY>(rt, Request::Next(0), b"")?;
    build::<ROOMY>(rt, Request::Next(0), &many[..1])
}

// Into seven bytes, and into thirteen: a command with a range has fourteen.
fn build_room(rt: &impl Print) -> io::Result<()> {
    println!(rt; "== room")?;
    build::<7>(rt, Request::Inquiry, b"")?;
    build::<7>(rt, Request::Area(0), b"")?;
    build::<7>(rt, Request::Next(9), b"")?;
    build::<7>(rt, Request::WriteData, &[1])?;
    build::<7>(rt, Request::WriteData, &[1, 2])?;
    build::<7>(rt, Request::WriteData, b"")?;
    build::<7>(rt, Request::Next(0), b"")?;
    build::<13>(rt, Request::Erase(0, 0x1FFF), b"")?;
    build::<13>(rt, Request::Baud(115200), b"")
}

// The requests of a plan up to its end, twelve at most, each with the bytes that it sends.
fn print_plan(rt: &impl Print, plan: Plan) -> io::Result<()> {
    let mut rest = plan;
    for _ in 0..12 {
        let Some(sending) = host_plan::next_request(rest) else {
            return print!(rt; " done");
        };
        let words = RequestWords(sending.request);
        print!(rt; " {words} {}..{},", sending.from, sending.to)?;
        rest = sending.rest;
    }
    print!(rt; " and so on")
}

fn plan(rt: &impl Print, sad: u32, ead: u32, unit: u32, count: usize) -> io::Result<()> {
    print!(rt; "{sad} to {ead} by {unit}, bytes {count}:")?;
    match host_plan::plan_write(sad, ead, unit, count) {
        Ok(whole) => print_plan(rt, whole)?,
        Err(why) => print!(rt; " {}", unplanned_words(why))?,
    }
    println!(rt)
}

fn make_plans(rt: &impl Print) -> io::Result<()> {
    println!(rt; "== plans")?;
    plan(rt, 0, 127, 128, 128)?;
    plan(rt, 0, 1023, 128, 1024)?;
    plan(rt, 0, 1151, 128, 1152)?;
    plan(rt, 0x2000, 0x27FF, 1024, 2048)?;
    plan(rt, 0, 1028, 3, 1029)?;
    plan(rt, 0, 2051, 513, 2052)?;
    plan(rt, 5, 5, 1, 1)?;
    plan(rt, 0, 0xFFFF_FFFF, 1024, 0x1_0000_0000)
}

fn refuse_plans(rt: &impl Print) -> io::Result<()> {
    println!(rt; "== no plans")?;
    plan(rt, 1, 0, 0, 0)?;
    plan(rt, 0, 127, 0, 128)?;
    plan(rt, 0, 2047, 2048, 2048)?;
    plan(rt, 64, 255, 128, 192)?;
    plan(rt, 0, 191, 128, 192)?;
    plan(rt, 64, 191, 128, 0)?;
    plan(rt, 0, 127, 128, 127)?;
    plan(rt, 0, 127, 128, 129)
}

fn main(rt: HostRuntime) -> io::Result<()> {
    build_commands(&rt)?;
    build_amounts(&rt)?;
    build_room(&rt)?;
    make_plans(&rt)?;
    refuse_plans(&rt)
}
