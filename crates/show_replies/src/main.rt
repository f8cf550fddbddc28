// Prints status, data and area replies, each packet in hex on a line of its own, under a heading line for each RES.
#![tactic(auto)]

use profile::Area;
use show_common::{Byte, Hex};
use std::io;
use verdict::{Reason, Verdict};

// COM of each command that a status reply grants.
const GRANTED: [u8; 6] = [0x00, 0x12, 0x13, 0x15, 0x30, 0x34];

// COM of each command: a status reply refuses any.
const REFUSED: [u8; 8] = [0x00, 0x12, 0x13, 0x15, 0x30, 0x34, 0x3A, 0x3B];

// One reason for each code.
const REASONS: [Reason; 10] = [
    Reason::UnknownCommand,
    Reason::WrongEtx,
    Reason::WrongSum,
    Reason::WrongStage,
    Reason::Reversed,
    Reason::RateOff,
    Reason::BelowWindow,
    Reason::OtherId,
    Reason::Locked,
    Reason::DirtyFlash,
];

fn print_heading(rt: &impl Print, res: u8) -> io::Result<()> {
    println!(rt; "RES {}", Byte(res))
}

#[tactic(auto, using(show_common::proofs::Replies::within, show_common::proofs::Replies::part_length))]
fn print_status(rt: &impl Print, request: u8, verdict: Verdict) -> io::Result<()> {
    let mut buffer = [0; 7];
    let n = packet_reply::put_status(&mut buffer, request, verdict).unwrap_or(0);
    println!(rt; "{}", Hex(&buffer[..n]))
}

#[tactic(auto, using(show_common::proofs::Replies::within, show_common::proofs::Replies::part_length))]
fn print_data(rt: &impl Print, res: u8, bytes: &[u8]) -> io::Result<()> {
    let mut buffer = [0; 23];
    let n = packet_reply::put_data(&mut buffer, res, bytes).unwrap_or(0);
    println!(rt; "{}", Hex(&buffer[..n]))
}

// The longest data packet: its length, its first four bytes and its last two.
fn print_longest(rt: &impl Print, res: u8) -> io::Result<()> {
    let bytes = [0xFF; 1024];
    let mut buffer = [0; 1030];
    let n = packet_reply::put_data(&mut buffer, res, &bytes).unwrap_or(0);
    println!(rt; "{n} bytes, the first four and the last two:")?;
    println!(rt; "{}", Hex(&buffer[..4]))?;
    println!(rt; "{}", Hex(&buffer[1028..]))
}

fn print_granted(rt: &impl Print) -> io::Result<()> {
    for request in GRANTED {
        print_heading(rt, packet_reply::res(request, Ok(())))?;
        print_status(rt, request, Ok(()))?;
    }
    Ok(())
}

fn print_refused(rt: &impl Print, request: u8) -> io::Result<()> {
    let any = Err(Reason::UnknownCommand);
    print_heading(rt, packet_reply::res(request, any))?;
    for reason in REASONS {
        print_status(rt, request, Err(reason))?;
    }
    Ok(())
}

// Replies that carry data: what was read, and two signatures.
fn print_data_replies(rt: &impl Print) -> io::Result<()> {
    print_heading(rt, 0x15)?;
    print_data(rt, 0x15, b"\xFF")?;
    print_longest(rt, 0x15)?;
    print_heading(rt, 0x3A)?;
    print_data(
        rt,
        0x3A,
        b"\x03\x93\x87\x00\x00\x3D\x09\x00\x02\x01\x01\x00",
    )?;
    print_data(
        rt,
        0x3A,
        b"\x01\x31\x2D\x00\x00\x1E\x84\x80\x04\x02\x0A\x08",
    )
}

// An area by its fields, in the order of its reply.
fn area(koa: u8, sad: u32, ead: u32, eau: u32, wau: u32) -> Area {
    Area {
        koa,
        sad,
        ead,
        eau,
        wau,
    }
}

// The areas of source 001, of source 000 (its example and its table), and of the bench profile.
fn print_areas(rt: &impl Print) -> io::Result<()> {
    let areas = [
        area(0, 0x10000, 0x1FFFFF, 0x8000, 0x100),
        area(0, 0x10000, 0x1FFFFF, 0x800, 8),
        area(0, 0, 0x1FFFF, 0x800, 8),
        area(1, 0x40100000, 0x40100FFF, 0x400, 1),
        area(2, 0x01010008, 0x01010033, 0, 4),
        area(0, 0, 0xFFFF, 0x2000, 0x80),
        area(2, 0x01000000, 0x010000FF, 0, 0x10),
    ];
    print_heading(rt, 0x3B)?;
    for area in areas {
        print_data(rt, 0x3B, &packet_messages::area_message(area))?;
    }
    Ok(())
}

fn main(rt: HostRuntime) -> io::Result<()> {
    print_granted(&rt)?;
    print_data_replies(&rt)?;
    print_areas(&rt)?;
    for request in REFUSED {
        print_refused(&rt, request)?;
    }
    Ok(())
}
