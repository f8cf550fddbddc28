// Reads and writes records: every refusal, cut and limit, places within and beyond, and what was written read back. Each call has a line:
// the bytes, the place, the answer, and what a buffer then holds.
#![tactic(auto)]

ghost use Rattle.std.specs.Prelude.{◌≤◌};

mod words;

use recording::Found;
use show_common::{Byte, Excerpt};
use std::io;
use words::{FoundWords, WrittenWords};

// Recordings that are read at every length, under a title.
const CUT: [(&str, &[&[u8]]); 5] = [
    (
        "reading: a record of each direction, cut behind each byte",
        &[
            b"\x52\x4C\x48\x00\x02\xAA\xBB",
            b"\x52\x4C\x44\x00\x01\xAA",
            b"\x52\x4C\x52\x00\x00",
        ],
    ),
    (
        "reading: a wrong mark, in its first byte, its second, both",
        &[
            b"\x00\x4C\x48\x00\x02\xAA\xBB",
            b"\x52\x00\x48\x00\x02\xAA\xBB",
            b"\x00\x00\x48\x00\x02\xAA\xBB",
        ],
    ),
    (
        "reading: an unknown direction",
        &[
            b"\x52\x4C\x49\x00\x02\xAA\xBB",
            b"\x52\x4C\x00\x00\x02\xAA\xBB",
            b"\x52\x4C\xFF\x00\x02\xAA\xBB",
        ],
    ),
    (
        "reading: a host record of 0, 1,031 and 65,535 bytes",
        &[
            b"\x52\x4C\x48\x00\x00\xAA\xBB",
            b"\x52\x4C\x48\x04\x07\xAA\xBB",
            b"\x52\x4C\x48\xFF\xFF\xAA\xBB",
        ],
    ),
    (
        "reading: a reset of one byte",
        &[b"\x52\x4C\x52\x00\x01\xAA"],
    ),
];

// Heads that are not whole: what is whole of them is judged.
const HEADS: [&[u8]; 7] = [
    b"\x52",
    b"\x00",
    b"\x52\x00",
    b"\x52\x4C\x49",
    b"\x52\x4C\x48\xFF",
    b"\x52\x4C\x52\x01",
    b"\x52\x4C\x48\xFF\xFF",
];

// A host record, a device record whose bytes look like a mark, and a reset.
const THREE: &[u8] = b"\x52\x4C\x48\x00\x01\xAA\x52\x4C\x44\x00\x02\x52\x4C\x52\x4C\x52\x00\x00";

// Bytes that count up from 10h to FEh, and then anew, so that one in another's place is seen.
fn counting() -> [u8; 1036] {
    let mut bytes = [0; 1036];
    for (i, byte) in bytes.iter_mut().enumerate() {
        *byte = (16 + i % 239) as u8;
    }
    bytes
}

// One line; where to read on: behind the record, or at the same place where there is none.
fn read(rt: &impl Print, recording: &[u8], at: usize) -> io::Result<usize> {
    let found = recording::record_at(recording, at);
    println!(rt; "{} at {at}: {}", Excerpt(recording), FoundWords(found))?;
    match found {
        Found::Is(_, part) => Ok(part.to),
        Found::End => Ok(at),
        Found::Refused(_) => Ok(at),
    }
}

// None of the bytes, one more each time, and all of them.
fn read_cuts(rt: &impl Print, recording: &[u8]) -> io::Result<()> {
    for n in 0..=recording.len() {
        read(rt, &recording[..n], 0)?;
    }
    Ok(())
}

// From each place up to the last, and from the greatest that there is.
fn read_places(rt: &impl Print, recording: &[u8], last: usize) -> io::Result<()> {
    for at in 0..=last {
        read(rt, recording, at)?;
    }
    read(rt, recording, usize::MAX)?;
    Ok(())
}

// Three records, and what stands behind them.
fn read_three(rt: &impl Print, recording: &[u8]) -> io::Result<()> {
    let mut at = 0;
    for _ in 0..4 {
        at = read(rt, recording, at)?;
    }
    Ok(())
}

// So many bytes, with a head that says this direction and length.
fn read_long(rt: &impl Print, direction: u8, count: u16, size: usize) -> io::Result<()>
    requires { size ≤ 1036 }
{
    let mut recording = counting();
    let [high, low] = count.to_be_bytes();
    recording[..5].copy_from_slice(&[0x52, 0x4C, direction, high, low]);
    read(rt, &recording[..size], 0)?;
    Ok(())
}

// The lengths on both sides of each limit: one byte short, whole, and with a byte behind.
fn read_lengths(rt: &impl Print, direction: u8) -> io::Result<()> {
    read_long(rt, direction, 0, 5)?;
    read_long(rt, direction, 1, 5)?;
    read_long(rt, direction, 1, 6)?;
    read_long(rt, direction, 1, 7)?;
    read_long(rt, direction, 1030, 1034)?;
    read_long(rt, direction, 1030, 1035)?;
    read_long(rt, direction, 1030, 1036)?;
    read_long(rt, direction, 1031, 1036)
}

fn show_reading(rt: &impl Print) -> io::Result<()> {
    for (title, recordings) in CUT {
        println!(rt; "== {title}")?;
        for recording in recordings {
            read_cuts(rt, recording)?;
        }
    }
    println!(rt; "== reading: lengths at the limits")?;
    read_lengths(rt, 0x48)?;
    read_lengths(rt, 0x44)?;
    read_lengths(rt, 0x52)?;
    println!(rt; "== reading: what is whole is judged, what is not is cut short")?;
    for recording in HEADS {
        read(rt, recording, 0)?;
    }
    println!(rt; "== reading: an empty recording")?;
    read_places(rt, b"", 1)?;
    println!(rt; "== reading: three records, one behind the other")?;
    read_three(rt, THREE)?;
    println!(rt; "== reading: three records, from each place, and from behind the end")?;
    read_places(rt, THREE, 19)
}

// One line; where to write on: behind the record, or at the same place where nothing was written.
fn write(
    rt: &impl Print,
    buffer: &mut [u8],
    at: usize,
    direction: u8,
    bytes: &[u8],
) -> io::Result<usize> {
    let written = record_writer::write_record(buffer, at, direction, bytes);
    let size = buffer.len();
    let (sender, given, holds) = (Byte(direction), Excerpt(bytes), Excerpt(buffer));
    println!(rt;
        "{sender}h with {given} into a buffer of {size} at {at}: {}; {holds}",
        WrittenWords(written)
    )?;
    match written {
        Ok(place) => Ok(place),
        Err(_) => Ok(at),
    }
}

// Into a new buffer.
fn write_new(rt: &impl Print, size: usize, at: usize, direction: u8, bytes: &[u8]) -> io::Result<()>
    requires { size ≤ 1036 }
{
    let mut buffer = counting();
    write(rt, &mut buffer[..size], at, direction, bytes)?;
    Ok(())
}

// A record of so many bytes. Calls in a row: of sizes in a table the check does not see that they are within 1,036.
fn write_long(
    rt: &impl Print,
    size: usize,
    at: usize,
    direction: u8,
    count: usize,
) -> io::Result<()>
    requires { (size ≤ 1036) × (count ≤ 1036) }
{
    write_new(rt, size, at, direction, &counting()[..count])
}

// Into buffers of no byte up to eight.
fn write_sizes(rt: &impl Print, direction: u8, bytes: &[u8]) -> io::Result<()> {
    for size in 0..=8 {
        write_new(rt, size, 0, direction, bytes)?;
    }
    Ok(())
}

// At each place of a buffer, at its end and behind it, and at two places so great that a sum would wrap.
fn write_places(rt: &impl Print, direction: u8, bytes: &[u8]) -> io::Result<()> {
    for at in 0..=9 {
        write_new(rt, 8, at, direction, bytes)?;
    }
    write_new(rt, 8, usize::MAX - 5, direction, bytes)?;
    write_new(rt, 8, usize::MAX, direction, bytes)
}

fn show_room(rt: &impl Print) -> io::Result<()> {
    println!(rt; "== writing: a record of each direction into buffers of 0 to 8 bytes")?;
    write_sizes(rt, 0x48, b"\xAA")?;
    write_sizes(rt, 0x44, b"\xAA\xBB")?;
    write_sizes(rt, 0x52, b"")?;
    println!(rt; "== writing: 1,030 bytes")?;
    write_long(rt, 1034, 0, 0x48, 1030)?;
    write_long(rt, 1035, 0, 0x48, 1030)?;
    write_long(rt, 1036, 0, 0x48, 1030)?;
    write_long(rt, 1036, 1, 0x48, 1030)?;
    write_long(rt, 1036, 2, 0x48, 1030)?;
    println!(rt; "== writing: at each place, at the end and behind it")?;
    write_places(rt, 0x48, b"\xAA")
}

fn show_refused(rt: &impl Print) -> io::Result<()> {
    println!(rt; "== writing: an unknown direction")?;
    write_new(rt, 8, 1, 0x00, b"\xAA")?;
    write_new(rt, 8, 1, 0x49, b"\xAA")?;
    write_new(rt, 8, 1, 0xFF, b"\xAA")?;
    println!(rt; "== writing: a length that the direction does not have")?;
    write_new(rt, 8, 1, 0x48, b"")?;
    write_new(rt, 8, 1, 0x44, b"")?;
    write_new(rt, 8, 1, 0x52, b"\xAA")?;
    write_long(rt, 1036, 0, 0x48, 1031)?;
    write_long(rt, 1036, 0, 0x44, 1031)?;
    println!(rt; "== writing: several faults at once")?;
    write_new(rt, 8, 8, 0x49, b"\xAA")?;
    write_new(rt, 8, 8, 0x49, b"")?;
    write_long(rt, 8, 1, 0x49, 1031)?;
    write_new(rt, 8, usize::MAX, 0x00, b"")?;
    write_new(rt, 8, 8, 0x48, b"")?;
    write_long(rt, 8, 1, 0x48, 1031)?;
    write_new(rt, 8, usize::MAX, 0x52, b"\xAA")
}

// A record of so many bytes, in a line that it fills, read back; and what stands behind it.
fn read_back(rt: &impl Print, direction: u8, count: usize) -> io::Result<()>
    requires { count ≤ 1030 }
{
    let bytes = &counting()[..count];
    let line = &mut counting()[..count + 5];
    write(rt, line, 0, direction, bytes)?;
    let end = read(rt, line, 0)?;
    read(rt, line, end)?;
    match recording::record_at(line, 0) {
        Found::Is(_, part) if line.get(part.from..part.to) == Some(bytes) => {
            println!(rt; "the bytes are the same")
        }
        _ => println!(rt; "the bytes are NOT the same"),
    }
}

// Three records, which fill the line.
fn read_back_three(rt: &impl Print) -> io::Result<()> {
    let mut line = [0xEE; 18];
    let second = write(rt, &mut line, 0, 0x48, b"\xAA")?;
    let third = write(rt, &mut line, second, 0x44, b"\x52\x4C")?;
    write(rt, &mut line, third, 0x52, b"")?;
    read_three(rt, &line)
}

fn show_both(rt: &impl Print) -> io::Result<()> {
    println!(rt; "== both: what was written is read back, and then comes the end")?;
    read_back(rt, 0x48, 1)?;
    read_back(rt, 0x44, 2)?;
    read_back(rt, 0x52, 0)?;
    read_back(rt, 0x48, 1030)?;
    read_back(rt, 0x44, 1030)?;
    println!(rt; "== both: three in a row")?;
    read_back_three(rt)
}

fn main(rt: HostRuntime) -> io::Result<()> {
    show_reading(&rt)?;
    show_room(&rt)?;
    show_refused(&rt)?;
    show_both(&rt)
}
