// Packets: what the bytes that came so far are, whether a packet is good, its payload; packets that are built.
#![tactic(auto)]

mod framing;

ghost use Rattle.std.specs.Prelude.{◌≡◌, ◌%◌};
ghost use Rattle.numbers.specs.Part.{PartAt};
ghost use Rattle.verdict.specs.Check.{first_fault, verdict_of};
ghost use Rattle.packet.specs.Packet.{start_of, sum_of, permitted, measured_of, progress_of, ending_checks, is_partial, is_complete, ends_well, good, payload_of, payload_at};

pub use framing::put_frame;
use verdict::{Reason, Verdict};

// How many bytes the longest packet has, and a buffer that any packet fits into.
pub const LONGEST_PACKET: usize = 1030;

// How many data bytes the longest data packet has.
pub const LONGEST_DATA: usize = 1024;

// The two kinds: a command starts with 01h, data with 81h.
#[derive(Clone, Copy)]
pub enum Kind {
    Command,
    Data,
}

// What the bytes received so far are to a packet of a kind.
#[derive(Clone, Copy)]
pub enum Progress {
    // the first byte is not the kind's start byte
    Astray,
    // nothing yet, or a packet of which bytes are still to come
    Partial,
    // the length is outside the kind's range
    Unfit,
    // one whole packet
    Complete,
    // a whole packet and more
    Excess,
}

// Whether the kind permits the length.
#[tactic(auto, unfolding(crate::specs::Packet::permitted))]
pub fn is_permitted(kind: Kind, length: usize) -> bool
    ensures { result ≡ permitted kind length }
{
    if length < 1 {
        return false;
    }
    match kind {
        Kind::Command => length <= 256,
        Kind::Data => length <= 1025,
    }
}

// The kind's start byte.
impl From<Kind> for u8 {
    ghost from_gives = { λ kind n. n ≡ start_of kind };

    fn from(kind: Kind) -> u8 {
        match kind {
            Kind::Command => 0x01,
            Kind::Data => 0x81,
        }
    }
}

// What `count` bytes are to a packet whose length bytes say `length`.
fn measured(kind: Kind, count: usize, length: usize) -> Progress
    ensures { result ≡ measured_of kind count length }
{
    if !is_permitted(kind, length) {
        return Progress::Unfit;
    }
    if count < length + 5 {
        return Progress::Partial;
    }
    if count == length + 5 {
        Progress::Complete
    } else {
        Progress::Excess
    }
}

// What the bytes of s are to a packet of the kind.
pub fn gathered(s: &[u8], kind: Kind) -> Progress
    ensures { result ≡ progress_of kind s.now }
{
    if s.len() == 0 {
        return Progress::Partial;
    }
    if s[0] != u8::from(kind) {
        return Progress::Astray;
    }
    match numbers::read::<u16>(s, 1) {
        None => Progress::Partial,
        Some(n) => measured(kind, s.len(), n as usize),
    }
}

// Whether the bytes of s are an incomplete packet of the kind.
pub fn waits(s: &[u8], kind: Kind) -> bool
    ensures { result ≡ is_partial (progress_of kind s.now) }
{
    matches!(gathered(s, kind), Progress::Partial)
}

// The sum of the bytes, modulo 256.
pub fn sum(s: &[u8]) -> u8
    ensures { result ≡ sum_of s.now % 256 }
{
    s.iter().fold(0, |total, byte| total.wrapping_add(*byte))
}

// ETX, then SUM, of a packet that is all of the slice.
pub fn check_ending(packet: &[u8]) -> Verdict
    ensures { result ≡ verdict_of (first_fault (ending_checks packet.now)) }
{
    let n = packet.len();
    if n < 2 {
        return Err(Reason::WrongEtx);
    }
    if packet[n - 1] != 0x03 {
        return Err(Reason::WrongEtx);
    }
    let end = n - 1;
    if sum(&packet[1..end]) != 0 {
        return Err(Reason::WrongSum);
    }
    Ok(())
}

// Whether the slice is exactly one whole packet, of either kind, with right ETX and SUM.
pub fn is_good(packet: &[u8]) -> bool
    ensures { result ≡ good packet.now }
{
    if is_complete(gathered(packet, Kind::Command)) {
        return ends_well(packet);
    }
    if is_complete(gathered(packet, Kind::Data)) {
        return ends_well(packet);
    }
    false
}

// Whether it is one whole packet.
fn is_complete(progress: Progress) -> bool
    ensures { result ≡ is_complete progress }
{
    matches!(progress, Progress::Complete)
}

// Whether ETX and SUM are right.
#[tactic(auto, using(verdict::proofs::FirstFault::is_granted), unfolding(crate::specs::Packet::ends_well))]
fn ends_well(packet: &[u8]) -> bool
    ensures { result ≡ ends_well packet.now }
{
    check_ending(packet).is_ok()
}

// COM or RES and what follows before SUM, of the packet that the first `count` bytes are; empty where they are no such packet.
pub fn payload(receive: &[u8], count: usize) -> &[u8]
    ensures { PartAt receive.entry (payload_at receive.now count) (payload_of receive.now count) result }
{
    if receive.len() < count {
        return &receive[0..0];
    }
    if !is_good(&receive[..count]) {
        return &receive[0..0];
    }
    let end = count - 2;
    &receive[3..end]
}
