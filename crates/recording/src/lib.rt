// Recordings of a line: which record stands at a place, or why there is none.
#![tactic(auto)]

ghost use Rattle.std.specs.Prelude.{◌&&◌, ◌≡◌, ◌+◌, ◌≤◌, leb, length, ok_or};
ghost use Rattle.numbers.specs.Bytes.{field};
ghost use Rattle.numbers.specs.Same.{same};
ghost use Rattle.verdict.specs.Check.{first_fault};
ghost use Rattle.recording.specs.Format.{mark, direction_number, directed_of, length_allowed, fault_number};
ghost use Rattle.recording.specs.Recording.{count_at, part_at, length_checks, found_by, found_at, found_number, ended_by, ended_number};

use numbers::has_field;

// Who sent a record's bytes; a reset of the device has none.
#[derive(Clone, Copy)]
pub enum Direction {
    Host,
    Device,
    Reset,
}

// Why a record is not read, or not written.
#[derive(Clone, Copy)]
pub enum Fault {
    BadMark,
    BadDirection,
    BadLength,
    CutShort,
    // of a writer: the record does not fit whole
    NoRoom,
}

// The bytes of a record, by places in the recording.
#[derive(Clone, Copy)]
pub struct Part {
    pub from: usize,
    // not included; the next record begins here
    pub to: usize,
}

// What stands at a place of a recording.
#[derive(Clone, Copy)]
pub enum Found {
    // a record
    Is(Direction, Part),
    // the recording's end
    End,
    // no record that can be read
    Refused(Fault),
}

// How the reading of a recording ended.
#[derive(Clone, Copy)]
pub enum Ended {
    // it has not
    Not,
    // with the recording's end: all of it was read
    Whole,
    // at a record that cannot be read
    By(Fault),
}

// How many bytes of a recording were read, and why no more.
#[derive(Clone, Copy)]
pub struct Extent {
    pub count: usize,
    pub ended: Ended,
}

// A byte that is no direction.
#[derive(Clone, Copy, Debug, PartialEq, Eq)]
pub struct UnknownDirection(pub u8);

// The byte of a direction: 48h host, 44h device, 52h reset.
impl From<Direction> for u8 {
    ghost from_gives = { λ direction n. n ≡ direction_number direction };

    fn from(direction: Direction) -> u8 {
        match direction {
            Direction::Host => 0x48,
            Direction::Device => 0x44,
            Direction::Reset => 0x52,
        }
    }
}

// The direction of a byte.
impl TryFrom<u8> for Direction {
    type Error = UnknownDirection;

    ghost try_from_gives = { λ byte r. r ≡ ok_or (directed_of byte) (record { 0 = byte }) };

    #[tactic(auto, unfolding(crate::specs::Format::directed_of, crate::specs::Format::directed_in))]
    fn try_from(byte: u8) -> Result<Direction, UnknownDirection> {
        match byte {
            0x48 => Ok(Direction::Host),
            0x44 => Ok(Direction::Device),
            0x52 => Ok(Direction::Reset),
            _ => Err(UnknownDirection(byte)),
        }
    }
}

// Whether a record that is no reset may have so many bytes.
fn is_filled(count: usize) -> bool
    ensures { result ≡ (leb 1 count && leb count 1030) }
{
    if count < 1 {
        return false;
    }
    count <= 1030
}

// Whether a record of the direction may have so many bytes.
pub fn is_allowed(direction: Direction, count: usize) -> bool
    ensures { result ≡ length_allowed (direction_number direction) count }
{
    match direction {
        Direction::Host => is_filled(count),
        Direction::Device => is_filled(count),
        Direction::Reset => count == 0,
    }
}

// The number of a fault.
impl From<Fault> for u8 {
    ghost from_gives = { λ fault n. n ≡ fault_number fault };

    fn from(fault: Fault) -> u8 {
        match fault {
            Fault::BadMark => 1,
            Fault::BadDirection => 2,
            Fault::BadLength => 3,
            Fault::CutShort => 4,
            Fault::NoRoom => 5,
        }
    }
}

// The number of what was found: a record's direction, 6 for the end, or the fault's.
impl From<Found> for u8 {
    ghost from_gives = { λ found n. n ≡ found_number found };

    fn from(found: Found) -> u8 {
        match found {
            Found::Is(direction, _) => u8::from(direction),
            Found::End => 6,
            Found::Refused(fault) => u8::from(fault),
        }
    }
}

// How reading ends with what was found.
pub fn ended_by(found: Found) -> Ended
    ensures { result ≡ ended_by found }
{
    match found {
        Found::Is(_, _) => Ended::Not,
        Found::End => Ended::Whole,
        Found::Refused(fault) => Ended::By(fault),
    }
}

// The number of an end: 0 if there was none, 6 for the recording's, or the fault's.
impl From<Ended> for u8 {
    ghost from_gives = { λ ended n. n ≡ ended_number ended };

    fn from(ended: Ended) -> u8 {
        match ended {
            Ended::Not => 0,
            Ended::Whole => 6,
            Ended::By(fault) => u8::from(fault),
        }
    }
}

// Whether the two bytes at a place are the mark.
fn is_marked(recording: &[u8], at: usize) -> bool
    requires { at + 2 ≤ length recording.now }
    ensures { result ≡ same (field 2 at recording.now) mark }
{
    if recording[at] != 0x52 {
        return false;
    }
    recording[at + 1] == 0x4C
}

// The number of bytes behind a head that is whole: its place is known, so no test is owed, and `numbers::read` would make two.
#[tactic(auto, using(crate::proofs::Laws::count_is))]
fn count_at(recording: &[u8], at: usize) -> usize
    requires { at + 5 ≤ length recording.now }
    ensures { result ≡ count_at recording.now at }
{
    u16::from_be_bytes([recording[at + 3], recording[at + 4]]) as usize
}

// The record at a place, from its length on.
fn directed_at(recording: &[u8], at: usize, direction: Direction) -> Found
    ensures { result ≡ found_by (first_fault (length_checks recording.now at (direction_number direction))) (Some direction) (part_at recording.now at) }
{
    let n = recording.len();
    if !has_field(n, at, 5) {
        return Found::Refused(Fault::CutShort);
    }
    let from = at + 5;
    let count = count_at(recording, at);
    if !is_allowed(direction, count) {
        return Found::Refused(Fault::BadLength);
    }
    if !has_field(n, from, count) {
        return Found::Refused(Fault::CutShort);
    }
    Found::Is(
        direction,
        Part {
            from,
            to: from + count,
        },
    )
}

// The record at a place. A hint, and no more: called, it costs a walk over a recording half its speed.
#[inline]
pub fn record_at(recording: &[u8], at: usize) -> Found
    ensures { result ≡ found_at recording.now at }
{
    let n = recording.len();
    if at == n {
        return Found::End;
    }
    if !has_field(n, at, 2) {
        return Found::Refused(Fault::CutShort);
    }
    if !is_marked(recording, at) {
        return Found::Refused(Fault::BadMark);
    }
    if !has_field(n, at, 3) {
        return Found::Refused(Fault::CutShort);
    }
    match Direction::try_from(recording[at + 2]) {
        Err(_) => Found::Refused(Fault::BadDirection),
        Ok(known) => directed_at(recording, at, known),
    }
}
