// A record of a recording, written into a buffer that the caller lends.
#![tactic(auto)]

ghost use Rattle.std.specs.Prelude.{◌≡◌, ◌+◌, ◌≤◌, length};
ghost use Rattle.recording.specs.Format.{direction_number, entry};
ghost use Rattle.record_writer.specs.Writing.{Wrote};

use recording::{Direction, Fault};

// A record's bytes, into as many.
fn fill(part: &mut [u8], direction: u8, bytes: &[u8])
    requires { (length bytes.now ≤ 1030) × (length part.old ≡ length bytes.now + 5) }
    ensures { part.new ≡ entry direction bytes.now }
{
    let count = bytes.len();
    part[0] = 0x52;
    part[1] = 0x4C;
    part[2] = direction;
    numbers::write(part, 3, count as u16);
    numbers::copy(bytes, &mut part[5..]);
}

// A record of a direction.
fn write_directed(
    buffer: &mut [u8],
    at: usize,
    direction: Direction,
    bytes: &[u8],
) -> Result<usize, Fault>
    ensures { Wrote (direction_number direction) at bytes.now buffer.old buffer.new result }
{
    let count = bytes.len();
    if !recording::is_allowed(direction, count) {
        return Err(Fault::BadLength);
    }
    // 1,035 at most
    let whole = count + 5;
    if !numbers::has_field(buffer.len(), at, whole) {
        return Err(Fault::NoRoom);
    }
    let behind = at + whole;
    fill(&mut buffer[at..behind], u8::from(direction), bytes);
    Ok(behind)
}

// One record at a place of the buffer. The direction is a byte, since C may ask for any, and `Wrote` answers for each; and so any place.
pub fn write_record(
    buffer: &mut [u8],
    at: usize,
    direction: u8,
    bytes: &[u8],
) -> Result<usize, Fault>
    ensures { Wrote direction at bytes.now buffer.old buffer.new result }
{
    let Ok(which) = Direction::try_from(direction) else {
        return Err(Fault::BadDirection);
    };
    write_directed(buffer, at, which, bytes)
}
