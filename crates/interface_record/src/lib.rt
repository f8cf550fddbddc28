// Records of a recording for other languages: numbers and byte slices.
#![tactic(auto)]

ghost use Rattle.std.specs.Prelude.{◌≡◌};
ghost use Rattle.interface_record.specs.Post.{part_by, ReadsBytes, WritesBytes};

use recording::{Fault, Found, Part};

// Where the record's bytes stand; where there is no record, at the place and nowhere else.
fn part_of(found: Found, at: usize) -> Part
    ensures { result ≡ part_by at found }
{
    match found {
        Found::Is(_, part) => part,
        Found::End | Found::Refused(_) => Part { from: at, to: at },
    }
}

// The record at a place: its direction's number, with its bytes from `from` up to, not including, `to`, where the next record begins; or
// the number of the end or of why it cannot be read, and the place stays.
#[unsafe(no_mangle)]
pub extern "C" fn indraveck_read_record(
    recording: &[u8],
    at: usize,
    from: &mut u64,
    to: &mut u64,
) -> u32
    ensures { ReadsBytes recording.now at result from.new to.new }
{
    let found = recording::record_at(recording, at);
    let part = part_of(found, at);
    *from = part.from as u64;
    *to = part.to as u64;
    u32::from(u8::from(found))
}

// Writes one record at a place of the buffer: 7, with the place behind it; or the number of why it was not written, and the place and
// the buffer stay. Any number may be asked for as a direction.
#[unsafe(no_mangle)]
pub extern "C" fn indraveck_write_record(
    buffer: &mut [u8],
    at: usize,
    direction: u32,
    bytes: &[u8],
    to: &mut u64,
) -> u32
    ensures { WritesBytes direction at bytes.now buffer.old buffer.new result to.new }
{
    *to = at as u64;
    if 255 < direction {
        return u32::from(u8::from(Fault::BadDirection));
    }
    match record_writer::write_record(buffer, at, direction as u8, bytes) {
        Ok(next) => {
            *to = next as u64;
            7
        }
        Err(fault) => u32::from(u8::from(fault)),
    }
}
