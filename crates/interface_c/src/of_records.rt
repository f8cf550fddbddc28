// Records of a recording.

ghost use Rattle.interface_record.specs.Post.{ReadsBytes, WritesBytes};

// The record at a place: its direction's number, with its bytes from `from` up to, not including, `to`, where the next record begins; or
// the number of the end or of why it cannot be read, and the place stays.
#[unsafe(no_mangle)]
pub extern "C" fn indraveck_read_record(
    recording: &[u8],
    at: usize,
    from: &mut u64,
    to: &mut u64,
) -> u32
    ensures { ReadsBytes recording.now at result from.new to.new }
{
    interface_record::indraveck_read_record(recording, at, from, to)
}

// Writes one record at a place of the buffer: 7, with the place behind it; or the number of why it was not written, and the place and
// the buffer stay. Any number may be asked for as a direction.
#[unsafe(no_mangle)]
pub extern "C" fn indraveck_write_record(
    buffer: &mut [u8],
    at: usize,
    direction: u32,
    bytes: &[u8],
    to: &mut u64,
) -> u32
    ensures { WritesBytes direction at bytes.now buffer.old buffer.new result to.new }
{
    interface_record::indraveck_write_record(buffer, at, direction, bytes, to)
}
