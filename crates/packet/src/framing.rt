// Packets that are built: one at the front of a buffer that the caller lends.
ghost use Rattle.std.specs.Prelude.{◌≡◌, ◌+◌, ◌%◌, ◌≤◌, [], ◌∷◌, ◌++◌, length};
ghost use Rattle.std.proofs.lemmas.List.Edits.{sets};
ghost use Rattle.numbers.specs.Bytes.{bytes_of, field};
ghost use Rattle.packet.specs.Packet.{start_of, sum_of, lack, frame};
ghost use Rattle.packet.specs.Frame.{longest_data, front, Framed};

use crate::{Kind, is_permitted, sum};

// All bytes of one slice into another of the same length, and their sum modulo 256: one walk, which the compiler does in blocks. It writes by index,
// since of what `iter_mut().zip(from)` wrote a proof would know only the length.
#[tactic(auto, using(std::proofs::lemmas::List::Sums::fold_more, crate::proofs::Building::copy_next))]
fn copy_sum(to: &mut [u8], from: &[u8]) -> u8
    requires { length to.old ≡ length from.now }
    ensures { (to.new ≡ from.now) × (result ≡ sum_of from.now % 256) }
{
    let mut total: u8 = 0;
    for (i, byte) in from.iter().enumerate() {
        to[i] = *byte;
        total = total.wrapping_add(*byte);
    }
    total
}

// What a packet has before its information or data: start byte, length, COM or RES.
fn put_head(buffer: &mut [u8], kind: Kind, code: u8, n: usize)
    requires { (n ≤ longest_data) × (4 ≤ length buffer.old) }
    ensures { buffer.new ≡ front (start_of kind ∷ bytes_of 2 (n + 1) ++ code ∷ []) buffer.old }
{
    buffer[0] = u8::from(kind);
    numbers::write(buffer, 1, (n + 1) as u16);
    buffer[3] = code;
}

// SUM and ETX behind contents that end before `end`. `rest` is the sum of the bytes behind COM or RES, and stands for them in SUM.
fn put_end(buffer: &mut [u8], end: usize, rest: u8)
    requires { (4 ≤ end) × (end + 2 ≤ length buffer.old) }
    ensures { buffer.new ≡ sets buffer.old end (lack (rest ∷ field 3 1 buffer.old) ∷ 0x03 ∷ []) }
{
    let total = std::num::wrapping_add_u8(sum(&buffer[1..4]), rest);
    buffer[end] = std::num::wrapping_sub_u8(0, total);
    buffer[end + 1] = 0x03;
}

// The packet itself, where it is not too long and has room.
fn fill_frame(buffer: &mut [u8], kind: Kind, code: u8, bytes: &[u8]) -> usize
    requires { (length bytes.now ≤ longest_data) × (length bytes.now + 6 ≤ length buffer.old) }
    ensures { (result ≡ length bytes.now + 6) × (buffer.new ≡ front (frame kind (code ∷ bytes.now)) buffer.old) }
{
    let n = bytes.len();
    let end = n + 4;
    put_head(buffer, kind, code, n);
    let rest = copy_sum(&mut buffer[4..end], bytes);
    put_end(buffer, end, rest);
    end + 2
}

// A packet of a kind at the front of the buffer, with COM or RES and the bytes behind it: how many bytes the packet has; `None` where the kind
// permits no such length or there is no room, and then nothing is written.
#[tactic(auto, using(crate::proofs::Laws::permitted_most), unfolding(crate::specs::Frame::has_room))]
pub fn put_frame(buffer: &mut [u8], kind: Kind, code: u8, bytes: &[u8]) -> Option<usize>
    ensures { Framed kind (code ∷ bytes.now) buffer.old buffer.new result }
{
    let n = bytes.len();
    if !is_permitted(kind, n + 1) || buffer.len() < n + 6 {
        return None;
    }
    Some(fill_frame(buffer, kind, code, bytes))
}
