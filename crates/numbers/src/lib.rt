// Numbers on the line: two or four bytes, high byte first; whether bytes are the same; a copy.
#![tactic(auto)]

mod copying;

ghost use Rattle.std.specs.Prelude.{◌≡◌, ◌+◌, leb, ℕ};
ghost use Rattle.numbers.specs.Bytes.{itself, value_at, Put};
ghost use Rattle.numbers.specs.Same.{same};

pub use copying::copy;

// Whether a field of `width` bytes at `at` lies in a slice of `length` bytes.
pub fn has_field(length: usize, at: usize, width: usize) -> bool
    ensures { result ≡ leb (at + width) length }
{
    length.checked_sub(width).is_some_and(|last| at <= last)
}

// A type of numbers that the line carries, each in as many bytes as the type has.
pub trait Number: Copy {
    ghost width: { ℕ };

    // A number as a value of the type, and a value as a number: generic code cannot know that they are the same.
    ghost of: { ℕ → Self };

    ghost value: { Self → ℕ };

    // The number in the first bytes, or None where they are too few.
    fn first(s: &[u8]) -> Option<Self>
        ensures { result ≡ value_at of width s.now 0 };

    // The number's bytes to the front; false where there is no room, and then nothing is written.
    fn put(self, s: &mut [u8]) -> bool
        ensures { Put width (value self) 0 s.old s.new result };
}

impl Number for u16 {
    ghost width = { 2 };

    ghost of = { itself };

    ghost value = { itself };

    #[tactic(auto, using(crate::proofs::Laws::number_first, crate::proofs::Laws::number_two, crate::proofs::Laws::read_outside))]
    fn first(s: &[u8]) -> Option<u16> {
        Some(u16::from_be_bytes(*s.first_chunk::<2>()?))
    }

    #[tactic(auto, using(crate::proofs::Laws::put_outside))]
    fn put(self, s: &mut [u8]) -> bool {
        let Some(bytes) = s.first_chunk_mut::<2>() else {
            return false;
        };
        *bytes = u16::to_be_bytes(self);
        true
    }
}

impl Number for u32 {
    ghost width = { 4 };

    ghost of = { itself };

    ghost value = { itself };

    #[tactic(auto, using(crate::proofs::Laws::number_first, crate::proofs::Laws::number_four, crate::proofs::Laws::read_outside))]
    fn first(s: &[u8]) -> Option<u32> {
        Some(u32::from_be_bytes(*s.first_chunk::<4>()?))
    }

    #[tactic(auto, using(crate::proofs::Laws::put_outside))]
    fn put(self, s: &mut [u8]) -> bool {
        let Some(bytes) = s.first_chunk_mut::<4>() else {
            return false;
        };
        *bytes = u32::to_be_bytes(self);
        true
    }
}

// The number in the bytes from `at` on, or None where the slice ends before the number does.
#[tactic(auto, using(crate::proofs::Laws::read_inside, crate::proofs::Laws::read_outside))]
pub fn read<N: Number>(s: &[u8], at: usize) -> Option<N>
    ensures { result ≡ value_at N.of N.width s.now at }
{
    N::first(s.get(at..)?)
}

// The number's bytes from `at` on; false where there is no room, and then nothing is written.
#[tactic(auto, using(crate::proofs::Laws::put_inside, crate::proofs::Laws::put_outside))]
pub fn write<N: Number>(buffer: &mut [u8], at: usize, n: N) -> bool
    ensures { Put N.width (N.value n) at buffer.old buffer.new result }
{
    if buffer.len() < at {
        return false;
    }
    n.put(&mut buffer[at..])
}

// Whether two slices hold the same bytes.
#[tactic(auto, unfolding(crate::specs::Same::same))]
pub fn equal(a: &[u8], b: &[u8]) -> bool
    ensures { result ≡ same a.now b.now }
{
    a == b
}
