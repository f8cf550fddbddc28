// What reading and writing answer, in words.
use recording::{Direction, Fault, Found};
use show_common::Byte;
use std::fmt;

// A fault, with its number.
#[derive(Clone, Copy)]
struct FaultWords(Fault);

impl fmt::Display for FaultWords {
    fn fmt<W: fmt::Write>(&self, f: &mut fmt::Formatter<W>) -> fmt::Result {
        let words = match self.0 {
            Fault::BadMark => "bad mark",
            Fault::BadDirection => "bad direction",
            Fault::BadLength => "bad length",
            Fault::CutShort => "cut short",
            Fault::NoRoom => "no room",
        };
        write!(f, "{words} {}", u8::from(self.0))
    }
}

// What stands at a place, with its number.
#[derive(Clone, Copy)]
pub struct FoundWords(pub Found);

impl fmt::Display for FoundWords {
    fn fmt<W: fmt::Write>(&self, f: &mut fmt::Formatter<W>) -> fmt::Result {
        let number = u8::from(self.0);
        match self.0 {
            Found::Is(direction, part) => {
                let side = match direction {
                    Direction::Host => "host",
                    Direction::Device => "device",
                    Direction::Reset => "reset",
                };
                write!(
                    f,
                    "{side} record {}h, {}..{}",
                    Byte(number),
                    part.from,
                    part.to
                )
            }
            Found::End => write!(f, "end {number}"),
            Found::Refused(fault) => write!(f, "{}", FaultWords(fault)),
        }
    }
}

// What writing answers.
#[derive(Clone, Copy)]
pub struct WrittenWords(pub Result<usize, Fault>);

impl fmt::Display for WrittenWords {
    fn fmt<W: fmt::Write>(&self, f: &mut fmt::Formatter<W>) -> fmt::Result {
        match self.0 {
            Ok(place) => write!(f, "written, place {place}"),
            Err(fault) => write!(f, "{}", FaultWords(fault)),
        }
    }
}
