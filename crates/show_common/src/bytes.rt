// Bytes as hexadecimal text.
ghost use Rattle.std.specs.Prelude.{Some};
ghost use Rattle.show_common.specs.Hex.{hex_of, spaced, excerpt};

use std::fmt;

// A byte as two digits, high one first.
#[derive(Clone, Copy)]
pub struct Byte(pub u8);

impl fmt::Display for Byte {
    ghost output = { λ byte. Some (hex_of byte.0) };

    #[tactic(auto, using(crate::proofs::Digits::byte_text))]
    fn fmt<W: fmt::Write>(&self, f: &mut fmt::Formatter<W>) -> fmt::Result {
        let byte = self.0;
        write!(f, "{byte:02X}")
    }
}

// Bytes with a space between them.
#[derive(Clone, Copy)]
pub struct Hex<'a>(pub &'a [u8]);

impl fmt::Display for Hex<'_> {
    ghost output = { λ hex. Some (spaced hex.0.now) };

    fn fmt<W: fmt::Write>(&self, f: &mut fmt::Formatter<W>) -> fmt::Result {
        if let [first, rest @ ..] = self.0 {
            write!(f, "{}", Byte(*first))?;
            for byte in rest {
                write!(f, " {}", Byte(*byte))?;
            }
        }
        Ok(())
    }
}

// All of the bytes, or of many the first eight and the last two.
#[derive(Clone, Copy)]
pub struct Excerpt<'a>(pub &'a [u8]);

impl fmt::Display for Excerpt<'_> {
    ghost output = { λ shown. Some (excerpt shown.0.now) };

    fn fmt<W: fmt::Write>(&self, f: &mut fmt::Formatter<W>) -> fmt::Result {
        let bytes = self.0;
        match bytes.len() {
            0 => write!(f, "no bytes"),
            1..=24 => write!(f, "{}", Hex(bytes)),
            n => write!(
                f,
                "{} .. {} ({n} bytes)",
                Hex(&bytes[..8]),
                Hex(&bytes[n - 2..])
            ),
        }
    }
}
