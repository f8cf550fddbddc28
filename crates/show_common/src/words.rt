// What a host asks for, in words.
ghost use Rattle.std.specs.Prelude.{Some};
ghost use Rattle.show_common.specs.Words.{words_of};

use host_request::Request;
use std::fmt;

// A request, with its numbers in decimal.
#[derive(Clone, Copy)]
pub struct RequestWords(pub Request);

impl fmt::Display for RequestWords {
    ghost output = { λ words. Some (words_of words.0) };

    fn fmt<W: fmt::Write>(&self, f: &mut fmt::Formatter<W>) -> fmt::Result {
        match self.0 {
            Request::Inquiry => write!(f, "inquiry"),
            Request::Erase(sad, ead) => write!(f, "erase {sad} to {ead}"),
            Request::Write(sad, ead) => write!(f, "write {sad} to {ead}"),
            Request::Read(sad, ead) => write!(f, "read {sad} to {ead}"),
            Request::Authenticate => write!(f, "authenticate"),
            Request::Baud(brt) => write!(f, "baud {brt}"),
            Request::Signature => write!(f, "signature"),
            Request::Area(n) => write!(f, "area {n}"),
            Request::WriteData => write!(f, "write data"),
            Request::Next(left) => write!(f, "next, left {left}"),
        }
    }
}
