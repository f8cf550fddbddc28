// Requests as numbers: each its own, and those that it carries.
ghost use Rattle.std.specs.Prelude.{◌≡◌};
ghost use Rattle.host_bytes.specs.Requests.{request_number, first_number, second_number, request_in};

use host_request::Request;

// The request of a number, with its own numbers: 0 where it has none.
#[tactic(auto, unfolding(crate::specs::Requests::request_in))]
pub fn request_of(n: u32, first: u32, second: u32) -> Option<Request>
    ensures { result ≡ request_in n first second }
{
    match (n, first, second) {
        (1, 0, 0) => Some(Request::Inquiry),
        (2, sad, ead) => Some(Request::Erase(sad, ead)),
        (3, sad, ead) => Some(Request::Write(sad, ead)),
        (4, sad, ead) => Some(Request::Read(sad, ead)),
        (5, 0, 0) => Some(Request::Authenticate),
        (6, brt, 0) => Some(Request::Baud(brt)),
        (7, 0, 0) => Some(Request::Signature),
        (8, area @ 0..=255, 0) => Some(Request::Area(area as u8)),
        (9, 0, 0) => Some(Request::WriteData),
        (10, left, 0) => Some(Request::Next(left)),
        _ => None,
    }
}

// A request's number. No From: the type is another crate's.
pub(crate) fn request_number(request: Request) -> u8
    ensures { result ≡ request_number request }
{
    match request {
        Request::Inquiry => 1,
        Request::Erase(_, _) => 2,
        Request::Write(_, _) => 3,
        Request::Read(_, _) => 4,
        Request::Authenticate => 5,
        Request::Baud(_) => 6,
        Request::Signature => 7,
        Request::Area(_) => 8,
        Request::WriteData => 9,
        Request::Next(_) => 10,
    }
}

// Its own numbers: 0 for each that it does not have.
pub(crate) fn own_numbers(request: Request) -> (u32, u32)
    ensures { result ≡ (first_number request, second_number request) }
{
    match request {
        Request::Erase(sad, ead) | Request::Write(sad, ead) | Request::Read(sad, ead) => (sad, ead),
        Request::Baud(n) | Request::Next(n) => (n, 0),
        Request::Area(n) => (n as u32, 0),
        _ => (0, 0),
    }
}
