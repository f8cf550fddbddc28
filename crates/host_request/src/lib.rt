// What a host asks of a device: requests as values, and each as its packet at the front of a buffer that the caller lends.
#![tactic(auto)]

ghost use Rattle.std.specs.Prelude.{◌≡◌, [], ◌∷◌, ◌++◌};
ghost use Rattle.numbers.specs.Bytes.{bytes_of};
ghost use Rattle.packet.specs.declared.Kind.TheVariants.{Command};
ghost use Rattle.host_request.specs.Request.{kind_for, number_for, enclosable, has_nothing_left};
ghost use Rattle.host_request.specs.Build.{Placed, Builds};

use packet::Kind;

// The eight commands, the data of a write, and what asks for a read's next packet. The code of authenticate and the data of a write are lent
// beside the request.
#[derive(Clone, Copy)]
pub enum Request {
    Inquiry,
    // SAD, EAD
    Erase(u32, u32),
    Write(u32, u32),
    Read(u32, u32),
    Authenticate,
    // BRT
    Baud(u32),
    Signature,
    // the area's number
    Area(u8),
    WriteData,
    // how many bytes are still unread
    Next(u32),
}

// Why there is no packet.
#[derive(Clone, Copy)]
pub enum Unbuilt {
    // the lent bytes are not as many as the request has: 16 of authenticate, 1 to 1,024 of write data, none of the others
    WrongAmount,
    // a next packet of a read that is over
    NothingLeft,
    // the buffer is shorter than the packet
    NoRoom,
}

// The kind of the request's packet: only in a write or a read under way the host sends data packets.
pub fn kind(request: Request) -> Kind
    ensures { result ≡ kind_for request }
{
    match request {
        Request::Inquiry
        | Request::Erase(_, _)
        | Request::Write(_, _)
        | Request::Read(_, _)
        | Request::Authenticate
        | Request::Baud(_)
        | Request::Signature
        | Request::Area(_) => Kind::Command,
        Request::WriteData | Request::Next(_) => Kind::Data,
    }
}

// COM or RES of the request's packet, and RES of what grants it. No From: `request_number` of host_bytes is another number of a request.
pub fn number(request: Request) -> u8
    ensures { result ≡ number_for request }
{
    match request {
        Request::Inquiry => packet_fields::INQUIRY,
        Request::Erase(_, _) => packet_fields::ERASE,
        Request::Write(_, _) | Request::WriteData => packet_fields::WRITE,
        Request::Read(_, _) | Request::Next(_) => packet_fields::READ,
        Request::Authenticate => packet_fields::AUTHENTICATE,
        Request::Baud(_) => packet_fields::BAUD,
        Request::Signature => packet_fields::SIGNATURE,
        Request::Area(_) => packet_fields::AREA,
    }
}

// Whether so many bytes may be lent beside the request.
#[tactic(auto, unfolding(crate::specs::Request::enclosable))]
fn is_enclosable(request: Request, count: usize) -> bool
    ensures { result ≡ enclosable request count }
{
    // An arm for each request here and in `build`: where several share one, the compiler asks again which it is, and a packet costs a quarter more.
    match request {
        Request::Inquiry => count == 0,
        Request::Erase(_, _) => count == 0,
        Request::Write(_, _) => count == 0,
        Request::Read(_, _) => count == 0,
        Request::Authenticate => count == 16,
        Request::Baud(_) => count == 0,
        Request::Signature => count == 0,
        Request::Area(_) => count == 0,
        Request::WriteData => (1..=packet::LONGEST_DATA).contains(&count),
        Request::Next(_) => count == 0,
    }
}

// Whether it asks for a next packet of a read that is over.
fn is_over(request: Request) -> bool
    ensures { result ≡ has_nothing_left request }
{
    matches!(request, Request::Next(0))
}

// A packet with these bytes behind COM or RES.
#[tactic(auto, using(crate::proofs::Laws::frame_placed))]
fn put(buffer: &mut [u8], kind: Kind, code: u8, bytes: &[u8]) -> Result<usize, Unbuilt>
    ensures { Placed kind (code ∷ bytes.now) buffer.old buffer.new result }
{
    packet::put_frame(buffer, kind, code, bytes).ok_or(Unbuilt::NoRoom)
}

// SAD and EAD as they stand in a command.
#[tactic(auto, using(crate::proofs::Laws::two_stored))]
fn range_bytes(sad: u32, ead: u32) -> [u8; 8]
    ensures { result ≡ bytes_of 4 sad ++ bytes_of 4 ead }
{
    let mut info = [0u8; 8];
    numbers::write(&mut info, 0, sad);
    numbers::write(&mut info, 4, ead);
    info
}

// The request's packet at the front of the buffer, with the code of authenticate or the data of a write out of `bytes`. Where it cannot be
// built nothing is written, and the answer says why. Addresses are not judged: that is the device's to do.
pub fn build(buffer: &mut [u8], request: Request, bytes: &[u8]) -> Result<usize, Unbuilt>
    ensures { Builds request bytes.now buffer.old buffer.new result }
{
    if !is_enclosable(request, bytes.len()) {
        return Err(Unbuilt::WrongAmount);
    }
    if is_over(request) {
        return Err(Unbuilt::NothingLeft);
    }
    let code = number(request);
    match request {
        Request::Inquiry => put(buffer, Kind::Command, code, bytes),
        Request::Erase(sad, ead) => put(buffer, Kind::Command, code, &range_bytes(sad, ead)),
        Request::Write(sad, ead) => put(buffer, Kind::Command, code, &range_bytes(sad, ead)),
        Request::Read(sad, ead) => put(buffer, Kind::Command, code, &range_bytes(sad, ead)),
        Request::Authenticate => put(buffer, Kind::Command, code, bytes),
        Request::Baud(brt) => put(buffer, Kind::Command, code, &brt.to_be_bytes()),
        Request::Signature => put(buffer, Kind::Command, code, bytes),
        Request::Area(n) => put(buffer, Kind::Command, code, &[n]),
        Request::WriteData => put(buffer, Kind::Data, code, bytes),
        Request::Next(_) => put(buffer, Kind::Data, code, &[0]),
    }
}
