// Replies: status and data packets at the front of a buffer that the caller lends.
#![tactic(auto)]

ghost use Rattle.std.specs.Prelude.{◌∷◌, ◌≡◌};
ghost use Rattle.packet.specs.declared.Kind.TheVariants.{Data};
ghost use Rattle.packet.specs.Frame.{Framed};
ghost use Rattle.packet_reply.specs.Reply.{res_of, status_contents};

use packet::Kind;
use verdict::Verdict;

// COM of a granted request, COM with bit 7 set of a refused one.
pub fn res(request: u8, verdict: Verdict) -> u8
    ensures { result ≡ res_of request verdict }
{
    match verdict {
        Ok(()) => request,
        Err(_) => {
            if request < 128 {
                request + 128
            } else {
                request
            }
        }
    }
}

// A data packet at the front of the buffer: how many bytes it has; `None` where it is too long or has no room, and then nothing is written.
pub fn put_data(buffer: &mut [u8], res: u8, bytes: &[u8]) -> Option<usize>
    ensures { Framed Data (res ∷ bytes.now) buffer.old buffer.new result }
{
    packet::put_frame(buffer, Kind::Data, res, bytes)
}

// A status reply at the front of the buffer: RES by the request's COM or RES, and STS by the verdict.
pub fn put_status(buffer: &mut [u8], request: u8, verdict: Verdict) -> Option<usize>
    ensures { Framed Data (status_contents request verdict) buffer.old buffer.new result }
{
    let bytes = [verdict::status(verdict)];
    put_data(buffer, res(request, verdict), &bytes)
}
