// A recorded line, played on an image.
#![tactic(auto)]

ghost use Rattle.std.specs.Prelude.{◌≡◌, length};
ghost use Rattle.recording.specs.declared.Direction.TheVariants.{Device};
ghost use Rattle.recording.specs.declared.Found.TheVariants.{Is};
ghost use Rattle.recording.specs.Recording.{found_at};
ghost use Rattle.profile.specs.Areas.{areas_of};
ghost use Rattle.record_exchange.specs.Exchange.{CanMove};
ghost use Rattle.record_exchange.specs.Line.{exchange};
ghost use Rattle.record_replay.specs.Replay.{entry_replay};
ghost use Rattle.record_replay.specs.Post.{HeadIn, Advanced, Played};

use profile::Profile;
use record_exchange::read_exchange;
use recording::{Direction, Extent, Found, Part};

// How far a recording has been played.
#[derive(Clone, Copy)]
struct Head {
    at: usize,
    landing: Option<usize>,
    waiting: Option<Part>,
}

// An exchange: what it tells of is done on the image; where the next write data lands.
fn replay_exchange(
    image: &mut [u8],
    profile: Profile,
    landing: Option<usize>,
    request: &[u8],
    reply: &[u8],
) -> Option<usize>
    requires { CanMove landing (length request.now) }
    ensures { record { image = image.exit.now; landing = result } ≡ entry_replay (areas_of profile) (exchange request.now reply.now) (record { image = image.entry.now; landing = landing }) }
{
    let told = read_exchange(request, reply, landing);
    flash::perform(image, profile, told.act, packet_fields::info(request));
    told.landing
}

// What the device sent answers what waits.
fn answered(image: &mut [u8], profile: Profile, recording: &[u8], head: Head, part: Part) -> Head
    requires { HeadIn (length recording.now) head × (found_at recording.now head.at ≡ Is Device part) }
    ensures { Advanced profile recording.now image.old image.new head result }
{
    match head.waiting {
        None => Head {
            at: part.to,
            waiting: None,
            ..head
        },
        Some(request) => Head {
            at: part.to,
            landing: replay_exchange(
                image,
                profile,
                head.landing,
                &recording[request.from..request.to],
                &recording[part.from..part.to],
            ),
            waiting: None,
        },
    }
}

// One record.
fn advance(
    image: &mut [u8],
    profile: Profile,
    recording: &[u8],
    head: Head,
    direction: Direction,
    part: Part,
) -> Head
    requires { HeadIn (length recording.now) head × (found_at recording.now head.at ≡ Is direction part) }
    ensures { Advanced profile recording.now image.old image.new head result }
{
    match direction {
        Direction::Host => Head {
            at: part.to,
            waiting: Some(part),
            ..head
        },
        Direction::Device => answered(image, profile, recording, head, part),
        Direction::Reset => Head {
            at: part.to,
            waiting: None,
            ..head
        },
    }
}

// Plays a recording on an image, and says how many of its bytes were read, and why no more.
pub fn play(image: &mut [u8], profile: Profile, recording: &[u8]) -> Extent
    ensures { Played profile recording.now image.old image.new result }
{
    let mut head = Head {
        at: 0,
        landing: None,
        waiting: None,
    };
    // Stays a loop: a reader that keeps its place in a recording belongs to a later request.
    loop {
        let found = recording::record_at(recording, head.at);
        let Found::Is(direction, part) = found else {
            return Extent {
                count: head.at,
                ended: recording::ended_by(found),
            };
        };
        head = advance(image, profile, recording, head, direction, part);
    }
}
