// The packets of a write and of a read that is under way.
#![tactic(auto)]

ghost use Rattle.std.specs.Prelude.{◌≡◌, ◌+◌, ◌≤◌, ◌<◌, min};
ghost use Rattle.packet.specs.Frame.{longest_data, Roomy};
ghost use Rattle.packet_fields.specs.Fields.{info_count};
ghost use Rattle.answer.specs.Answer.{Answers};
ghost use Rattle.answer_transfer.specs.Transfers.{rest_of, read_packet, write_decided, answer_write, answer_next};

use answer::{Answered, in_stage, send, tell};
use flash::Act;
use packet::LONGEST_DATA;
use packet_fields::{READ, WRITE};
use profile::Profile;
use state::{Range, Stage, State};
use verdict::Verdict;

// What is left of a range after n bytes, where it goes on. That it ends within 32 bits stays a clause: `Range` holds any numbers, since a state's bytes
// from C may (`stage_in`), and `fits` judges them.
fn rest(range: Range, n: u32) -> Range
    requires { (n < range.left) × (range.next + range.left ≤ 4294967296) }
    ensures { result ≡ rest_of range n }
{
    Range {
        next: range.next + n,
        left: range.left - n,
    }
}

// How many bytes the next packet of a read has: 1,024, or all that are left.
fn packet_size(left: u32) -> u32
    ensures { (result ≡ min left longest_data) × (result ≤ longest_data) × (result ≤ left) }
{
    left.min(LONGEST_DATA as u32)
}

// The next packet of a read.
#[tactic(auto, using(crate::proofs::Reading::packet_fits))]
pub fn read_packet(
    profile: Profile,
    image: &[u8],
    state: State,
    range: Range,
    reply: &mut [u8],
) -> Answered
    requires { (range.next + range.left ≤ 4294967296) × Roomy reply.old }
    ensures { Answers (read_packet profile image.now state range) result reply.old reply.new }
{
    let n = packet_size(range.left);
    let bytes = flash::fetch(image, profile, range.next, n as usize);
    let stage = if range.left == n {
        Stage::Command
    } else {
        Stage::Reading(rest(range, n))
    };
    send(reply, in_stage(state, stage), READ, bytes)
}

// Write data that was granted: it is to be stored, and the write goes on or is over.
fn accept_data(state: State, range: Range, packet: &[u8], reply: &mut [u8]) -> Answered
    requires { (info_count packet.now ≤ range.left) × (range.next + range.left ≤ 4294967296) × Roomy reply.old }
    ensures { Answers (write_decided state range packet.now (Ok tt)) result reply.old reply.new }
{
    let count = packet_fields::info_count(packet);
    let n = count as u32;
    let act = Act::Store(range.next as usize, count);
    let stage = if range.left == n {
        Stage::Command
    } else {
        Stage::Writing(rest(range, n))
    };
    tell(reply, act, in_stage(state, stage), WRITE, Ok(()))
}

// What a complete packet in a write is answered.
pub fn answer_write(
    profile: Profile,
    image: &[u8],
    state: State,
    range: Range,
    packet: &[u8],
    reply: &mut [u8],
) -> Answered
    requires { (range.next + range.left ≤ 4294967296) × Roomy reply.old }
    ensures { Answers (answer_write profile image.now state range packet.now) result reply.old reply.new }
{
    match check_transfer::check_write(profile, image, range, packet) {
        Err(reason) => tell(
            reply,
            Act::Nothing,
            in_stage(state, Stage::Command),
            WRITE,
            Err(reason),
        ),
        Ok(()) => accept_data(state, range, packet, reply),
    }
}

// What a complete packet in a read is answered.
pub fn answer_next(
    profile: Profile,
    image: &[u8],
    state: State,
    range: Range,
    packet: &[u8],
    reply: &mut [u8],
) -> Answered
    requires { (range.next + range.left ≤ 4294967296) × Roomy reply.old }
    ensures { Answers (answer_next profile image.now state range packet.now) result reply.old reply.new }
{
    match check_transfer::check_next(packet) {
        Err(reason) => tell(
            reply,
            Act::Nothing,
            in_stage(state, Stage::Command),
            READ,
            Err(reason),
        ),
        Ok(()) => read_packet(profile, image, state, range, reply),
    }
}
