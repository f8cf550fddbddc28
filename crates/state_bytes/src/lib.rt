// A state out of 33 bytes, and into them.
#![tactic(auto)]

ghost use Rattle.std.specs.Prelude.{[], ◌∷◌, ◌++◌, ◌≡◌};
ghost use Rattle.std.proofs.lemmas.List.Edits.{sets};
ghost use Rattle.std.proofs.Math.Seq.{paste};
ghost use Rattle.numbers.specs.Bytes.{bytes_of};
ghost use Rattle.packet_fields.specs.Fields.{bytes_from};
ghost use Rattle.state_bytes.specs.State.{stage_number, pulse_number, pulses_of, range_of, stage_bytes, stage_of, setting_in, stage_in, state_with, state_over};

use baud::LineSetting;
use state::{Pulse, Range, Stage, State};

// How many bytes a state has.
pub const STATE_LENGTH: usize = 33;

// Setting by its low pulses. No TryFrom, as below.
fn setting_in(pulses: u8) -> Option<Stage>
    ensures { result ≡ setting_in pulses }
{
    match pulses {
        0 => Some(Stage::Setting(Pulse::Zero)),
        1 => Some(Stage::Setting(Pulse::One)),
        2 => Some(Stage::Setting(Pulse::Acknowledged)),
        _ => None,
    }
}

// The stage of a number, where low pulses and range are 0 if it has none.
#[tactic(auto, unfolding(crate::specs::State::stage_of))]
fn stage_of(n: u8, pulses: u8, range: Range) -> Option<Stage>
    ensures { result ≡ stage_of n pulses range }
{
    match (n, pulses, range) {
        (0, _, Range { next: 0, left: 0 }) => setting_in(pulses),
        (1, 0, Range { next: 0, left: 0 }) => Some(Stage::Authentication),
        (2, 0, Range { next: 0, left: 0 }) => Some(Stage::Command),
        (3, 0, _) => Some(Stage::Writing(range)),
        (4, 0, _) => Some(Stage::Reading(range)),
        _ => None,
    }
}

// The stage in the bytes, if they are a state.
#[tactic(auto, unfolding(crate::specs::State::stage_in))]
pub fn stage_in(bytes: &[u8]) -> Option<Stage>
    ensures { result ≡ stage_in bytes.now }
{
    if bytes.len() != STATE_LENGTH {
        return None;
    }
    let range = Range {
        next: packet_fields::four_at(bytes, 2),
        left: packet_fields::four_at(bytes, 6),
    };
    stage_of(
        packet_fields::byte_at(bytes, 0),
        packet_fields::byte_at(bytes, 1),
        range,
    )
}

// The sixteen bytes of the ID, in one copy; 0 where they are not there.
fn id_in(bytes: &[u8]) -> [u8; 16]
    ensures { result ≡ bytes_from 16 10 bytes.now }
{
    let mut id = [0u8; 16];
    let from = bytes.len().min(10);
    let end = bytes.len().min(26);
    numbers::copy(&bytes[from..end], &mut id);
    id
}

// The state of a stage, with the rest out of the bytes.
#[tactic(auto, unfolding(crate::specs::State::state_with))]
pub fn state_in(bytes: &[u8], stage: Stage) -> State
    ensures { result ≡ state_with bytes.now stage }
{
    State {
        stage,
        id: id_in(bytes),
        line: LineSetting {
            abcs: packet_fields::byte_at(bytes, 26),
            brr: packet_fields::byte_at(bytes, 27),
            mddr: packet_fields::byte_at(bytes, 28),
        },
        held: packet_fields::four_at(bytes, 29) as usize,
    }
}

// The number of a stage, and of its low pulses. No From: Stage and Pulse are of crate state, and the check refuses an impl of std's
// trait for another crate's type (orphan-impl).
fn stage_number(stage: Stage) -> u8
    ensures { result ≡ stage_number stage }
{
    match stage {
        Stage::Setting(_) => 0,
        Stage::Authentication => 1,
        Stage::Command => 2,
        Stage::Writing(_) => 3,
        Stage::Reading(_) => 4,
    }
}

fn pulse_number(pulse: Pulse) -> u8
    ensures { result ≡ pulse_number pulse }
{
    match pulse {
        Pulse::Zero => 0,
        Pulse::One => 1,
        Pulse::Acknowledged => 2,
    }
}

fn pulses_of(stage: Stage) -> u8
    ensures { result ≡ pulses_of stage }
{
    match stage {
        Stage::Setting(pulse) => pulse_number(pulse),
        _ => 0,
    }
}

fn range_of(stage: Stage) -> Range
    ensures { result ≡ range_of stage }
{
    match stage {
        Stage::Writing(range) | Stage::Reading(range) => range,
        Stage::Setting(_) | Stage::Authentication | Stage::Command => Range { next: 0, left: 0 },
    }
}

// Stage, low pulses and range, in bytes 0 to 9.
fn put_stage(bytes: &mut [u8; STATE_LENGTH], stage: Stage)
    ensures { bytes.new ≡ sets bytes.old 0 (stage_bytes stage) }
{
    let range = range_of(stage);
    bytes[0] = stage_number(stage);
    bytes[1] = pulses_of(stage);
    numbers::write(bytes, 2, range.next);
    numbers::write(bytes, 6, range.left);
}

// The ID, in bytes 10 to 25, in one copy.
#[tactic(auto, using(crate::proofs::Put::id_put))]
fn put_id(bytes: &mut [u8; STATE_LENGTH], id: [u8; 16])
    ensures { bytes.new ≡ paste bytes.old 10 id 16 }
{
    numbers::copy(&id, &mut bytes[10..26]);
}

// Line and held count, in bytes 26 to 32.
fn put_line(bytes: &mut [u8; STATE_LENGTH], line: LineSetting, held: usize)
    ensures { bytes.new ≡ sets bytes.old 26 ((line.abcs ∷ line.brr ∷ line.mddr ∷ []) ++ bytes_of 4 held) }
{
    bytes[26] = line.abcs;
    bytes[27] = line.brr;
    bytes[28] = line.mddr;
    numbers::write(bytes, 29, (held % 4294967296) as u32);
}

// The state's bytes, in 33 bytes that are lent for it; in fewer or more nothing is written.
pub fn put_state(bytes: &mut [u8], state: State)
    ensures { bytes.new ≡ state_over state bytes.old }
{
    let Some(bytes) = bytes.as_mut_array::<STATE_LENGTH>() else {
        return;
    };
    put_stage(bytes, state.stage);
    put_id(bytes, state.id);
    put_line(bytes, state.line, state.held);
}
