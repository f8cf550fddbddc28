// Sessions with every effect on the flash, on the bench profile. Each is run twice: once by the driver, and once call by call, to take
// down what the host and the device sent. The recording is then replayed on a blank image, and the two images are compared.
#![tactic(auto)]

mod scripts;

use recording::{Direction, Ended, Extent, Found};
use scripts::{AFTER, BEFORE, PACKET, SESSIONS, Session};
use show_common::bench_profile;
use state::State;
use std::io;

// A blank image of the bench profile.
const BLANK: [u8; 65792] = [0xFF; 65792];

// Bytes behind others in a buffer; none if there is no room.
fn append(buffer: &mut [u8], at: usize, bytes: &[u8]) -> usize {
    let n = bytes.len();
    if buffer.len() < at || buffer.len() - at < n {
        return at;
    }
    let end = at + n;
    buffer[at..end].copy_from_slice(bytes);
    end
}

// A recording that grows, in fixed memory and not in a Vec: with the heap three functions more would be assumed (docs/ASSUMED.md).
#[derive(Drop)]
struct Tape {
    bytes: [u8; 8192],
    length: usize,
}

impl Tape {
    fn new() -> Tape {
        Tape {
            bytes: [0; 8192],
            length: 0,
        }
    }

    fn clear(&mut self) {
        self.length = 0;
    }

    fn add(&mut self, bytes: &[u8]) {
        self.length = append(&mut self.bytes, self.length, bytes);
    }

    // A record: mark, direction, length, bytes. By hand and not by `record_writer`: a fault of its would hide one of the reader's.
    fn note(&mut self, direction: u8, bytes: &[u8]) {
        let [.., high, low] = bytes.len().to_be_bytes();
        self.add(&[0x52, 0x4C, direction, high, low]);
        self.add(bytes);
    }

    fn written(&self) -> &[u8] {
        self.bytes.get(..self.length).unwrap_or(&[])
    }
}

// A device on the bench profile, and the line that it is on, taken down.
#[derive(Drop)]
struct Recorder {
    image: [u8; 65792],
    receive: [u8; 1030],
    reply: [u8; 1030],
    state: State,
    tape: Tape,
}

impl Recorder {
    // One for all scripts: it is large, and moving it costs more than a script.
    fn new() -> Recorder {
        Recorder {
            image: BLANK,
            receive: [0; 1030],
            reply: [0; 1030],
            state: state::zero(),
            tape: Tape::new(),
        }
    }

    // A blank device that was switched on, and no record yet.
    fn start(&mut self) {
        self.image.fill(0xFF);
        let begun = device::start(bench_profile(), &self.image);
        self.state = begun.state;
        self.tape.clear();
    }

    // A delivery, with its reply if there is one.
    fn deliver(&mut self, bytes: &[u8]) {
        let fed = device::feed(
            bench_profile(),
            &mut self.image,
            self.state,
            &mut self.receive,
            &mut self.reply,
            bytes,
        );
        self.state = fed.state;
        self.tape.note(0x48, bytes);
        if let Some(reply @ [_, ..]) = self.reply.get(..fed.count) {
            self.tape.note(0x44, reply);
        }
    }

    fn reset(&mut self) {
        let begun = device::reset(bench_profile(), &self.image, self.state);
        self.state = begun.state;
        self.tape.note(0x52, b"");
    }
}

// A script call by call, of which only the deliveries and the resets are calls; the recording is the recorder's tape.
#[tactic(auto, using(recording::proofs::Reading::found_lies))]
fn take_down(recorder: &mut Recorder, script: &[u8]) {
    recorder.start();
    let mut at = 0;
    while let Found::Is(direction, part) = recording::record_at(script, at) {
        match direction {
            Direction::Host => recorder.deliver(&script[part.from..part.to]),
            Direction::Device => {}
            Direction::Reset => recorder.reset(),
        }
        at = part.to;
    }
}

// What became of a script.
#[derive(Clone, Copy)]
struct Outcome {
    // whether the image that was driven is the image that was replayed
    same: bool,
    // how many of its bytes are not FFh
    used: usize,
}

// Whether all of so many bytes was read.
fn is_whole(read: Extent, count: usize) -> bool {
    matches!(read.ended, Ended::Whole) && read.count == count
}

// A script driven on an image; whether all of it was read.
fn drives(image: &mut [u8], script: &[u8]) -> bool {
    let mut receive = [0; 1030];
    let mut reply = [0; 1030];
    let driven = record_driver::drive(bench_profile(), image, &mut receive, &mut reply, script);
    device::is_accepted(driven.refusal) && is_whole(driven.read, script.len())
}

// A recording replayed on a blank image; whether all of it was read, and the image came out.
fn replays(recording: &[u8], image: &[u8]) -> bool {
    let mut replayed = BLANK;
    let read = record_replay::play(&mut replayed, bench_profile(), recording);
    is_whole(read, recording.len()) && image == &replayed[..]
}

// A script on a blank image, driven, taken down and replayed.
fn outcome_of(recorder: &mut Recorder, script: &[u8]) -> Outcome {
    let mut image = BLANK;
    let driven = drives(&mut image, script);
    take_down(recorder, script);
    Outcome {
        same: driven && replays(recorder.tape.written(), &image),
        used: image.iter().filter(|byte| **byte != 0xFF).count(),
    }
}

fn show(rt: &impl Print, recorder: &mut Recorder, session: Session) -> io::Result<()> {
    let outcome = outcome_of(recorder, session.script);
    println!(rt; "{}", session.title)?;
    if outcome.same {
        println!(rt; "  the image is the replay of the record")?;
    } else {
        println!(rt; "  the image is NOT the replay of the record")?;
    }
    println!(rt; "  bytes other than FFh: {}", outcome.used)
}

// The script of a write whose packet is cut: what came of it stands between what is before it and a reset.
fn cut_script(came: &[u8]) -> Tape {
    let mut script = Tape::new();
    script.add(BEFORE);
    // A record has a byte at least.
    if !came.is_empty() {
        script.note(0x48, came);
    }
    script.add(AFTER);
    script
}

// How many cuts the packet has: before its first byte, and behind each.
const CUTS: usize = 135;

const _: () = prove!(CUTS == PACKET.len() + 1);

// A reset behind each byte of the packet in turn, none at first and all of it at last.
fn cuts(recorder: &mut Recorder) -> [Outcome; CUTS] {
    let mut outcomes = [Outcome {
        same: false,
        used: 0,
    }; CUTS];
    for (n, outcome) in outcomes.iter_mut().enumerate() {
        let came = PACKET.get(..n).unwrap_or(b"");
        *outcome = outcome_of(recorder, cut_script(came).written());
    }
    outcomes
}

fn show_cuts(rt: &impl Print, recorder: &mut Recorder) -> io::Result<()> {
    let outcomes = cuts(recorder);
    let same = outcomes.iter().filter(|outcome| outcome.same).count();
    let blank = outcomes.iter().filter(|outcome| outcome.used == 0).count();
    let last = outcomes.last().map_or(0, |outcome| outcome.used);
    println!(rt; "a reset behind each byte of a write packet")?;
    println!(rt; "  cuts: {}", outcomes.len())?;
    println!(rt; "  the image is the replay of the record in: {same}")?;
    println!(rt; "  the flash stays blank in: {blank}")?;
    println!(rt; "  bytes other than FFh after the last: {last}")
}

fn main(rt: HostRuntime) -> io::Result<()> {
    let mut recorder = Recorder::new();
    for session in SESSIONS {
        show(&rt, &mut recorder, session)?;
    }
    show_cuts(&rt, &mut recorder)
}
