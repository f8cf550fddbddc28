// Sessions with the device on the bench profile: what is sent stands in `sessions`, and each reply is printed.
#![tactic(auto)]

mod sessions;

use device::Refusal;
use sessions::{Line, SESSIONS, Session};
use show_common::{Excerpt, bench_profile};
use state::State;
use std::io;

// A device on the bench profile, with its memory; what it answers is printed.
#[derive(Drop)]
struct Bench {
    image: [u8; 65792],
    receive: [u8; 1030],
    reply: [u8; 1030],
    state: State,
}

// A line for a call that was refused.
fn print_refusal(rt: &impl Print, refusal: Refusal) -> io::Result<()> {
    match device::number(refusal) {
        0 => Ok(()),
        number => println!(rt; "  refused {number}"),
    }
}

impl Bench {
    // Erased, and switched on.
    fn start(&mut self, rt: &impl Print) -> io::Result<()> {
        flash::erase_all(&mut self.image);
        let begun = device::start(bench_profile(), &self.image);
        self.state = begun.state;
        print_refusal(rt, begun.refusal)
    }

    fn reset(&mut self, rt: &impl Print) -> io::Result<()> {
        println!(rt; "reset")?;
        let again = device::reset(bench_profile(), &self.image, self.state);
        self.state = again.state;
        print_refusal(rt, again.refusal)
    }

    // Sends bytes, again and again what a reply left unread, and prints each reply. No delivery below has more than four replies, and a device
    // that takes its bytes one by one leaves some; a turn that has nothing to send changes nothing.
    fn send(&mut self, rt: &impl Print, title: &str, bytes: &[u8]) -> io::Result<()> {
        println!(rt; "{title}")?;
        let mut unread = bytes;
        let mut silent = true;
        for _ in 0..4 {
            let fed = device::feed(
                bench_profile(),
                &mut self.image,
                self.state,
                &mut self.receive,
                &mut self.reply,
                unread,
            );
            self.state = fed.state;
            print_refusal(rt, fed.refusal)?;
            if let Some(reply @ [_, ..]) = self.reply.get(..fed.count) {
                println!(rt; "  {}", Excerpt(reply))?;
                silent = false;
            }
            unread = unread.get(fed.consumed..).unwrap_or(b"");
        }
        if !unread.is_empty() {
            println!(rt; "  (bytes left unread)")?;
        }
        if silent {
            println!(rt; "  (no reply)")?;
        }
        Ok(())
    }
}

// One session on a blank image.
fn play(rt: &impl Print, bench: &mut Bench, session: Session) -> io::Result<()> {
    println!(rt; "{}", session.title)?;
    bench.start(rt)?;
    for line in session.lines {
        match *line {
            Line::Reset => bench.reset(rt)?,
            Line::Send(title, bytes) => bench.send(rt, title, bytes)?,
        }
    }
    Ok(())
}

fn main(rt: HostRuntime) -> io::Result<()> {
    // One for all sessions: it is large, and moving it costs more than a session.
    let mut bench = Bench {
        image: [0; 65792],
        receive: [0; 1030],
        reply: [0; 1030],
        state: state::zero(),
    };
    for session in SESSIONS {
        play(&rt, &mut bench, session)?;
    }
    Ok(())
}
