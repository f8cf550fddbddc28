// Prints the line setting of the known baud rates, and whether each is refused.
#![tactic(auto)]

use baud::LineSetting;
use show_common::Byte;
use std::{fmt, io};
use verdict::Verdict;

// Rates under SCI and RMB.
#[derive(Clone, Copy)]
struct Table {
    sci: u32,
    rmb: u32,
    rates: &'static [u32],
}

const TABLES: [Table; 8] = [
    // Source 001: tables 23 and 24.
    Table {
        sci: 60000000,
        rmb: 4000000,
        rates: &[9600, 1000000, 1500000, 2000000, 3000000, 3500000, 3750000],
    },
    Table {
        sci: 24000000,
        rmb: 4000000,
        rates: &[9600, 1000000, 1500000, 2000000],
    },
    // Source 003: its rows for two clocks.
    Table {
        sci: 100000000,
        rmb: 6000000,
        rates: &[
            9600, 115200, 500000, 1000000, 1500000, 2000000, 4000000, 6000000,
        ],
    },
    Table {
        sci: 60000000,
        rmb: 4000000,
        rates: &[9600, 115200, 500000, 1000000, 1500000, 2000000],
    },
    // Rate 0, and rates on both sides of each limit: of M, of ABCS and of 4 %.
    Table {
        sci: 60000000,
        rmb: 4000000,
        rates: &[
            0, 3500, 3521, 3522, 3600, 1874999, 1875000, 1875001, 3906250, 3906251, 4000000,
        ],
    },
    // Rates at which M would differ if it were rounded more than once.
    Table {
        sci: 60000000,
        rmb: 4000000,
        rates: &[4034, 4177, 4549],
    },
    // RMB itself, and one below it.
    Table {
        sci: 60000000,
        rmb: 9600,
        rates: &[9600],
    },
    Table {
        sci: 60000000,
        rmb: 9599,
        rates: &[9600],
    },
];

// Other clocks, for the rate after a reset.
const CLOCKS: [u32; 7] = [1, 307199, 307200, 307201, 20000000, 24000000, 4294967295];

// ABCS, BRR and MDDR; dashes where MDDR is unused, and for BRT 0, which has no setting.
#[derive(Clone, Copy)]
struct Setting(Option<LineSetting>);

impl fmt::Display for Setting {
    fn fmt<W: fmt::Write>(&self, f: &mut fmt::Formatter<W>) -> fmt::Result {
        match self.0 {
            None => write!(f, "-- -- --"),
            Some(line) if line.mddr == 0 => write!(f, "{} {} --", line.abcs, Byte(line.brr)),
            Some(line) => write!(f, "{} {} {}", line.abcs, Byte(line.brr), Byte(line.mddr)),
        }
    }
}

// What a check of the rate answers.
#[derive(Clone, Copy)]
struct Answer(Verdict);

impl fmt::Display for Answer {
    fn fmt<W: fmt::Write>(&self, f: &mut fmt::Formatter<W>) -> fmt::Result {
        match self.0 {
            Ok(()) => write!(f, "OK"),
            Err(reason) => write!(f, "{}", Byte(u8::from(reason))),
        }
    }
}

// One line.
fn show(rt: &impl Print, sci: u32, rmb: u32, brt: u32) -> io::Result<()> {
    let setting = Setting((brt != 0).then(|| baud::setting(sci, brt)));
    let answer = Answer(baud::check_rate(sci, rmb, brt));
    println!(rt; "{sci} {brt} {setting} {rmb} {answer}")
}

fn main(rt: HostRuntime) -> io::Result<()> {
    println!(rt; "SCI BRT ABCS BRR MDDR RMB answer")?;
    for table in TABLES {
        for rate in table.rates {
            show(&rt, table.sci, table.rmb, *rate)?;
        }
    }
    for sci in CLOCKS {
        show(&rt, sci, 4000000, 9600)?;
    }
    Ok(())
}
