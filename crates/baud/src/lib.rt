// The line setting of a baud rate, and when a rate is refused.
#![tactic(auto)]

ghost use Rattle.std.specs.Prelude.{◌≡◌, ◌+◌, ◌*◌, ◌/◌, ◌≤◌, ◌<◌};
ghost use Rattle.verdict.specs.Check.{first_fault, verdict_of};
ghost use Rattle.baud.specs.Rate.{Clocked, Limited, setting_of, apart_of, rate_off, rate_checks};

use verdict::{Reason, Verdict};

// MDDR 0: unused.
#[derive(Clone, Copy)]
pub struct LineSetting {
    pub abcs: u8,
    pub brr: u8,
    pub mddr: u8,
}

// ABCS, and the divisors D and BRR + 1 that it goes with.
#[derive(Clone, Copy)]
struct Clocking {
    abcs: u8,
    d: u64,
    brr: u64,
}

// M as it counts in the exact rate, and MDDR, by which it is set.
#[derive(Clone, Copy)]
struct Modulation {
    counts: u64,
    mddr: u8,
}

// The whole-number quotient; 0 where there is nothing to divide by.
fn quotient(n: u64, d: u64) -> u64
    ensures { (result ≡ n / d) × (result ≤ n) }
{
    n.checked_div(d).unwrap_or(0)
}

// ABCS 1 where SCI is below 32 x BRT; else BRR + 1 is their quotient, at least 1 and at most 256.
#[tactic(auto, unfolding(crate::specs::Rate::clocking_of))]
fn clock(sci: u32, brt: u32) -> Clocking
    ensures { Clocked sci brt result }
{
    let steps = 32 * (brt as u64);
    if (sci as u64) < steps {
        Clocking {
            abcs: 1,
            d: 16,
            brr: 0,
        }
    } else {
        Clocking {
            abcs: 0,
            d: 32,
            brr: quotient(sci as u64, steps).saturating_sub(1).min(255),
        }
    }
}

// 256 x D x (BRR + 1), by which SCI x M is divided to give the exact rate.
fn divisor(c: Clocking) -> u64
    requires { (c.d ≤ 32) × (c.brr ≤ 255) }
    ensures { (result ≡ 256 * c.d * (c.brr + 1)) × (result ≤ 2097152) }
{
    256 * c.d * (c.brr + 1)
}

// M before its limits.
fn rough(sci: u32, brt: u32, over: u64) -> u64
    requires { over ≤ 2097152 }
    ensures { result ≡ brt * over / sci }
{
    quotient(brt as u64 * over, sci as u64)
}

// M within its limits: 256, and MDDR 0, where MDDR is unused. No `max`: with `m.max(128)` in both fields the program that LLVM made let 4,000,000 baud of
// 60 MHz pass, which show_baud saw.
#[tactic(auto, unfolding(crate::specs::Rate::counted_m, crate::specs::Rate::held_m))]
fn limit(m: u64) -> Modulation
    ensures { Limited m result }
{
    if 255 < m {
        return Modulation {
            counts: 256,
            mddr: 0,
        };
    }
    if m < 128 {
        return Modulation {
            counts: 128,
            mddr: 128,
        };
    }
    Modulation {
        counts: m,
        mddr: m as u8,
    }
}

// The setting of a rate, without any check.
pub fn setting(sci: u32, brt: u32) -> LineSetting
    ensures { result ≡ setting_of sci brt }
{
    let c = clock(sci, brt);
    let m = limit(rough(sci, brt, divisor(c)));
    LineSetting {
        abcs: c.abcs,
        brr: c.brr as u8,
        mddr: m.mddr,
    }
}

// How far two numbers lie apart.
fn apart(a: u64, b: u64) -> u64
    ensures { (result ≡ apart_of a b) × (result ≤ a + b) }
{
    a.abs_diff(b)
}

// Whether the exact rate differs from BRT by more than 4 % of BRT.
fn off(sci: u32, brt: u32) -> bool
    ensures { result ≡ rate_off sci brt }
{
    let over = divisor(clock(sci, brt));
    let m = limit(rough(sci, brt, over));
    let wanted = brt as u64 * over;
    let given = sci as u64 * m.counts;
    4 * wanted < 100 * apart(given, wanted)
}

// Whether a rate is refused: D4h.
#[tactic(auto, unfolding(crate::specs::Rate::rate_checks, verdict::specs::Check::first_fault))]
pub fn check_rate(sci: u32, rmb: u32, brt: u32) -> Verdict
    ensures { result ≡ verdict_of (first_fault (rate_checks sci rmb brt)) }
{
    if brt == 0 {
        return Err(Reason::RateZero);
    }
    if rmb < brt {
        return Err(Reason::RateAboveLimit);
    }
    if off(sci, brt) {
        return Err(Reason::RateOff);
    }
    Ok(())
}
