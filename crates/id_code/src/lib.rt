// The ID code: where it is stored, and what a code that is sent to the device is answered.
#![tactic(auto)]

ghost use Rattle.std.specs.Prelude.{◌++◌, ◌≡◌, ◌≤◌, take, drop};
ghost use Rattle.verdict.specs.Check.{first_fault, verdict_of};
ghost use Rattle.profile.specs.Areas.{areas_of};
ghost use Rattle.id_code.specs.Identity.{Configured, no_id, id_of, is_none, erase_code, total_erase, id_checks};
ghost use Rattle.numbers.specs.Same.{same};

use profile::{Profile, Spot};
use verdict::{Reason, Verdict};

// 41 4C 65 52 41 53 45 and nine FFh.
const ERASE_CODE: [u8; 16] = [
    0x41, 0x4C, 0x65, 0x52, 0x41, 0x53, 0x45, 0xFF, 0xFF, 0xFF, 0xFF, 0xFF, 0xFF, 0xFF, 0xFF, 0xFF,
];

// The first config area in use.
fn config_area(profile: &Profile) -> Option<Spot>
    ensures { Configured (areas_of profile.now) result }
{
    profile::first_where(profile, |area| area.koa == 2)
}

// Sixteen bytes of the image from a place on, in one copy; FFh where it has none.
fn sixteen(image: &[u8], base: usize) -> [u8; 16]
    requires { base ≤ 34359738368 }
    ensures { result ≡ take 16 (drop base image.now ++ no_id) }
{
    let mut id = [0xFF; 16];
    let from = base.min(image.len());
    let end = (base + 16).min(image.len());
    numbers::copy(&image[from..end], &mut id);
    id
}

// The ID code: the first sixteen config bytes.
#[tactic(auto, unfolding(crate::specs::Identity::id_of, crate::specs::Identity::id_at))]
pub fn stored_id(image: &[u8], profile: Profile) -> [u8; 16]
    ensures { result ≡ id_of (areas_of profile) image.now }
{
    match config_area(&profile) {
        None => [0xFF; 16],
        Some(spot) => sixteen(image, spot.base),
    }
}

// Whether no ID is stored: sixteen FFh.
#[tactic(auto, unfolding(crate::specs::Identity::is_none))]
pub fn is_none(id: [u8; 16]) -> bool
    ensures { result ≡ is_none id }
{
    numbers::equal(&id, &[0xFF; 16])
}

// Whether this is the total-erase code.
pub fn is_erase_code(code: &[u8]) -> bool
    ensures { result ≡ same code.now erase_code }
{
    numbers::equal(code, &ERASE_CODE)
}

// Whether the code erases everything: it is the total-erase code, and the latched bit 126 permits it.
#[tactic(auto, unfolding(crate::specs::Identity::total_erase, crate::specs::Identity::bit126))]
pub fn is_total_erase(id: [u8; 16], code: &[u8]) -> bool
    ensures { result ≡ total_erase id code.now }
{
    is_erase_code(code) && id[0] % 128 >= 64
}

// Whether the latched ID lets the code in: DCh, DBh.
#[tactic(auto, unfolding(verdict::specs::Check::first_fault, crate::specs::Identity::id_checks, crate::specs::Identity::bit127))]
pub fn check_id(id: [u8; 16], code: &[u8]) -> Verdict
    ensures { result ≡ verdict_of (first_fault (id_checks id code.now)) }
{
    if id[0] < 128 {
        Err(Reason::Locked)
    } else if is_total_erase(id, code) || numbers::equal(code, &id) {
        Ok(())
    } else {
        Err(Reason::OtherId)
    }
}
