// The checks of a packet in a write and in a read, in the paper's order.
#![tactic(auto)]

ghost use Rattle.std.specs.Prelude.{not, [], ◌∷◌, ◌≡◌, ◌+◌, ◌≤◌};
ghost use Rattle.verdict.specs.Check.{◌gives◌, first_fault, verdict_of};
ghost use Rattle.verdict.specs.declared.Reason.TheVariants.{NotNextRequest};
ghost use Rattle.profile.specs.Areas.{areas_of};
ghost use Rattle.check_transfer.specs.Transfer.{amount_checks, unit_before, units_checks, target_checks, write_checks, asks_next, next_checks};

use packet_fields::{READ, WRITE, byte_at, info_count};
use profile::Profile;
use state::Range;
use verdict::{Reason, Verdict};

// RES and the amount.
#[tactic(auto, unfolding(verdict::specs::Check::first_fault, crate::specs::Transfer::amount_checks))]
fn check_amount(left: u32, packet: &[u8]) -> Verdict
    ensures { result ≡ verdict_of (first_fault (amount_checks left packet.now)) }
{
    let count = info_count(packet);
    if byte_at(packet, 3) != WRITE {
        return Err(Reason::NotWriteData);
    }
    if count == 0 {
        return Err(Reason::NoData);
    }
    if (left as usize) < count {
        return Err(Reason::TooMuchData);
    }
    Ok(())
}

// The units of a target that ends before `next + count`: whole ones, and all blank.
#[tactic(auto, using(crate::proofs::TransferLaws::no_unit, crate::proofs::TransferLaws::broken_unit, crate::proofs::TransferLaws::blank_target, crate::proofs::TransferLaws::dirty_target))]
fn check_units(profile: Profile, image: &[u8], next: u32, count: usize) -> Verdict
    requires { (1 ≤ count) × (count ≤ 4294967295) }
    ensures { result ≡ verdict_of (first_fault (units_checks (areas_of profile) image.now next count (unit_before (areas_of profile) (next + count)))) }
{
    let behind = next as usize + count;
    let unit = profile::unit_at(profile, behind - 1) as usize;
    if unit == 0 || behind % unit != 0 {
        return Err(Reason::BrokenUnit);
    }
    match flash_blank::first_dirty(flash::fetch(image, profile, next, count), unit) {
        None => Ok(()),
        Some(_) => Err(Reason::DirtyFlash),
    }
}

#[tactic(auto, using(crate::proofs::TransferLaws::target_granted))]
fn check_target(profile: Profile, image: &[u8], range: Range, packet: &[u8]) -> Verdict
    ensures { result ≡ verdict_of (first_fault (target_checks (areas_of profile) image.now range packet.now)) }
{
    check_amount(range.left, packet)?;
    check_units(profile, image, range.next, info_count(packet))
}

// What a complete packet in a write is answered.
#[tactic(auto, using(verdict::proofs::FirstFault::granted_then), unfolding(crate::specs::Transfer::write_checks))]
pub fn check_write(profile: Profile, image: &[u8], range: Range, packet: &[u8]) -> Verdict
    ensures { result ≡ verdict_of (first_fault (write_checks (areas_of profile) image.now range packet.now)) }
{
    packet::check_ending(packet)?;
    check_target(profile, image, range, packet)
}

// Whether the packet is the request for a read's next packet: RES 15h and one byte, 00h.
#[tactic(auto, unfolding(crate::specs::Transfer::asks_next))]
fn asks_next(packet: &[u8]) -> bool
    ensures { result ≡ asks_next packet.now }
{
    byte_at(packet, 3) == READ && info_count(packet) == 1 && byte_at(packet, 4) == 0x00
}

#[tactic(auto, unfolding(verdict::specs::Check::first_fault))]
fn check_request(packet: &[u8]) -> Verdict
    ensures { result ≡ verdict_of (first_fault ((not (asks_next packet.now) gives NotNextRequest) ∷ [])) }
{
    if !asks_next(packet) {
        return Err(Reason::NotNextRequest);
    }
    Ok(())
}

// What a complete packet in a read is answered.
#[tactic(auto, using(verdict::proofs::FirstFault::granted_then), unfolding(crate::specs::Transfer::next_checks))]
pub fn check_next(packet: &[u8]) -> Verdict
    ensures { result ≡ verdict_of (first_fault (next_checks packet.now)) }
{
    packet::check_ending(packet)?;
    check_request(packet)
}
