// Acts on the image that a caller lends: each byte goes where its address lies, and no other byte changes.
#![tactic(auto)]

ghost use Rattle.std.specs.Prelude.{ℕ, ◌≡◌, ◌+◌, ◌-◌, ◌≤◌, min, length, replicate};
ghost use Rattle.numbers.specs.Part.{PartAt};
ghost use Rattle.profile.specs.Areas.{areas_of};
ghost use Rattle.flash.specs.Effects.{Effect, changed, erased, stored, blanked, fetched, fetched_at, fetch_start, fetch_start_at};
ghost use Rattle.flash.specs.Acts.{performed};
ghost use Rattle.flash.specs.Meets.{bytes_below, Meets, Only, Does};

use profile::{Area, Profile, Spot};
use std::ops::Range;

// What an answer does to the flash.
#[derive(Clone, Copy)]
pub enum Act {
    Nothing,
    // SAD to EAD, both inclusive, becomes FFh
    EraseRange(u32, u32),
    // every byte becomes FFh
    EraseAll,
    // so many of the packet's data bytes go to the addresses from this one on
    Store(usize, usize),
}

// Total erase.
#[tactic(auto, unfolding(crate::specs::Effects::blanked))]
pub fn erase_all(image: &mut [u8])
    ensures { image.new ≡ blanked image.old }
{
    image.fill(0xFF);
}

// Where the bytes of the area below an address end, in an image of `size` bytes; `base` is the place of the area's first byte.
#[tactic(auto, unfolding(crate::specs::Meets::bytes_below))]
fn border(area: Area, base: usize, size: usize, address: usize) -> usize
    requires { base ≤ 34359738368 }
    ensures { result ≡ min (base + bytes_below area address) size }
{
    let below = address.min(area.ead as usize + 1);
    (base + below.saturating_sub(area.sad as usize)).min(size)
}

// The part that holds the addresses from `first` up to, not including, `behind`, of those that the area has.
fn overlap(area: Area, base: usize, size: usize, first: usize, behind: usize) -> Range<usize>
    requires { base ≤ 34359738368 }
    ensures { Meets area base size first behind result.start result.end }
{
    let to = border(area, base, size, behind);
    let from = border(area, base, size, first).min(to);
    from..to
}

// Hands out the parts of the image that hold the addresses from `first` up to, not including, `behind`, each with the address of its first byte.
fn each_part<F: Fn(&mut [u8], usize)>(
    image: &mut [u8],
    profile: &Profile,
    first: usize,
    behind: usize,
    write: F,
)
    requires { (part : _) (at : ℕ) → first ≤ at → at + length part.now ≤ behind → F.pre write part at }
    ensures { (f : Effect) → Only f first behind → Does (λ part at after. F.post write part at tt after) f first behind → image.new ≡ changed f (areas_of profile.now) image.old }
{
    let mut base = 0;
    for area in profile::areas_in_use(profile) {
        let part = overlap(*area, base, image.len(), first, behind);
        if part.start < part.end {
            let at = area.sad as usize + (part.start - base);
            write(&mut image[part], at);
        }
        base += profile::size(*area);
    }
}

// The addresses SAD to EAD, both inclusive, become FFh.
pub fn erase(image: &mut [u8], profile: Profile, sad: u32, ead: u32)
    ensures { image.new ≡ erased (areas_of profile) sad ead image.old }
{
    let behind = ead as usize + 1;
    each_part(
        image,
        &profile,
        sad as usize,
        behind,
        |part, _| part.fill(0xFF),
    );
}

// A part becomes as many other bytes.
#[tactic(auto, using(numbers::proofs::Copied::copied))]
fn overwrite(part: &mut [u8], bytes: &[u8])
    requires { length part.old ≡ length bytes.now }
    ensures { part.new ≡ bytes.now }
{
    numbers::copy(bytes, part);
}

// The bytes go to the addresses from `address` on.
pub fn store(image: &mut [u8], profile: Profile, address: u32, bytes: &[u8])
    ensures { image.new ≡ stored (areas_of profile) address bytes.now image.old }
{
    let start = address as usize;
    let end = start + bytes.len();
    each_part(image, &profile, start, end, |part, at| {
        let from = at - start;
        overwrite(part, &bytes[from..from + part.len()]);
    });
}

// Up to `count` bytes from an address of a spot's area on, as far as the image goes.
fn fetch_at(image: &[u8], spot: Spot, address: u32, count: usize) -> &[u8]
    requires { (spot.area.sad ≤ address) × (address ≤ spot.area.ead) × (spot.base ≤ 34359738368) }
    ensures { PartAt image.entry (fetch_start_at (Some spot) address image.now) (fetched_at (Some spot) address count image.now) result }
{
    let area = spot.area;
    let offset = (address - area.sad) as usize;
    let from = (spot.base + offset).min(image.len());
    let to = from + count.min(image.len() - from);
    &image[from..to]
}

// Performs an act; `bytes` are the data bytes of the packet that was answered. No area has an address from 2^32 on.
pub fn perform(image: &mut [u8], profile: Profile, act: Act, bytes: &[u8])
    ensures { image.new ≡ performed (areas_of profile) act bytes.now image.old }
{
    match act {
        Act::Nothing => {}
        Act::EraseRange(sad, ead) => erase(image, profile, sad, ead),
        Act::EraseAll => erase_all(image),
        Act::Store(address, count) => {
            if let Ok(address) = u32::try_from(address) {
                store(image, profile, address, &bytes[..count.min(bytes.len())]);
            }
        }
    }
}

// Up to `count` bytes from an address on, as far as the image goes: a part of it.
pub fn fetch(image: &[u8], profile: Profile, address: u32, count: usize) -> &[u8]
    ensures { PartAt image.entry (fetch_start (areas_of profile) address image.now) (fetched (areas_of profile) address count image.now) result }
{
    match profile::locate(profile, address) {
        None => &image[..0],
        Some(spot) => fetch_at(image, spot, address, count),
    }
}
