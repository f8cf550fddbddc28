// A profile out of 156 bytes.
#![tactic(auto)]

ghost use Rattle.std.specs.Prelude.{◌≡◌, length};
ghost use Rattle.packet_fields.specs.Fields.{two_at};
ghost use Rattle.profile_bytes.specs.Profile.{profile_length, area_at, areas_from, fields_in, no_profile, profile_in};

use profile::{Area, Profile, Window};

// How many bytes a profile has.
pub const PROFILE_LENGTH: usize = 156;

// The number in two bytes; 0 where they are not there, as `packet_fields::four_at` has it.
#[tactic(auto, unfolding(packet_fields::specs::Fields::two_at))]
pub fn two_at(bytes: &[u8], at: usize) -> u16
    ensures { result ≡ two_at bytes.now at }
{
    numbers::read::<u16>(bytes, at).unwrap_or(0)
}

// The area in 17 bytes of its own.
pub fn area_of(part: &[u8]) -> Area
    ensures { result ≡ area_at part.now 0 }
{
    Area {
        koa: packet_fields::byte_at(part, 0),
        sad: packet_fields::four_at(part, 1),
        ead: packet_fields::four_at(part, 5),
        eau: packet_fields::four_at(part, 9),
        wau: packet_fields::four_at(part, 13),
    }
}

// The eight areas in 156 bytes. Stays written out: over places reckoned in a loop the length was tested for each number (docs/BENCHMARKS.md).
#[tactic(auto, using(crate::proofs::AreaLaws::part_more), unfolding(crate::specs::Profile::areas_from))]
fn areas_whole(profile: &[u8]) -> [Area; 8]
    requires { length profile.now ≡ profile_length }
    ensures { result ≡ areas_from 8 20 profile.now }
{
    [
        area_of(&profile[20..37]),
        area_of(&profile[37..54]),
        area_of(&profile[54..71]),
        area_of(&profile[71..88]),
        area_of(&profile[88..105]),
        area_of(&profile[105..122]),
        area_of(&profile[122..139]),
        area_of(&profile[139..156]),
    ]
}

// The profile in 156 bytes: each place is known, so nothing is tested.
#[tactic(auto, unfolding(crate::specs::Profile::fields_in))]
fn whole(profile: &[u8]) -> Profile
    requires { length profile.now ≡ profile_length }
    ensures { result ≡ fields_in profile.now }
{
    Profile {
        areas: areas_whole(profile),
        noa: packet_fields::byte_at(profile, 0),
        sci: packet_fields::four_at(profile, 4),
        rmb: packet_fields::four_at(profile, 8),
        typ: packet_fields::byte_at(profile, 1),
        bfv: two_at(profile, 2),
        window: Window {
            low: packet_fields::four_at(profile, 12),
            high: packet_fields::four_at(profile, 16),
        },
    }
}

// What stands for no profile.
fn none() -> Profile
    ensures { result ≡ no_profile }
{
    let unused = Area {
        koa: 0,
        sad: 0,
        ead: 0,
        eau: 0,
        wau: 0,
    };
    Profile {
        areas: [unused; 8],
        noa: 0,
        sci: 0,
        rmb: 0,
        typ: 0,
        bfv: 0,
        window: Window { low: 0, high: 0 },
    }
}

// The profile in the bytes; bytes of another length are none.
#[tactic(auto, unfolding(crate::specs::Profile::profile_in))]
pub fn profile_in(bytes: &[u8]) -> Profile
    ensures { result ≡ profile_in bytes.now }
{
    if bytes.len() == PROFILE_LENGTH {
        whole(bytes)
    } else {
        none()
    }
}
