// The profile and the image: up to eight areas, and where the byte at an address stands.
#![tactic(auto)]

ghost use Rattle.std.specs.Prelude.{◌≡◌, ◌≤◌, min, length};
ghost use Rattle.profile.specs.Areas.{areas_of, size_of, inside};
ghost use Rattle.profile.specs.Places.{place_of, unit_at, FirstWhere, Located};

#[derive(Clone, Copy)]
pub struct Area {
    // 0 user, 1 data, 2 config: a number, since bytes from C may hold any, and `Rule::Kind` refuses the others
    pub koa: u8,
    pub sad: u32,
    // inclusive
    pub ead: u32,
    // erase and write unit in bytes; 0: there is none
    pub eau: u32,
    pub wau: u32,
}

// Low equal to high: no limit.
#[derive(Clone, Copy)]
pub struct Window {
    pub low: u32,
    pub high: u32,
}

// A table and its count, apart: the scope decides this form, and C may give any count.
#[derive(Clone, Copy)]
pub struct Profile {
    pub areas: [Area; 8],
    pub noa: u8,
    pub sci: u32,
    pub rmb: u32,
    pub typ: u8,
    pub bfv: u16,
    pub window: Window,
}

// An area, and the place of its first byte in the image.
#[derive(Clone, Copy)]
pub struct Spot {
    pub area: Area,
    pub base: usize,
}

// How many entries of the table are in use: NOA, and never more than there are.
pub fn used(noa: u8) -> usize
    ensures { (result ≡ min noa 8) × (result ≤ 8) }
{
    usize::from(noa).min(8)
}

// The entries of the table that are in use.
pub fn areas_in_use(profile: &Profile) -> &[Area]
    ensures are { result.now ≡ areas_of profile.now }
    ensures few { length result.now ≤ 8 }
{
    &profile.areas[..used(profile.noa)]
}

// The area's size in bytes; none where it ends before it starts.
pub fn size(area: Area) -> usize
    ensures { (result ≡ size_of area) × (result ≤ 4294967296) }
{
    (area.ead as usize + 1).saturating_sub(area.sad as usize)
}

// Whether the address lies in the area.
#[tactic(auto, unfolding(crate::specs::Areas::inside))]
pub fn holds(area: Area, address: u32) -> bool
    ensures { result ≡ inside area address }
{
    area.sad <= address && address <= area.ead
}

// The first area in use that passes the test, with its place in the image.
pub fn first_where<F: Fn(Area) -> bool>(profile: &Profile, test: F) -> Option<Spot>
    requires { F.IsAlwaysCallable test }
    ensures { FirstWhere (F.post test) (areas_of profile.now) result }
{
    let mut base: usize = 0;
    for area in areas_in_use(profile) {
        if test(*area) {
            return Some(Spot { area: *area, base });
        }
        base += size(*area);
    }
    None
}

// The first area in use that holds the address, with its place in the image.
pub fn locate(profile: Profile, address: u32) -> Option<Spot>
    ensures { Located (areas_of profile) address result }
{
    first_where(&profile, |area| holds(area, address))
}

// WAU of the area that holds an address; 0 where none does, as the definition says, and no answer rests on it (`unit_there`). No area has an address from 2^32 on.
pub fn unit_at(profile: Profile, address: usize) -> u32
    ensures { result ≡ unit_at (place_of (areas_of profile) address) }
{
    let Ok(address) = u32::try_from(address) else {
        return 0;
    };
    match locate(profile, address) {
        None => 0,
        Some(spot) => spot.area.wau,
    }
}
