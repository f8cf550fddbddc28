// What the signature and area replies hold behind RES.
#![tactic(auto)]

ghost use Rattle.std.specs.Prelude.{◌≡◌};
ghost use Rattle.packet_messages.specs.Messages.{area_message, signature_message};

use profile::{Area, Profile};

// KOA, SAD, EAD, EAU, WAU.
pub fn area_message(area: Area) -> [u8; 17]
    ensures { result ≡ area_message area }
{
    let mut bytes = [0u8; 17];
    bytes[0] = area.koa;
    numbers::write(&mut bytes, 1, area.sad);
    numbers::write(&mut bytes, 5, area.ead);
    numbers::write(&mut bytes, 9, area.eau);
    numbers::write(&mut bytes, 13, area.wau);
    bytes
}

// SCI, RMB, NOA, TYP, BFV.
pub fn signature_message(profile: Profile) -> [u8; 12]
    ensures { result ≡ signature_message profile }
{
    let mut bytes = [0u8; 12];
    numbers::write(&mut bytes, 0, profile.sci);
    numbers::write(&mut bytes, 4, profile.rmb);
    bytes[8] = profile.noa;
    bytes[9] = profile.typ;
    numbers::write(&mut bytes, 10, profile.bfv);
    bytes
}
