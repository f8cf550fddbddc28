// What the programs that show vectors share: bytes and requests as they print them, and the bench profile.
#![tactic(auto)]

ghost use Rattle.std.specs.Prelude.{◌≡◌};
ghost use Rattle.profile.specs.Bench.{bench};

mod bytes;
mod words;

pub use bytes::{Byte, Excerpt, Hex};
use profile::{Area, Profile, Window};
pub use words::RequestWords;

// The bench profile of the protocol: 64 KB of user area and 256 bytes of config; no window.
pub fn bench_profile() -> Profile
    ensures { result ≡ bench }
{
    let user = Area {
        koa: 0,
        sad: 0,
        ead: 0xFFFF,
        eau: 0x2000,
        wau: 0x80,
    };
    let config = Area {
        koa: 2,
        sad: 0x0100_0000,
        ead: 0x0100_00FF,
        eau: 0,
        wau: 0x10,
    };
    let unused = Area {
        koa: 0,
        sad: 0,
        ead: 0,
        eau: 0,
        wau: 0,
    };
    Profile {
        areas: [user, config, unused, unused, unused, unused, unused, unused],
        noa: 2,
        sci: 60000000,
        rmb: 4000000,
        typ: 1,
        bfv: 0x0100,
        window: Window { low: 0, high: 0 },
    }
}
