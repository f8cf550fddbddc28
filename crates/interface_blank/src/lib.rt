// The blank check by itself, for benchmarks in other languages.
#![tactic(auto)]

ghost use Rattle.std.specs.Prelude.{◌≡◌, length};
ghost use Rattle.flash_blank.specs.Blank.{searched};
ghost use Rattle.interface_blank.specs.Number.{number_in};

// The number of the first unit that is not blank; the number of bytes, which no unit has, where all are.
#[unsafe(no_mangle)]
pub extern "C" fn indraveck_first_dirty(target: &[u8], unit: usize) -> usize
    ensures { result ≡ number_in (length target.now) (searched unit target.now) }
{
    flash_blank::first_dirty(target, unit).unwrap_or(target.len())
}
