// The blank check: the first unit of flash bytes that holds a byte other than FFh.
#![tactic(auto)]

ghost use Rattle.std.specs.Prelude.{true, ◌≡◌, ◌<◌, ◌≤◌, length, take};
ghost use Rattle.flash_blank.specs.Blank.{searched, all_blank};

// Whether all bytes are FFh. It looks at each one and never leaves early, so that the compiler can take many at once.
fn is_blank(target: &[u8]) -> bool
    ensures { result ≡ all_blank target.now }
{
    target
        .iter()
        .fold(true, |blank, byte| blank & (*byte == 0xFF))
}

// A place before which all bytes are FFh, as far as whole pieces from a first such place on go: the end, or less than a piece
// before the first other byte.
fn blank_front(target: &[u8], from: usize, size: usize) -> usize
    requires { (0 < size) × (from ≤ length target.now) × (all_blank (take from target.now) ≡ true) }
    ensures { (result ≤ length target.now) × (all_blank (take result target.now) ≡ true) }
{
    let mut at = from;
    for piece in target[from..].chunks(size) {
        if !is_blank(piece) {
            return at;
        }
        at += piece.len();
    }
    at
}

// The same with pieces of 256 bytes, of 64 and of 16: the end, or fewer than 16 bytes before the first other one. Three calls: a loop
// over the sizes is no plainer, since it needs a variable that changes, and an invariant.
fn passed(target: &[u8]) -> usize
    ensures { (result ≤ length target.now) × (all_blank (take result target.now) ≡ true) }
{
    let far = blank_front(target, 0, 256);
    let near = blank_front(target, far, 64);
    blank_front(target, near, 16)
}

// The number of the first unit that holds a byte other than FFh. What is blank at the front is passed quickly, whatever the unit;
// so the search, which starts there and stops at the first other byte, has few to look at before it. Nested loops, and a label that
// leaves both, since the scope decides this form: `position` would be plainer. A division is a good part of a short call's time,
// so there is one: how many units there are is not asked. They are no more than the bytes, and end where the bytes do.
#[tactic(auto, using(crate::proofs::Units::part_next, crate::proofs::Units::left_none, crate::proofs::Units::units_hold))]
pub fn first_dirty(target: &[u8], unit: usize) -> Option<usize>
    ensures { result ≡ searched unit target.now }
{
    let step = unit.max(1);
    let front = passed(target);
    let first = front / step;
    let mut start = first * step;
    let mut found = None;
    'units: for number in first..target.len() {
        if start == target.len() {
            break;
        }
        let end = start + step.min(target.len() - start);
        let from = start.max(front);
        for byte in &target[from..end] {
            if *byte != 0xFF {
                found = Some(number);
                break 'units;
            }
        }
        start = end;
    }
    found
}
