// Bytes that only add to an incomplete packet, taken in one copy.
#![tactic(auto)]

ghost use Rattle.std.specs.Prelude.{◌≡◌, ◌+◌, ◌≤◌, length};
ghost use Rattle.std.proofs.Math.Seq.{paste};
ghost use Rattle.packet_gather.specs.Gather.{lack_of, open_of, gain_of, Holds, Taken};

use packet::Kind;

// The first `count` bytes of `from`, to `receive` from `at` on. A serial line brings one at a time, which needs no loop.
fn place(receive: &mut [u8], at: usize, from: &[u8], count: usize)
    requires { (at + count ≤ length receive.old) × (count ≤ length from.now) }
    ensures { receive.new ≡ paste receive.old at from.now count }
{
    if count == 1 {
        receive[at] = from[0];
        return;
    }
    let end = at + count;
    numbers::copy(&from[..count], &mut receive[at..end]);
}

// How many bytes can come before the packet's last; none where its length has not come.
fn lacking(packet: &[u8]) -> usize
    ensures { result ≡ lack_of packet.now }
{
    match numbers::read::<u16>(packet, 1) {
        None => 0,
        Some(n) => {
            let last = n as usize + 4;
            if packet.len() < last {
                return last - packet.len();
            }
            0
        }
    }
}

// How many bytes of input can come before the last of the packet of the kind that they begin; none where they begin none.
fn opening(kind: Kind, input: &[u8]) -> usize
    ensures { result ≡ open_of kind input.now }
{
    if input.len() < 3 {
        return 0;
    }
    if !packet::waits(&input[..3], kind) {
        return 0;
    }
    lacking(&input[..3]) + 3
}

// How many can come behind the bytes that are held; where none are, behind none.
fn gain(kind: Kind, held: &[u8], input: &[u8]) -> usize
    ensures { result ≡ gain_of kind held.now input.now }
{
    if held.len() != 0 {
        return lacking(held);
    }
    opening(kind, input)
}

// As many bytes of input as can come before the packet's last, put behind the `held` ones; how many they are.
pub fn gather(kind: Kind, held: usize, receive: &mut [u8], input: &[u8]) -> usize
    requires { Holds kind held receive.old }
    ensures { Taken kind held input.now result receive.old receive.new }
{
    let taken = gain(kind, &receive[..held], input).min(input.len());
    place(receive, held, input, taken);
    taken
}
