// The device.

ghost use Rattle.std.specs.Prelude.{length};
ghost use Rattle.interface.specs.Calls.{bytes};
ghost use Rattle.interface.specs.Post.{numbers, StartedBytes, ResetBytes, FeedsBytes, Handed};

// A fresh state for a profile and an image; a refused start leaves the zero state.
#[unsafe(no_mangle)]
pub extern "C" fn indraveck_start(profile: &[u8], image: &[u8], state: &mut [u8]) -> u32
    ensures { StartedBytes profile.now (length image.now) state.old state.new result }
{
    interface::indraveck_start(profile, image, state)
}

// The fresh state again; a refused reset leaves the bytes.
#[unsafe(no_mangle)]
pub extern "C" fn indraveck_reset(profile: &[u8], image: &[u8], state: &mut [u8]) -> u32
    ensures { ResetBytes profile.now (length image.now) state.old state.new result }
{
    interface::indraveck_reset(profile, image, state)
}

// Received bytes, up to the one that completes the first reply.
#[unsafe(no_mangle)]
pub extern "C" fn indraveck_feed(
    profile: &[u8],
    image: &mut [u8],
    state: &mut [u8],
    receive: &mut [u8],
    reply: &mut [u8],
    input: &[u8],
    consumed: &mut u64,
    sent: &mut u64,
) -> u32
    ensures { FeedsBytes profile.now input.now
        (bytes image.old state.old receive.old reply.old)
        (bytes image.new state.new receive.new reply.new)
        (numbers result consumed.new sent.new) }
{
    interface::indraveck_feed(profile, image, state, receive, reply, input, consumed, sent)
}

// Where the payload of the first `count` bytes of the receive buffer stands: 1, or 0 where it is empty.
#[unsafe(no_mangle)]
pub extern "C" fn indraveck_payload(
    receive: &[u8],
    count: usize,
    start: &mut u64,
    size: &mut u64,
) -> u32
    ensures { Handed receive.now count result start.new size.new }
{
    interface::indraveck_payload(receive, count, start, size)
}
