// The replay of a recorded line for other languages: numbers and byte slices.
#![tactic(auto)]

ghost use Rattle.interface_replay.specs.Post.{Replayed};

// The image with a recorded line replayed on it; how many of the recording's bytes were read, and why no more: 6 at its end, or the
// number of the fault. It is refused as a start is; then nothing is read, and both numbers are 0.
#[unsafe(no_mangle)]
pub extern "C" fn indraveck_replay(
    profile: &[u8],
    image: &mut [u8],
    recording: &[u8],
    read: &mut u64,
    ended: &mut u32,
) -> u32
    ensures { Replayed profile.now recording.now image.old image.new result read.new ended.new }
{
    let p = profile_bytes::profile_in(profile);
    let begun = device_calls::start(p, image);
    if !device_calls::is_accepted(begun.refusal) {
        *read = 0;
        *ended = 0;
        return device_calls::number(begun.refusal) as u32;
    }
    let extent = record_replay::play(image, p, recording);
    *read = extent.count as u64;
    *ended = u32::from(u8::from(extent.ended));
    0
}
