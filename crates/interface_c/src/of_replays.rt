// The replay of a recorded line.

ghost use Rattle.interface_replay.specs.Post.{Replayed};

// The image with a recorded line replayed on it; how many of the recording's bytes were read, and why no more: 6 at its end, or the
// number of the fault. It is refused as a start is; then nothing is read, and both numbers are 0.
#[unsafe(no_mangle)]
pub extern "C" fn indraveck_replay(
    profile: &[u8],
    image: &mut [u8],
    recording: &[u8],
    read: &mut u64,
    ended: &mut u32,
) -> u32
    ensures { Replayed profile.now recording.now image.old image.new result read.new ended.new }
{
    interface_replay::indraveck_replay(profile, image, recording, read, ended)
}
