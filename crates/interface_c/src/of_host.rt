// The host's end.

ghost use Rattle.std.specs.Prelude.{◌≡◌};
ghost use Rattle.interface_host.specs.Post.{BuildsBytes, BeginsBytes, TakesBytes, verdict_number};

// Builds a request's packet at the front of the buffer: 1, with its length; or why there is none, and the buffer stays.
#[unsafe(no_mangle)]
pub extern "C" fn indraveck_build(
    buffer: &mut [u8],
    request: u32,
    first: u32,
    second: u32,
    bytes: &[u8],
    length: &mut u64,
) -> u32
    ensures { BuildsBytes request first second bytes.now buffer.old buffer.new result length.new }
{
    interface_host::indraveck_build(buffer, request, first, second, bytes, length)
}

// A judge of the replies to a request, in the 36 bytes lent for it: 1, and unanswered; or why there is none, and the bytes stay.
#[unsafe(no_mangle)]
pub extern "C" fn indraveck_judge_begin(
    judge: &mut [u8],
    request: u32,
    first: u32,
    second: u32,
) -> u32
    ensures { BeginsBytes request first second judge.old judge.new result }
{
    interface_host::indraveck_judge_begin(judge, request, first, second)
}

// Gives a judge bytes that came back: the verdict behind them, how many it took, and which of those are the reply's data. Bytes that are no judge
// stay, nothing is taken, and the answer is 3.
#[unsafe(no_mangle)]
pub extern "C" fn indraveck_judge_take(
    judge: &mut [u8],
    bytes: &[u8],
    taken: &mut u64,
    from: &mut u64,
    to: &mut u64,
) -> u32
    ensures { TakesBytes bytes.now judge.old judge.new result taken.new from.new to.new }
{
    interface_host::indraveck_judge_take(judge, bytes, taken, from, to)
}

// A judge's verdict: 0 unanswered, 1 passed, 2 wrong reply, 256 and the status code refused; of bytes that are no judge 3.
#[unsafe(no_mangle)]
pub extern "C" fn indraveck_judge_verdict(judge: &[u8]) -> u32
    ensures { result ≡ verdict_number judge.now }
{
    interface_host::indraveck_judge_verdict(judge)
}
