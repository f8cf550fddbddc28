// The host's end for other languages: numbers and byte slices.
#![tactic(auto)]

ghost use Rattle.std.specs.Prelude.{◌≡◌};
ghost use Rattle.interface_host.specs.Post.{built_number, BuildsBytes, BeginsBytes, TakesBytes, verdict_number};

use host_request::Unbuilt;

// That the packet was built, or why not; never 0. No From: the answer is std's Result.
fn built_number(built: Result<usize, Unbuilt>) -> u32
    ensures { result ≡ built_number built }
{
    match built {
        Ok(_) => 1,
        Err(Unbuilt::WrongAmount) => 2,
        Err(Unbuilt::NothingLeft) => 3,
        Err(Unbuilt::NoRoom) => 4,
    }
}

// Builds a request's packet at the front of the buffer: 1, with its length; or why there is none, and the buffer stays.
#[unsafe(no_mangle)]
pub extern "C" fn indraveck_build(
    buffer: &mut [u8],
    request: u32,
    first: u32,
    second: u32,
    bytes: &[u8],
    length: &mut u64,
) -> u32
    ensures { BuildsBytes request first second bytes.now buffer.old buffer.new result length.new }
{
    *length = 0;
    let Some(which) = host_bytes::request_of(request, first, second) else {
        return 5;
    };
    let built = host_request::build(buffer, which, bytes);
    *length = built.unwrap_or(0) as u64;
    built_number(built)
}

// A judge of the replies to a request, in the 36 bytes lent for it: 1, and unanswered; or why there is none, and the bytes stay.
#[unsafe(no_mangle)]
pub extern "C" fn indraveck_judge_begin(
    judge: &mut [u8],
    request: u32,
    first: u32,
    second: u32,
) -> u32
    ensures { BeginsBytes request first second judge.old judge.new result }
{
    let Some(which) = host_bytes::request_of(request, first, second) else {
        return 5;
    };
    if judge.len() != host_bytes::JUDGE_LENGTH {
        return 6;
    }
    host_bytes::put_judge(judge, host_judge::begin(which));
    1
}

// Gives a judge bytes that came back: the verdict behind them, how many it took, and which of those are the reply's data. Bytes that are no judge
// stay, nothing is taken, and the answer is 3.
#[unsafe(no_mangle)]
pub extern "C" fn indraveck_judge_take(
    judge: &mut [u8],
    bytes: &[u8],
    taken: &mut u64,
    from: &mut u64,
    to: &mut u64,
) -> u32
    ensures { TakesBytes bytes.now judge.old judge.new result taken.new from.new to.new }
{
    *taken = 0;
    *from = 0;
    *to = 0;
    let Some((request, judgement)) = host_bytes::head_in(judge) else {
        return 3;
    };
    let before = host_bytes::judge_in(judge, request, judgement);
    let got = host_judge::take(before, bytes);
    host_bytes::put_judge(judge, got.judge);
    *taken = got.count as u64;
    *from = got.from as u64;
    *to = got.to as u64;
    u32::from(got.judge.judgement)
}

// A judge's verdict: 0 unanswered, 1 passed, 2 wrong reply, 256 and the status code refused; of bytes that are no judge 3.
#[unsafe(no_mangle)]
pub extern "C" fn indraveck_judge_verdict(judge: &[u8]) -> u32
    ensures { result ≡ verdict_number judge.now }
{
    let Some((_, judgement)) = host_bytes::head_in(judge) else {
        return 3;
    };
    u32::from(judgement)
}
