// Which row of the refused calls applies first.
ghost use Rattle.std.specs.Prelude.{◌++◌, ◌≡◌};
ghost use Rattle.verdict.specs.Check.{first_fault};
ghost use Rattle.device_calls.specs.Calls.{start_rows, buffer_rows, start_refusal, refusal_of, row_number, number_of, is_accepted};

use crate::{Refusal, Row};
use packet::LONGEST_PACKET;
use profile::Profile;
use state::State;

// The paper's number of a row.
impl From<Row> for u8 {
    ghost from_gives = { λ row n. n ≡ row_number row };

    fn from(row: Row) -> u8 {
        match row {
            Row::Unacceptable => 4,
            Row::WrongImage => 1,
            Row::WrongState => 5,
            Row::ShortReceive => 2,
            Row::ShortReply => 3,
        }
    }
}

// The paper's number of a refusal; an accepted call has 0. No From: a refusal is std's Result.
pub fn number(refusal: Refusal) -> u8
    ensures { result ≡ number_of refusal }
{
    match refusal {
        Ok(()) => 0,
        Err(row) => u8::from(row),
    }
}

// Whether no row applies.
pub fn is_accepted(refusal: Refusal) -> bool
    ensures { result ≡ is_accepted refusal }
{
    refusal.is_ok()
}

// The rows of starting and resetting.
pub fn unstarted(profile: Profile, length: usize) -> Refusal
    ensures { result ≡ start_refusal profile length }
{
    let Ok(total) = profile_rules::judge(profile) else {
        return Err(Row::Unacceptable);
    };
    if length != total {
        return Err(Row::WrongImage);
    }
    Ok(())
}

// The rows of feeding, for an image of `length` bytes and a reply buffer of `room` bytes.
#[tactic(auto, using(verdict::proofs::FirstFault::granted_then))]
pub fn refused(
    profile: Profile,
    length: usize,
    state: State,
    receive: &[u8],
    room: usize,
) -> Refusal
    ensures { result ≡ refusal_of (first_fault (start_rows profile length ++ buffer_rows profile state receive.now room)) }
{
    unstarted(profile, length)?;
    unbuffered(profile, state, receive, room)
}

// The rows that feeding has besides.
#[tactic(auto, unfolding(verdict::specs::Check::first_fault, crate::specs::Calls::buffer_rows))]
fn unbuffered(profile: Profile, state: State, receive: &[u8], room: usize) -> Refusal
    ensures { result ≡ refusal_of (first_fault (buffer_rows profile state receive.now room)) }
{
    if !state::fits(profile, state, receive) {
        return Err(Row::WrongState);
    }
    if receive.len() < LONGEST_PACKET {
        return Err(Row::ShortReceive);
    }
    if room < LONGEST_PACKET {
        return Err(Row::ShortReply);
    }
    Ok(())
}
