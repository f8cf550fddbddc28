// The checks of a complete command, in the paper's order.
#![tactic(auto)]

ghost use Rattle.std.specs.Prelude.{◌≡◌};
ghost use Rattle.profile.specs.Areas.{areas_of};
ghost use Rattle.profile_ranges.specs.Ranges.{range_checks};
ghost use Rattle.verdict.specs.Check.{first_fault, verdict_of};
ghost use Rattle.packet_fields.specs.Fields.{sad_of, ead_of};
ghost use Rattle.check_command.specs.Commands.{stage_wrong, form_checks, area_number_checks, own_checks, known_checks, command_checks};

use packet_fields::{AUTHENTICATE, Com, byte_at, four_at, info, info_count, info_length};
use profile::{Profile, Window};
use profile_ranges::Purpose;
use state::{Stage, State};
use verdict::{Reason, Verdict};

// Whether the stage does not permit the command: authenticate is 30h.
fn is_stage_wrong(stage: Stage, code: u8) -> bool
    ensures { result ≡ stage_wrong stage code }
{
    match stage {
        Stage::Authentication => code != AUTHENTICATE,
        Stage::Command => code == AUTHENTICATE,
        Stage::Setting(_) | Stage::Writing(_) | Stage::Reading(_) => true,
    }
}

#[tactic(auto, unfolding(verdict::specs::Check::first_fault, crate::specs::Commands::form_checks))]
fn check_form(stage: Stage, code: u8, cmd: Com, count: usize) -> Verdict
    ensures { result ≡ verdict_of (first_fault (form_checks stage code cmd count)) }
{
    if matches!(cmd, Com::Unknown) {
        return Err(Reason::UnknownCommand);
    }
    if count != info_length(cmd) {
        return Err(Reason::WrongLength);
    }
    if is_stage_wrong(stage, code) {
        return Err(Reason::WrongStage);
    }
    Ok(())
}

#[tactic(auto, unfolding(verdict::specs::Check::first_fault, crate::specs::Commands::area_number_checks))]
fn check_area_number(noa: u8, packet: &[u8]) -> Verdict
    ensures { result ≡ verdict_of (first_fault (area_number_checks noa packet.now)) }
{
    if noa <= byte_at(packet, 4) {
        return Err(Reason::NoSuchArea);
    }
    Ok(())
}

// The range from SAD to EAD of a command.
fn check_span(profile: Profile, window: Window, purpose: Purpose, packet: &[u8]) -> Verdict
    ensures { result ≡ verdict_of (first_fault (range_checks (areas_of profile) window purpose (sad_of packet.now) (ead_of packet.now))) }
{
    let sad = four_at(packet, 4);
    let ead = four_at(packet, 8);
    profile_ranges::check_range(profile, window, purpose, sad, ead)
}

#[tactic(auto, unfolding(verdict::specs::Check::first_fault, crate::specs::Commands::own_checks))]
fn check_own(profile: Profile, state: State, cmd: Com, packet: &[u8]) -> Verdict
    ensures { result ≡ verdict_of (first_fault (own_checks profile state cmd packet.now)) }
{
    let window = state::window(profile, state);
    match cmd {
        Com::Erase => check_span(profile, window, Purpose::Erase, packet),
        Com::Write => check_span(profile, window, Purpose::Write, packet),
        Com::Read => check_span(profile, window, Purpose::Read, packet),
        Com::Authenticate => id_code::check_id(state.id, info(packet)),
        Com::Baud => baud::check_rate(profile.sci, profile.rmb, four_at(packet, 4)),
        Com::Area => check_area_number(profile.noa, packet),
        Com::Inquiry | Com::Signature | Com::Unknown => Ok(()),
    }
}

#[tactic(auto, using(verdict::proofs::FirstFault::granted_then), unfolding(crate::specs::Commands::known_checks))]
fn check_known(profile: Profile, state: State, packet: &[u8]) -> Verdict
    ensures { result ≡ verdict_of (first_fault (known_checks profile state packet.now)) }
{
    let code = byte_at(packet, 3);
    let cmd = Com::from(code);
    check_form(state.stage, code, cmd, info_count(packet))?;
    check_own(profile, state, cmd, packet)
}

// What a complete command is answered.
#[tactic(auto, using(verdict::proofs::FirstFault::granted_then), unfolding(crate::specs::Commands::command_checks))]
pub fn check_command(profile: Profile, state: State, packet: &[u8]) -> Verdict
    ensures { result ≡ verdict_of (first_fault (command_checks profile state packet.now)) }
{
    packet::check_ending(packet)?;
    check_known(profile, state, packet)
}
