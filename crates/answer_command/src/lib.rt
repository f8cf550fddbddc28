// What a complete command is answered.
#![tactic(auto)]

ghost use Rattle.std.specs.Prelude.{◌≡◌, ◌≤◌, ◌<◌, get_or};
ghost use Rattle.profile.specs.Areas.{no_area};
ghost use Rattle.profile_rules.specs.Rules.{Accepted};
ghost use Rattle.baud.specs.Rate.{setting_of};
ghost use Rattle.packet.specs.Frame.{Roomy};
ghost use Rattle.packet_fields.specs.declared.Com.TheVariants.{Signature, Area};
ghost use Rattle.packet_fields.specs.Fields.{com_number, sad_of, ead_of, brt_of, area_number_of};
ghost use Rattle.packet_messages.specs.Messages.{area_message, signature_message};
ghost use Rattle.flash.specs.declared.Act.TheVariants.{Nothing, EraseRange};
ghost use Rattle.state.specs.State.{with_line, with_held};
ghost use Rattle.answer.specs.Answer.{Answers};
ghost use Rattle.answer_command.specs.Grants.{span_of, told, shown, entered, grant_of, answer_command};
ghost use Rattle.answer_command.specs.Granted.{GrantedCommand};

use answer::{Answered, in_stage, send, tell};
use answer_transfer::read_packet;
use flash::Act;
use packet_fields::{AREA, Com, SIGNATURE};
use profile::Profile;
use state::{Range, Stage, State, with_held};
use verdict::Verdict;

// The range SAD to EAD of a command that was granted.
fn span(packet: &[u8]) -> Range
    requires { (sad_of packet.now ≤ ead_of packet.now) × (ead_of packet.now ≤ 4294967294) }
    ensures { result ≡ span_of (sad_of packet.now) (ead_of packet.now) }
{
    let sad = packet_fields::four_at(packet, 4);
    let ead = packet_fields::four_at(packet, 8);
    Range {
        next: sad,
        left: ead - sad + 1,
    }
}

// A status reply OK.
#[tactic(auto, using(answer::proofs::Sending::answers_as))]
fn accept(reply: &mut [u8], act: Act, state: State, packet: &[u8]) -> Answered
    requires { Roomy reply.old }
    ensures { Answers (told packet.now (Ok tt) act state) result reply.old reply.new }
{
    tell(reply, act, state, packet_fields::byte_at(packet, 3), Ok(()))
}

#[tactic(auto, using(answer::proofs::Sending::answers_as))]
fn grant_erase(state: State, packet: &[u8], reply: &mut [u8]) -> Answered
    requires { Roomy reply.old }
    ensures { Answers (told packet.now (Ok tt) (EraseRange (sad_of packet.now) (ead_of packet.now)) (with_held 0 state)) result reply.old reply.new }
{
    let sad = packet_fields::four_at(packet, 4);
    let ead = packet_fields::four_at(packet, 8);
    let act = Act::EraseRange(sad, ead);
    accept(reply, act, with_held(state, 0), packet)
}

#[tactic(auto, using(answer::proofs::Sending::answers_as), unfolding(crate::specs::Grants::entered))]
fn grant_authenticate(profile: Profile, state: State, packet: &[u8], reply: &mut [u8]) -> Answered
    requires { Roomy reply.old }
    ensures { Answers (entered profile state packet.now) result reply.old reply.new }
{
    if id_code::is_total_erase(state.id, packet_fields::info(packet)) {
        accept(reply, Act::EraseAll, state::fresh(profile), packet)
    } else {
        accept(reply, Act::Nothing, in_stage(state, Stage::Command), packet)
    }
}

#[tactic(auto, using(answer::proofs::Sending::answers_as))]
fn grant_baud(profile: Profile, state: State, packet: &[u8], reply: &mut [u8]) -> Answered
    requires { Roomy reply.old }
    ensures { Answers (told packet.now (Ok tt) Nothing (with_held 0 (with_line (setting_of profile.sci (brt_of packet.now)) state))) result reply.old reply.new }
{
    let line = baud::setting(profile.sci, packet_fields::four_at(packet, 4));
    let tuned = with_held(state::with_line(state, line), 0);
    accept(reply, Act::Nothing, tuned, packet)
}

#[tactic(auto, using(answer::proofs::Sending::answers_as))]
fn grant_signature(profile: Profile, state: State, reply: &mut [u8]) -> Answered
    requires { Roomy reply.old }
    ensures { Answers (shown (com_number Signature) (signature_message profile) state) result reply.old reply.new }
{
    let bytes = packet_messages::signature_message(profile);
    send(reply, with_held(state, 0), SIGNATURE, &bytes)
}

#[tactic(auto, using(answer::proofs::Sending::answers_as))]
fn grant_area(profile: Profile, state: State, packet: &[u8], reply: &mut [u8]) -> Answered
    requires { Roomy reply.old × (area_number_of packet.now < 8) }
    ensures { Answers (shown (com_number Area) (area_message (get_or profile.areas (area_number_of packet.now) no_area)) state) result reply.old reply.new }
{
    let number = usize::from(packet_fields::byte_at(packet, 4));
    let bytes = packet_messages::area_message(profile.areas[number]);
    send(reply, with_held(state, 0), AREA, &bytes)
}

// A command that was granted.
#[tactic(auto, using(answer::proofs::Sending::answers_as, crate::proofs::Granting::by_command), unfolding(crate::specs::Grants::grant_of))]
fn grant(
    profile: Profile,
    image: &[u8],
    state: State,
    cmd: Com,
    packet: &[u8],
    reply: &mut [u8],
) -> Answered
    requires { GrantedCommand profile state packet.now cmd × Roomy reply.old }
    ensures { Answers (grant_of profile image.now state packet.now cmd) result reply.old reply.new }
{
    match cmd {
        Com::Erase => grant_erase(state, packet, reply),
        Com::Write => {
            let going = Stage::Writing(span(packet));
            accept(reply, Act::Nothing, in_stage(state, going), packet)
        }
        Com::Read => read_packet(profile, image, state, span(packet), reply),
        Com::Authenticate => grant_authenticate(profile, state, packet, reply),
        Com::Baud => grant_baud(profile, state, packet, reply),
        Com::Signature => grant_signature(profile, state, reply),
        Com::Area => grant_area(profile, state, packet, reply),
        Com::Inquiry | Com::Unknown => accept(reply, Act::Nothing, with_held(state, 0), packet),
    }
}

// What a complete command is answered. A hint, and no more: put into the loop over bytes, it has the compiler keep the state there in pieces, and a byte that
// is skipped costs a quarter more.
#[inline(never)]
pub fn answer_command(
    profile: Profile,
    image: &[u8],
    state: State,
    packet: &[u8],
    reply: &mut [u8],
) -> Answered
    requires { Accepted profile × Roomy reply.old }
    ensures { Answers (answer_command profile image.now state packet.now) result reply.old reply.new }
{
    let request = packet_fields::byte_at(packet, 3);
    match check_command::check_command(profile, state, packet) {
        Err(reason) => tell(
            reply,
            Act::Nothing,
            with_held(state, 0),
            request,
            Err(reason),
        ),
        Ok(()) => {
            let cmd = Com::from(request);
            grant(profile, image, state, cmd, packet, reply)
        }
    }
}
