// What an exchange of a line tells: an act, read out of request and reply. It sees no state and no area.
#![tactic(auto)]

ghost use Rattle.std.specs.Prelude.{◌≡◌, length};
ghost use Rattle.record_exchange.specs.Exchange.{idle, answered_ok, command_told, command_read, data_told, data_read, exchange_read, CanMove};

use flash::Act;
use packet_fields::Com;

// What an exchange tells.
#[derive(Clone, Copy)]
pub struct Told {
    pub act: Act,
    pub landing: Option<usize>,
}

// Nothing is done.
fn idle(landing: Option<usize>) -> Told
    ensures { result ≡ idle landing }
{
    Told {
        act: Act::Nothing,
        landing,
    }
}

// Whether the reply is the OK status of the request's own COM or RES.
fn answered_ok(request: &[u8], reply: &[u8]) -> bool
    ensures { result ≡ answered_ok request.now reply.now }
{
    let mut status = [0u8; 7];
    packet_reply::put_status(&mut status, packet_fields::byte_at(request, 3), Ok(()));
    numbers::equal(reply, &status)
}

// A command that was answered OK.
#[tactic(auto, unfolding(crate::specs::Exchange::command_told))]
fn command_told(request: &[u8], cmd: Com, landing: Option<usize>) -> Told
    ensures { result ≡ command_told request.now cmd landing }
{
    match cmd {
        Com::Erase => {
            let sad = packet_fields::four_at(request, 4);
            let ead = packet_fields::four_at(request, 8);
            Told {
                act: Act::EraseRange(sad, ead),
                landing,
            }
        }
        Com::Write => idle(Some(packet_fields::four_at(request, 4) as usize)),
        Com::Authenticate if id_code::is_erase_code(packet_fields::info(request)) => Told {
            act: Act::EraseAll,
            landing,
        },
        _ => idle(landing),
    }
}

// A command and its reply.
#[tactic(auto, unfolding(crate::specs::Exchange::command_read))]
fn read_command(request: &[u8], reply: &[u8], landing: Option<usize>) -> Told
    ensures { result ≡ command_read request.now reply.now landing }
{
    let cmd = Com::from(packet_fields::byte_at(request, 3));
    if packet_fields::info_count(request) != packet_fields::info_length(cmd)
        || !answered_ok(request, reply)
    {
        return idle(landing);
    }
    command_told(request, cmd, landing)
}

// Write data that was answered OK. `CanMove` stays a clause: how far a landing place can be moved goes by the request beside it.
#[tactic(auto, unfolding(crate::specs::Exchange::data_told))]
fn data_told(request: &[u8], landing: Option<usize>) -> Told
    requires { CanMove landing (length request.now) }
    ensures { result ≡ data_told request.now landing }
{
    match landing {
        None => idle(landing),
        Some(address) => {
            let count = packet_fields::info_count(request);
            Told {
                act: Act::Store(address, count),
                landing: Some(address + count),
            }
        }
    }
}

// A data packet and its reply.
#[tactic(auto, unfolding(crate::specs::Exchange::data_read))]
fn read_data(request: &[u8], reply: &[u8], landing: Option<usize>) -> Told
    requires { CanMove landing (length request.now) }
    ensures { result ≡ data_read request.now reply.now landing }
{
    if packet_fields::byte_at(request, 3) != packet_fields::WRITE || !answered_ok(request, reply) {
        return idle(landing);
    }
    data_told(request, landing)
}

// A request and its reply.
#[tactic(auto, unfolding(crate::specs::Exchange::exchange_read))]
pub fn read_exchange(request: &[u8], reply: &[u8], landing: Option<usize>) -> Told
    requires { CanMove landing (length request.now) }
    ensures { result ≡ exchange_read request.now reply.now landing }
{
    if !packet::is_good(request) {
        return idle(landing);
    }
    if packet_fields::byte_at(request, 0) == 0x01 {
        return read_command(request, reply, landing);
    }
    read_data(request, reply, landing)
}
