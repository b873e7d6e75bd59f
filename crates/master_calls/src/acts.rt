// What the driver wishes and reports.
ghost use Rattle.std.specs.Prelude.{◌≡◌};
ghost use Rattle.master.specs.Master.{valid_outstanding, waiting_reply, idle_reply, ended_by_slave, opened_master, start_of, master_reply_of, timer_a_of, close_of};

use crate::blocks::{
    MOST_RESENDS, accept, answer, nothing_changes, refuse, resend, send_out, take_ack,
};
use master::{End, Master, MasterActed, Outstanding, Progress, Response, Transmission};

pub(crate) fn valid_outstanding(o: Outstanding) -> bool
    ensures { result ≡ valid_outstanding o }
{
    1 <= o.block_size && o.resends <= MOST_RESENDS && (o.offset == 0 || o.offset < o.message_length)
}

// EOT came.
fn ended_by_slave(count: u64) -> MasterActed
    ensures { result ≡ ended_by_slave count }
{
    answer(Master::Closed(count), Transmission::Nothing, End::BySlave)
}

// RINT is acceptance, or the block is sent again.
fn reply_when_waiting(refuses: bool, response: Response, o: Outstanding) -> MasterActed
    ensures { result ≡ waiting_reply refuses response o }
{
    match response {
        Response::Ack(n) => take_ack(n, o),
        Response::Nak => resend(o),
        Response::Eot => ended_by_slave(o.count),
        Response::Damaged => nothing_changes(Master::Waiting(o)),
        Response::Rint if refuses => resend(o),
        Response::Rint => accept(o),
    }
}

fn reply_when_idle(response: Response, count: u64) -> MasterActed
    ensures { result ≡ idle_reply response count }
{
    match response {
        Response::Eot => ended_by_slave(count),
        _ => nothing_changes(Master::Idle(count)),
    }
}

// The driver opened the master, whatever it was.
pub(crate) fn opened() -> MasterActed
    ensures { result ≡ opened_master }
{
    nothing_changes(Master::Idle(0))
}

// The driver starts a message.
#[tactic(auto, unfolding(master::specs::Master::start_of))]
pub(crate) fn start(message_length: u64, block_size: u64, master: Master) -> MasterActed
    ensures { result ≡ start_of message_length block_size master }
{
    if block_size < 1 {
        return refuse(refusal::SETTING, master);
    }
    match master {
        Master::Idle(count) => {
            let first = Outstanding {
                message_length,
                block_size,
                offset: 0,
                resends: 0,
                count,
            };
            send_out(Progress::NoProgress, first)
        }
        _ => refuse(refusal::STATE, master),
    }
}

// A reply arrived.
#[tactic(auto, unfolding(master::specs::Master::master_reply_of))]
pub(crate) fn reply(refuses: bool, response: Response, master: Master) -> MasterActed
    ensures { result ≡ master_reply_of refuses response master }
{
    match master {
        Master::Closed(_) => nothing_changes(master),
        Master::Idle(count) => reply_when_idle(response, count),
        Master::Waiting(o) if valid_outstanding(o) => reply_when_waiting(refuses, response, o),
        Master::Waiting(_) => refuse(refusal::STATE, master),
    }
}

// Timer A ran out.
#[tactic(auto, unfolding(master::specs::Master::timer_a_of))]
pub(crate) fn timer(master: Master) -> MasterActed
    ensures { result ≡ timer_a_of master }
{
    match master {
        Master::Closed(_) | Master::Idle(_) => nothing_changes(master),
        Master::Waiting(o) if valid_outstanding(o) => resend(o),
        Master::Waiting(_) => refuse(refusal::STATE, master),
    }
}

// The driver closes the master.
#[tactic(auto, unfolding(master::specs::Master::close_of))]
pub(crate) fn close(master: Master) -> MasterActed
    ensures { result ≡ close_of master }
{
    match master {
        Master::Idle(count) => answer(Master::Closed(count), Transmission::SendEot, End::ByDriver),
        _ => refuse(refusal::STATE, master),
    }
}
