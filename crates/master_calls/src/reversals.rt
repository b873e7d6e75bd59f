// RINT, the enquiry, and the driver's leave to receive: what becomes of the acts' answers.
ghost use Rattle.std.specs.Prelude.{◌≡◌};
ghost use Rattle.master.specs.declared.Master.TheVariants.{Closed};
ghost use Rattle.master.specs.declared.Transmission.TheVariants.{SendEot};
ghost use Rattle.master.specs.declared.Progress.TheVariants.{NoProgress};
ghost use Rattle.master.specs.declared.End.TheVariants.{Reversed};
ghost use Rattle.master.specs.Master.{master_acted};
ghost use Rattle.master.specs.Reversal.{fresh_reversal, refuses_by, noted, enq_last, kept, answer_of, is_acknowledged, count_in, reversed_of, opened_master_answer, start_answer, reply_answer, timer_answer, close_answer, enquire_of, enquire_answer, may_receive_now, may_receive_of, heard, reversal_fits};

use crate::acts::{close, opened, reply, start, timer, valid_outstanding};
use crate::blocks::{answer, nothing_changes, refuse};
use master::{
    End, Master, MasterActed, MasterAnswer, MasterState, Progress, Response, Reversal, Transmission,
};
use station::ReplyKind;

// After an opening, and closed.
pub(crate) fn fresh_reversal() -> Reversal
    ensures { result ≡ fresh_reversal }
{
    Reversal {
        last: ReplyKind::NoneYet,
        interrupted: false,
        enquired: false,
        may_receive: false,
    }
}

// Whether a RINT is no acceptance now.
fn refuses_by(kind: ReplyKind, enquired: bool) -> bool
    ensures { result ≡ refuses_by kind enquired }
{
    match kind {
        ReplyKind::NoneYet | ReplyKind::Ack => false,
        ReplyKind::Nak => enquired,
        ReplyKind::Rint => true,
    }
}

// Each undamaged reply is the last one then, whatever becomes of it.
fn note(response: Response, v: Reversal) -> Reversal
    ensures { result ≡ noted response v }
{
    match response {
        Response::Ack(_) => Reversal {
            last: ReplyKind::Ack,
            ..v
        },
        Response::Nak => Reversal {
            last: ReplyKind::Nak,
            ..v
        },
        Response::Eot | Response::Damaged => v,
        Response::Rint => Reversal {
            last: ReplyKind::Rint,
            interrupted: true,
            ..v
        },
    }
}

fn enq_last(send: Transmission, before: bool) -> bool
    ensures { result ≡ enq_last send before }
{
    match send {
        Transmission::Nothing => before,
        Transmission::SendBlock(_) | Transmission::SendEot => false,
        Transmission::SendEnq => true,
    }
}

// What stays: closed nothing, and with no block out neither ENQ nor the leave.
fn keep(master: Master, send: Transmission, v: Reversal) -> Reversal
    ensures { result ≡ kept master send v }
{
    match master {
        Master::Closed(_) => fresh_reversal(),
        Master::Idle(_) => Reversal {
            enquired: false,
            may_receive: false,
            ..v
        },
        Master::Waiting(_) => Reversal {
            enquired: enq_last(send, v.enquired),
            ..v
        },
    }
}

#[tactic(auto, unfolding(master::specs::Reversal::answer_of))]
fn answered(v: Reversal, acted: MasterActed) -> MasterAnswer
    ensures { result ≡ answer_of v acted }
{
    MasterAnswer {
        acted,
        reversal: keep(acted.master, acted.send, v),
    }
}

fn is_acknowledged(progress: Progress) -> bool
    ensures { result ≡ is_acknowledged progress }
{
    matches!(progress, Progress::Acknowledged | Progress::Done)
}

fn count_in(master: Master) -> u64
    ensures { result ≡ count_in master }
{
    match master {
        Master::Closed(count) | Master::Idle(count) => count,
        Master::Waiting(o) => o.count,
    }
}

// The driver may receive, and no block is out.
fn reversed(count: u64) -> MasterActed
    ensures { result ≡ master_acted (Closed count) SendEot NoProgress Reversed }
{
    answer(Master::Closed(count), Transmission::SendEot, End::Reversed)
}

// With leave to receive, EOT goes out when the block out is acknowledged.
#[tactic(auto, unfolding(master::specs::Reversal::reversed_of))]
fn reverse(v: Reversal, acted: MasterActed) -> MasterActed
    ensures { result ≡ reversed_of v acted }
{
    if v.may_receive && is_acknowledged(acted.progress) {
        MasterActed {
            progress: acted.progress,
            ..reversed(count_in(acted.master))
        }
    } else {
        acted
    }
}

pub(crate) fn opened_answer() -> MasterAnswer
    ensures { result ≡ opened_master_answer }
{
    answered(fresh_reversal(), opened())
}

pub(crate) fn start_answer(message_length: u64, block_size: u64, state: MasterState) -> MasterAnswer
    ensures { result ≡ start_answer message_length block_size state }
{
    answered(
        state.reversal,
        start(message_length, block_size, state.master),
    )
}

pub(crate) fn reply_answer(response: Response, state: MasterState) -> MasterAnswer
    ensures { result ≡ reply_answer response state }
{
    let MasterState {
        master,
        reversal: v,
    } = state;
    let acted = reply(refuses_by(v.last, v.enquired), response, master);
    answered(note(response, v), reverse(v, acted))
}

pub(crate) fn timer_answer(state: MasterState) -> MasterAnswer
    ensures { result ≡ timer_answer state }
{
    answered(state.reversal, timer(state.master))
}

pub(crate) fn close_answer(state: MasterState) -> MasterAnswer
    ensures { result ≡ close_answer state }
{
    answered(state.reversal, close(state.master))
}

// The driver enquires.
#[tactic(auto, unfolding(master::specs::Reversal::enquire_of))]
fn enquire(master: Master) -> MasterActed
    ensures { result ≡ enquire_of master }
{
    match master {
        Master::Waiting(o) if valid_outstanding(o) => {
            answer(master, Transmission::SendEnq, End::NotEnded)
        }
        _ => refuse(refusal::STATE, master),
    }
}

pub(crate) fn enquire_answer(state: MasterState) -> MasterAnswer
    ensures { result ≡ enquire_answer state }
{
    answered(state.reversal, enquire(state.master))
}

fn may_receive_now(master: Master, v: Reversal) -> MasterAnswer
    ensures { result ≡ may_receive_now master v }
{
    match master {
        Master::Idle(count) => answered(v, reversed(count)),
        Master::Waiting(o) if valid_outstanding(o) => {
            let allowed = Reversal {
                may_receive: true,
                ..v
            };
            answered(allowed, nothing_changes(master))
        }
        _ => answered(v, refuse(refusal::STATE, master)),
    }
}

// The driver may receive.
#[tactic(auto, unfolding(master::specs::Reversal::may_receive_of))]
pub(crate) fn may_receive(state: MasterState) -> MasterAnswer
    ensures { result ≡ may_receive_of state }
{
    let MasterState {
        master,
        reversal: v,
    } = state;
    if v.interrupted {
        may_receive_now(master, v)
    } else {
        answered(v, refuse(refusal::STATE, master))
    }
}

// Whether the last reply goes with what else is known.
fn heard(kind: ReplyKind, interrupted: bool, count: u64, offset: u64) -> bool
    ensures { result ≡ heard kind interrupted count offset }
{
    match kind {
        ReplyKind::NoneYet => !interrupted && count == 0 && offset == 0,
        ReplyKind::Ack | ReplyKind::Nak => true,
        ReplyKind::Rint => interrupted,
    }
}

// Whether a master and its reversal can stand together.
pub(crate) fn fits(master: Master, v: Reversal) -> bool
    ensures { result ≡ reversal_fits master v }
{
    let quiet = !v.enquired && !v.may_receive;
    match master {
        Master::Closed(_) => matches!(v.last, ReplyKind::NoneYet) && !v.interrupted && quiet,
        Master::Idle(count) => heard(v.last, v.interrupted, count, 0) && quiet,
        Master::Waiting(o) => {
            heard(v.last, v.interrupted, o.count, o.offset) && (v.interrupted || !v.may_receive)
        }
    }
}
