// The reverse interrupt, and the answer to a bare ENQ: the last reply is kept.
ghost use Rattle.std.specs.Prelude.{◌≡◌};
ghost use Rattle.station.specs.Interrupt.{fresh_turn, acknowledging, turn_after, ack_given, reply_given, turn_then, answered_of, opened_station_answer, last_reply, bare_enq_of, asked_when, interrupt_of};

use crate::block_number::{BlockNumber, LAST_NUMBER};
use crate::units::{answer, refuse_station, station_opened};
use station::{Acted, Interrupt, Reply, ReplyKind, Station, StationAnswer, StationState, Turn};

// Since an opening no reply was given, and no RINT is asked for.
pub(crate) fn fresh_turn() -> Turn
    ensures { result ≡ fresh_turn }
{
    Turn {
        last: ReplyKind::NoneYet,
        interrupt: Interrupt::Unasked,
    }
}

// After an ACK another RINT may be asked for.
fn after_ack(interrupt: Interrupt) -> Interrupt
    ensures { result ≡ acknowledging interrupt }
{
    match interrupt {
        Interrupt::Unasked | Interrupt::Given => Interrupt::Unasked,
        Interrupt::Pending => Interrupt::Pending,
    }
}

// What is kept after a reply.
#[tactic(auto, unfolding(station::specs::Interrupt::turn_after))]
fn turn_after(reply: Reply, turn: Turn) -> Turn
    ensures { result ≡ turn_after reply turn }
{
    match reply {
        Reply::NoReply => turn,
        Reply::Ack(_) => Turn {
            last: ReplyKind::Ack,
            interrupt: after_ack(turn.interrupt),
        },
        Reply::Nak => Turn {
            last: ReplyKind::Nak,
            ..turn
        },
        Reply::Eot => fresh_turn(),
        Reply::Rint => Turn {
            last: ReplyKind::Rint,
            interrupt: Interrupt::Given,
        },
    }
}

// RINT stands in for the ACK with the expected number only: that of a duplicate has another.
fn ack_given(expected: u64, n: u64, interrupt: Interrupt) -> Reply
    ensures { result ≡ ack_given expected n interrupt }
{
    match interrupt {
        Interrupt::Pending if n == expected => Reply::Rint,
        _ => Reply::Ack(n),
    }
}

#[tactic(auto, unfolding(station::specs::Interrupt::reply_given))]
fn reply_given(station: Station, reply: Reply, interrupt: Interrupt) -> Reply
    ensures { result ≡ reply_given station reply interrupt }
{
    match (station, reply) {
        (Station::Open(expected, _), Reply::Ack(n)) => ack_given(expected, n, interrupt),
        _ => reply,
    }
}

// A closed station keeps nothing.
#[tactic(auto, unfolding(station::specs::Interrupt::turn_then))]
fn turn_then(station: Station, reply: Reply, turn: Turn) -> Turn
    ensures { result ≡ turn_then station reply turn }
{
    match station {
        Station::Closed => fresh_turn(),
        Station::Open(_, _) => turn_after(reply, turn),
    }
}

// What the station answers, with the reply that is given in the end.
#[tactic(auto, unfolding(station::specs::Interrupt::answered_of))]
pub(crate) fn answered(state: StationState, acted: Acted) -> StationAnswer
    ensures { result ≡ answered_of state acted }
{
    let reply = reply_given(state.station, acted.reply, state.turn.interrupt);
    StationAnswer {
        acted: Acted { reply, ..acted },
        turn: turn_then(acted.station, reply, state.turn),
    }
}

// The driver opened the station, whatever it was.
pub(crate) fn opened() -> StationAnswer
    ensures { result ≡ opened_station_answer }
{
    StationAnswer {
        acted: station_opened(),
        turn: fresh_turn(),
    }
}

fn last_reply(expected: BlockNumber, kind: ReplyKind) -> Reply
    ensures { result ≡ last_reply expected.value kind }
{
    match kind {
        ReplyKind::NoneYet => Reply::Nak,
        ReplyKind::Ack => Reply::Ack(expected.before()),
        ReplyKind::Nak => Reply::Nak,
        ReplyKind::Rint => Reply::Rint,
    }
}

// A bare ENQ was received.
#[tactic(auto, unfolding(station::specs::Interrupt::bare_enq_of))]
pub(crate) fn bare_enq(state: StationState) -> StationAnswer
    ensures { result ≡ bare_enq_of state }
{
    let StationState { station, turn } = state;
    match station {
        Station::Closed => StationAnswer {
            acted: answer(station, Reply::NoReply),
            turn: fresh_turn(),
        },
        Station::Open(expected, _) => match BlockNumber::new(expected) {
            None => StationAnswer {
                acted: refuse_station(station),
                turn,
            },
            Some(expected) => {
                let reply = last_reply(expected, turn.last);
                StationAnswer {
                    acted: answer(station, reply),
                    turn: turn_after(reply, turn),
                }
            }
        },
    }
}

fn asked(station: Station, turn: Turn) -> StationAnswer
    ensures { result ≡ asked_when station turn.last turn.interrupt }
{
    match turn.interrupt {
        Interrupt::Unasked => StationAnswer {
            acted: answer(station, Reply::NoReply),
            turn: Turn {
                interrupt: Interrupt::Pending,
                ..turn
            },
        },
        Interrupt::Pending | Interrupt::Given => StationAnswer {
            acted: refuse_station(station),
            turn,
        },
    }
}

// The driver asks for a RINT.
#[tactic(auto, unfolding(station::specs::Interrupt::interrupt_of))]
pub(crate) fn interrupt(state: StationState) -> StationAnswer
    ensures { result ≡ interrupt_of state }
{
    let StationState { station, turn } = state;
    match station {
        Station::Closed => StationAnswer {
            acted: refuse_station(station),
            turn: fresh_turn(),
        },
        Station::Open(expected, _) if LAST_NUMBER < expected => StationAnswer {
            acted: refuse_station(station),
            turn,
        },
        Station::Open(_, _) => asked(station, turn),
    }
}
