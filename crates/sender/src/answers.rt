// What an answer to the waiting message brings.
ghost use Rattle.std.specs.Prelude.{◌≡◌, ◌≤◌};
ghost use Rattle.numbers.specs.Numbers.{greatest_expected};
ghost use Rattle.sender.specs.Sender.{proceeds, freezes, delivered_of, answer_resynchronizing, answer_query, answer_transaction, answer_of};

use crate::state::{ValidSender, act, begin, end_circuit};
use crate::{Acted, Event, Persisted, Waiting};
use header::Code;
use numbers::{NumberError, SequenceNumber};

// The next transaction waits, if it has been submitted.
fn proceed(p: Persisted, event: Event) -> Acted
    requires { p.delivered ≤ greatest_expected }
    ensures { result ≡ proceeds p event }
{
    if p.delivered < p.last {
        begin(p, Waiting::Sending, 1, event)
    } else {
        begin(p, Waiting::Idle, 0, event)
    }
}

// One more transaction is delivered.
fn deliver(valid: ValidSender, event: Event) -> Acted
    ensures { result ≡ proceeds (delivered_of valid.sender.persisted) event }
{
    let p = valid.sender.persisted;
    let next = Persisted {
        delivered: p.delivered + 1,
        ..p
    };
    proceed(next, event)
}

fn freeze(p: Persisted) -> Acted
    ensures { result ≡ freezes p }
{
    let frozen = Persisted { frozen: true, ..p };
    end_circuit(frozen, 0, Event::Froze)
}

fn answer_resynchronizing(valid: ValidSender, code: Code, number: SequenceNumber) -> Acted
    ensures { result ≡ answer_resynchronizing valid.sender.persisted code number }
{
    let p = valid.sender.persisted;
    let (Code::AA, SequenceNumber::MinusOne) = (code, number) else {
        return freeze(p);
    };
    let synchronized = Persisted {
        resynchronized: true,
        ..p
    };
    proceed(synchronized, Event::NoEvent)
}

fn answer_query(valid: ValidSender, code: Code, number: SequenceNumber) -> Acted
    ensures { result ≡ answer_query valid.sender.persisted code number }
{
    let p = valid.sender.persisted;
    let waiting = p.delivered + 1;
    match (code, number) {
        (Code::AA, SequenceNumber::MinusOne) if p.delivered == p.first - 1 => {
            proceed(p, Event::NoEvent)
        }
        (Code::AA, SequenceNumber::Number(e)) if e == waiting => proceed(p, Event::NoEvent),
        (Code::AA, SequenceNumber::Number(e)) if e == waiting + 1 && p.delivered < p.last => {
            deliver(valid, Event::DeliveredUnknown(waiting))
        }
        _ => freeze(p),
    }
}

fn answer_transaction(valid: ValidSender, code: Code, number: SequenceNumber) -> Acted
    ensures { result ≡ answer_transaction valid.sender.persisted code number }
{
    let p = valid.sender.persisted;
    let waiting = p.delivered + 1;
    match (code, number) {
        (Code::AA | Code::AE, SequenceNumber::Number(e)) if e == waiting => {
            deliver(valid, Event::Delivered(waiting, code))
        }
        (Code::AR, SequenceNumber::Number(e)) if e == waiting + 1 => {
            deliver(valid, Event::DeliveredUnknown(waiting))
        }
        _ => freeze(p),
    }
}

// An answer to what waits: MSA-1 and MSA-4.
pub(crate) fn answer(
    valid: ValidSender,
    code: Option<Code>,
    number: Result<SequenceNumber, NumberError>,
) -> Acted
    ensures { result ≡ answer_of valid.sender code number }
{
    let sender = valid.sender;
    let (Some(known), Ok(present)) = (code, number) else {
        return freeze(sender.persisted);
    };
    match sender.waiting {
        Waiting::Closed | Waiting::Idle => act(sender, None, Event::NoEvent),
        Waiting::Resynchronizing => answer_resynchronizing(valid, known, present),
        Waiting::Querying => answer_query(valid, known, present),
        Waiting::Sending => answer_transaction(valid, known, present),
    }
}
