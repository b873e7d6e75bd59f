// Which states there are, and what an act makes of them.
ghost use Rattle.std.specs.Prelude.{◌≡◌, ◌≤◌, true};
ghost use Rattle.numbers.specs.Numbers.{greatest_expected};
ghost use Rattle.sender.specs.Sender.{valid_persisted, valid_waiting, valid_sender, sender_of, acted, refused, no_state, waits_of, waiting_message, first_sends, begins_to_wait, is_open, on_circuit};
ghost use Rattle.sender.specs.Internal.{Bounded, ends_with};

use crate::{Acted, Event, Persisted, Sender, SenderSettings, Waiting};
use numbers::SequenceNumber;

// A sender that was found to be in a state: nothing in it can overflow.
#[derive(Clone, Copy)]
pub(crate) struct ValidSender {
    pub(crate) sender: Sender,
    ghost bounded: { Bounded sender },
}

fn is_persisted(p: Persisted) -> bool
    ensures { result ≡ valid_persisted p }
{
    if !(1..=SequenceNumber::GREATEST_SENT).contains(&p.first) {
        return false;
    }
    let before = p.first - 1;
    let delivered_ok = (before..=p.last).contains(&p.delivered);
    let last_ok = p.last <= SequenceNumber::GREATEST_SENT;
    delivered_ok & last_ok & (p.resynchronized | (p.delivered == before))
}

fn is_waiting(p: Persisted, waiting: Waiting, n: u64) -> bool
    ensures { result ≡ valid_waiting p waiting n }
{
    let synchronized = !p.frozen & p.resynchronized;
    let sent = (1..=SenderSettings::LARGEST_RESENDS + 1).contains(&n);
    match waiting {
        Waiting::Closed => n == 0,
        Waiting::Idle => synchronized & ((p.delivered == p.last) & (n == 0)),
        Waiting::Resynchronizing => (!p.frozen & !p.resynchronized) & sent,
        Waiting::Querying => synchronized & sent,
        Waiting::Sending => synchronized & ((p.delivered < p.last) & sent),
    }
}

// Every state that a run of acts can reach is one.
#[tactic(auto, unfolding(crate::specs::Sender::valid_sender))]
pub(crate) fn is_state(sender: Sender) -> bool
    ensures is { result ≡ valid_sender sender }
    ensures bounded { result ≡ true → Bounded sender }
{
    let persisted = sender.persisted;
    is_persisted(persisted) & is_waiting(persisted, sender.waiting, sender.sends)
}

// A sender with nothing submitted; none where the settings are not valid, which callers refuse by 1.
#[tactic(auto, unfolding(crate::specs::Sender::sender_of))]
pub fn new_sender(settings: SenderSettings) -> Option<Sender>
    ensures { result ≡ sender_of settings }
{
    if !settings.is_valid() {
        return None;
    }
    let first = settings.first;
    Some(Sender {
        persisted: Persisted {
            first,
            delivered: first - 1,
            last: first - 1,
            resynchronized: false,
            frozen: false,
        },
        waiting: Waiting::Closed,
        sends: 0,
    })
}

// The message that waits for its answer.
pub(crate) fn waiting_message(sender: Sender) -> Option<SequenceNumber>
    requires { sender.persisted.delivered ≤ greatest_expected }
    ensures { result ≡ waits_of sender }
{
    let p = sender.persisted;
    match sender.waiting {
        Waiting::Closed | Waiting::Idle => None,
        Waiting::Resynchronizing => Some(SequenceNumber::MinusOne),
        Waiting::Querying => Some(SequenceNumber::Number(0)),
        Waiting::Sending => Some(SequenceNumber::Number(p.delivered + 1)),
    }
}

pub(crate) fn is_open(waiting: Waiting) -> bool
    ensures { result ≡ is_open waiting }
{
    !matches!(waiting, Waiting::Closed)
}

pub(crate) fn is_on_circuit(sender: Sender) -> bool
    ensures is { result ≡ on_circuit sender }
    ensures bounded { result ≡ true → Bounded sender }
{
    is_state(sender) & is_open(sender.waiting)
}

pub(crate) fn act(sender: Sender, send: Option<SequenceNumber>, event: Event) -> Acted
    ensures { result ≡ acted sender send event }
{
    Acted {
        refusal: 0,
        sender,
        send,
        sends: sender.sends,
        event,
        block: 0,
        offset: 0,
    }
}

// Something begins to wait, and is sent once; with nothing to send, no send is made.
pub(crate) fn begin(p: Persisted, waiting: Waiting, sends: u64, event: Event) -> Acted
    requires delivered_le_greatest_expected { p.delivered ≤ greatest_expected }
    requires sends_value { sends ≡ first_sends (waiting_message p waiting) }
    ensures { result ≡ begins_to_wait p waiting event }
{
    let next = Sender {
        persisted: p,
        waiting,
        sends,
    };
    act(next, waiting_message(next), event)
}

// The circuit ends. The sends are those of a message that is given up.
pub(crate) fn end_circuit(p: Persisted, sends: u64, event: Event) -> Acted
    ensures { result ≡ ends_with p sends event }
{
    let closed = Sender {
        persisted: p,
        waiting: Waiting::Closed,
        sends: 0,
    };
    Acted {
        sends,
        ..act(closed, None, event)
    }
}

pub(crate) fn refuse(number: u64, offset: usize, sender: Sender) -> Acted
    ensures { result ≡ refused number offset sender }
{
    Acted {
        refusal: number,
        offset,
        ..act(sender, None, Event::NoEvent)
    }
}

// What is no state.
pub(crate) fn refuse_state(sender: Sender) -> Acted
    ensures { result ≡ no_state sender }
{
    Acted {
        sends: 0,
        ..refuse(refusal::STATE, 0, sender)
    }
}
