// Submitting a transaction.
ghost use Rattle.std.specs.Prelude.{◌≡◌};
ghost use Rattle.header.specs.Header.{header_of};
ghost use Rattle.sender.specs.Sender.{taken_in, submitted_header, submit_of};

use crate::state::{ValidSender, act, begin, is_state, refuse, refuse_state};
use crate::{Acted, Event, Sender, Waiting};
use fields::field_content;
use numbers::{SequenceNumber, read_number};
use settings::Settings;

// What waits goes on waiting; a circuit with nothing waiting sends the transaction at once.
fn take(valid: ValidSender) -> Acted
    ensures { result ≡ taken_in valid.sender valid.sender.waiting }
{
    let mut next = valid.sender;
    next.persisted.last += 1;
    let Waiting::Idle = next.waiting else {
        return act(next, None, Event::NoEvent);
    };
    begin(next.persisted, Waiting::Sending, 1, Event::NoEvent)
}

fn submit_header(valid: ValidSender, message: &[u8]) -> Acted
    ensures { result ≡ submitted_header valid.sender message.now (header_of message.now) }
{
    let sender = valid.sender;
    let Some(header) = header::read_header(message) else {
        return refuse(refusal::HEAD, 0, sender);
    };
    let next = SequenceNumber::Number(sender.persisted.last + 1);
    let number = read_number(
        field_content(message, header.sequence),
        SequenceNumber::GREATEST_SENT,
    );
    let decimal = numbers::is_text(field_content(message, header.control_id), next);
    let is_next = (number == Ok(next)) & decimal;
    if !is_next {
        return refuse(refusal::NUMBER, 0, sender);
    }
    take(valid)
}

// A transaction is submitted: the message with the next number.
#[tactic(auto, unfolding(crate::specs::Sender::submit_of))]
pub fn submit_transaction(data_limit: usize, sender: Sender, message: &[u8]) -> Acted
    ensures { result ≡ submit_of data_limit sender message.now }
{
    if !Settings::is_link_limit(data_limit) {
        return refuse(refusal::SETTING, 0, sender);
    }
    if !is_state(sender) {
        return refuse_state(sender);
    }
    if sender.persisted.frozen {
        return refuse(refusal::STATE, 0, sender);
    }
    if data_limit < message.len() {
        return refuse(refusal::LONG, 0, sender);
    }
    if !settings::are_allowed(message) {
        return refuse(refusal::BYTE, settings::first_forbidden(message), sender);
    }
    submit_header(ValidSender { sender }, message)
}
