// An act's answer as words.
ghost use Rattle.std.specs.Prelude.{◌≡◌, ◌≤◌, length};
ghost use Rattle.lists.specs.Bytes.{over};
ghost use Rattle.sender_calls.specs.SenderCalls.{send_words, event_words, act_words};

use numbers::SequenceNumber;
use sender::{Acted, Event};

// How many words a report has.
pub(crate) const REPORT_WORDS: usize = 8;

fn send_words(send: Option<SequenceNumber>) -> [u64; 2]
    ensures { result ≡ send_words send }
{
    match send {
        None => [0, 0],
        Some(SequenceNumber::MinusOne) => [1, 0],
        Some(SequenceNumber::Number(0)) => [2, 0],
        Some(SequenceNumber::Number(n)) => [3, n],
    }
}

fn event_words(event: Event) -> [u64; 3]
    ensures { result ≡ event_words event }
{
    match event {
        Event::NoEvent => [0, 0, 0],
        // In the driver's words the codes count from 1.
        Event::Delivered(delivered, code) => [1, delivered, code as u64 + 1],
        Event::DeliveredUnknown(delivered) => [1, delivered, 0],
        Event::Abandoned => [2, 0, 0],
        Event::Froze => [3, 0, 0],
        Event::Dropped => [4, 0, 0],
    }
}

// Writes over the first eight words.
#[tactic(auto, unfolding(lists::specs::Bytes::over))]
pub(crate) fn write_report(words: &mut [u64], acted: Acted)
    requires { 8 ≤ length words.old }
    ensures { words.new ≡ over words.old (act_words acted) }
{
    let [send, number] = send_words(acted.send);
    let [event, delivered, code] = event_words(acted.event);
    let report = [
        send,
        number,
        acted.sends,
        event,
        delivered,
        code,
        acted.block,
        acted.offset as u64,
    ];
    words[..REPORT_WORDS].copy_from_slice(&report);
}
