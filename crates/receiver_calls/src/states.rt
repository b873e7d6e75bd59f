// A receiver's state as words.
ghost use Rattle.std.specs.Prelude.{◌≡◌, ◌≤◌, length};
ghost use Rattle.lists.specs.Bytes.{over};
ghost use Rattle.receiver_calls.specs.ReceiverCalls.{receiver_words, open_in, receiver_in};

use crate::inputs::{code_from, code_word, number_from, number_word, optional_from, optional_word};
use control_id::ControlId;
use receiver::{Decision, Persisted, Receiver, Row};

// How many words a state has.
pub(crate) const RECEIVER_WORDS: usize = 9;

fn receiver_words(receiver: Receiver) -> [u64; RECEIVER_WORDS]
    ensures { result ≡ receiver_words receiver }
{
    let expected = optional_word(receiver.expected);
    match receiver.decision {
        None => [expected, 0, 0, 0, 0, 0, 0, 0, 0],
        Some(decision) => [
            expected,
            code_word(decision.row.code),
            number_word(decision.row.number),
            optional_word(decision.row.persisted.transaction),
            optional_word(decision.row.persisted.expected),
            decision.control_id.length,
            decision.control_id.first,
            decision.control_id.second,
            decision.control_id.third,
        ],
    }
}

// Writes over the first nine words.
#[tactic(auto, unfolding(lists::specs::Bytes::over))]
pub(crate) fn write_receiver(words: &mut [u64], receiver: Receiver)
    requires { 9 ≤ length words.old }
    ensures { words.new ≡ over words.old (receiver_words receiver) }
{
    words[..RECEIVER_WORDS].copy_from_slice(&receiver_words(receiver));
}

fn read_decision(words: &[u64]) -> Option<Decision>
    requires { 9 ≤ length words.now }
    ensures { result ≡ open_in words.now }
{
    let &[
        _,
        code,
        number,
        transaction,
        expected,
        length,
        first,
        second,
        third,
        ..
    ] = words
    else {
        unreachable!();
    };
    if code == 0 {
        return None;
    }
    Some(Decision {
        control_id: ControlId {
            length,
            first,
            second,
            third,
        },
        row: Row {
            code: code_from(code),
            number: number_from(number),
            persisted: Persisted {
                transaction: optional_from(transaction),
                expected: optional_from(expected),
            },
        },
    })
}

// The receiver that the words encode.
#[tactic(auto, unfolding(crate::specs::ReceiverCalls::receiver_in))]
pub(crate) fn read_receiver(words: &[u64]) -> Option<Receiver>
    requires { 9 ≤ length words.now }
    ensures { result ≡ receiver_in words.now }
{
    let &[expected, code, ..] = words else {
        unreachable!();
    };
    if 3 < code {
        return None;
    }
    Some(Receiver {
        expected: optional_from(expected),
        decision: read_decision(words),
    })
}
