// Numbers from C, and words, as values.
ghost use Rattle.std.specs.Prelude.{◌≡◌};
ghost use Rattle.receiver_calls.specs.ReceiverCalls.{expected_word, expected_from, code_word, code_from, number_word, number_from, transaction_word, transaction_from, application_from, is_type, outcome_from};

use header::Code;
use numbers::SequenceNumber;
use receiver::Application;

const DATA_BLOCK: u64 = 68;

const NAK_BLOCK: u64 = 78;

// The word of an expected number, and of a transaction's: 0 is none.
pub(crate) fn optional_word(number: Option<u64>) -> u64
    ensures { (result ≡ expected_word number) × (result ≡ transaction_word number) }
{
    number.unwrap_or(0)
}

pub(crate) fn optional_from(word: u64) -> Option<u64>
    ensures { (result ≡ expected_from word) × (result ≡ transaction_from word) }
{
    match word {
        0 => None,
        _ => Some(word),
    }
}

pub(crate) fn code_word(code: Code) -> u64
    ensures { result ≡ code_word code }
{
    code as u64 + 1
}

pub(crate) fn code_from(word: u64) -> Code
    ensures { result ≡ code_from word }
{
    match word {
        1 => Code::AA,
        2 => Code::AE,
        _ => Code::AR,
    }
}

pub(crate) fn number_word(number: SequenceNumber) -> u64
    ensures { result ≡ number_word number }
{
    match number {
        SequenceNumber::MinusOne => 0,
        SequenceNumber::Number(n) => n,
    }
}

pub(crate) fn number_from(word: u64) -> SequenceNumber
    ensures { result ≡ number_from word }
{
    match word {
        0 => SequenceNumber::MinusOne,
        _ => SequenceNumber::Number(word),
    }
}

pub(crate) fn application_from(code: u64) -> Option<Application>
    ensures { result ≡ application_from code }
{
    match code {
        1 => Some(Application::Accepts),
        2 => Some(Application::Errs),
        _ => None,
    }
}

pub(crate) fn is_type(block_type: u64) -> bool
    ensures { result ≡ is_type block_type }
{
    matches!(block_type, DATA_BLOCK | NAK_BLOCK)
}

pub(crate) fn outcome_from(stored: u64) -> Option<bool>
    ensures { result ≡ outcome_from stored }
{
    match stored {
        1 => Some(true),
        0 => Some(false),
        _ => None,
    }
}
