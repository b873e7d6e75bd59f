// Reading the fields of a message.
ghost use Rattle.std.specs.Prelude.{◌≡◌, []};
ghost use Rattle.lists.specs.Outcome.{called};
ghost use Rattle.refusal.specs.Refusal.{number_of, answer_by};
ghost use Rattle.message_calls.specs.MessageCalls.{kind_of, word_of, value_of, code_word, header_call, answer_call};

use fields::field_content;
use header::Code;
use numbers::{NumberError, SequenceNumber, read_number};
use refusal::Refusal;

fn kind_of(field: Result<SequenceNumber, NumberError>) -> u64
    ensures { result ≡ kind_of field }
{
    match field {
        Err(NumberError::Missing) => 0,
        Err(NumberError::NotNumber) => 1,
        Ok(_) => 2,
    }
}

fn word_of(number: SequenceNumber) -> u64
    ensures { result ≡ word_of number }
{
    match number {
        SequenceNumber::MinusOne => u64::MAX,
        SequenceNumber::Number(n) => n,
    }
}

fn value_of(field: Result<SequenceNumber, NumberError>) -> u64
    ensures { result ≡ value_of field }
{
    field.map_or(0, word_of)
}

fn code_word(field: Option<Code>) -> u64
    ensures { result ≡ code_word field }
{
    field.map_or(0, |code| code as u64 + 1)
}

// MSH-10 and MSH-13.
#[tactic(auto, unfolding(crate::specs::MessageCalls::header_call, lists::specs::Bytes::over))]
pub fn read_header_words(message: &[u8], words: &mut [u64]) -> Result<(), Refusal>
    ensures { (called (number_of result) [] [] words.new ≡ header_call message.now words.old) × (result ≡ answer_by (number_of result)) }
{
    if words.len() < 6 {
        return Err(Refusal::TOO_SHORT);
    }
    let header = header::read_header(message).ok_or(Refusal::HEAD)?;
    let number = read_number(
        field_content(message, header.sequence),
        SequenceNumber::GREATEST_SENT,
    );
    words[..6].copy_from_slice(&[
        header.control_id.start as u64,
        header.control_id.length as u64,
        header.sequence.start as u64,
        header.sequence.length as u64,
        kind_of(number),
        value_of(number),
    ]);
    Ok(())
}

// MSA-1, MSA-2 and MSA-4.
#[tactic(auto, unfolding(crate::specs::MessageCalls::answer_call, lists::specs::Bytes::over))]
pub fn read_answer_words(message: &[u8], words: &mut [u64]) -> Result<(), Refusal>
    ensures { (called (number_of result) [] [] words.new ≡ answer_call message.now words.old) × (result ≡ answer_by (number_of result)) }
{
    if words.len() < 9 {
        return Err(Refusal::TOO_SHORT);
    }
    let answer = header::read_acknowledgment(message).ok_or(Refusal::HEAD)?;
    let code = header::read_code(field_content(message, answer.code));
    let number = read_number(
        field_content(message, answer.expected),
        SequenceNumber::GREATEST_EXPECTED,
    );
    words[..9].copy_from_slice(&[
        answer.code.start as u64,
        answer.code.length as u64,
        code_word(code),
        answer.control_id.start as u64,
        answer.control_id.length as u64,
        answer.expected.start as u64,
        answer.expected.length as u64,
        kind_of(number),
        value_of(number),
    ]);
    Ok(())
}
