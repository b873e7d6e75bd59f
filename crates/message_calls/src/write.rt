// Writing a message.
ghost use Rattle.std.specs.Prelude.{◌≡◌, []};
ghost use Rattle.lists.specs.Outcome.{called};
ghost use Rattle.refusal.specs.Refusal.{number_of, answer_by};
ghost use Rattle.message_calls.specs.MessageCalls.{code_from, number_from, control_from, answer_write_call, control_write_call};

use header::Code;
use messages::{Control, MessageType};
use numbers::SequenceNumber;
use refusal::Refusal;
use words::report_written;

fn code_from(code: u64) -> Option<Code>
    ensures { result ≡ code_from code }
{
    match code {
        1 => Some(Code::AA),
        2 => Some(Code::AE),
        3 => Some(Code::AR),
        _ => None,
    }
}

fn number_from(number: u64) -> SequenceNumber
    ensures { result ≡ number_from number }
{
    match number {
        u64::MAX => SequenceNumber::MinusOne,
        _ => SequenceNumber::Number(number),
    }
}

pub(crate) fn control_from(number: u64) -> Option<Control>
    ensures { result ≡ control_from number }
{
    match number {
        0 => Some(Control::Query),
        u64::MAX => Some(Control::Resynchronize),
        _ => None,
    }
}

// The answer to a request.
#[tactic(auto, using(crate::proofs::Laws::finished), unfolding(crate::specs::MessageCalls::answer_write_call))]
pub fn write_answer_words(
    control_id: &[u8],
    code: u64,
    number: u64,
    buffer: &mut [u8],
    start: usize,
    report: &mut [u64],
) -> Result<(), Refusal>
    ensures { (called (number_of result) [] buffer.new report.new ≡ answer_write_call control_id.now code number buffer.old start report.old) × (result ≡ answer_by (number_of result)) }
{
    let code = code_from(code).ok_or(Refusal::SETTING)?;
    if report.len() < 2 {
        return Err(Refusal::TOO_SHORT);
    }
    let written = messages::write_answer(control_id, code, number_from(number), buffer, start);
    report_written(written, report)
}

// The sender's control message.
#[tactic(auto, unfolding(crate::specs::MessageCalls::control_write_call, messages::specs::Write::write_control_of, words::specs::Words::write_finished))]
pub fn write_control_words(
    letters: &[u8],
    number: u64,
    buffer: &mut [u8],
    start: usize,
    report: &mut [u64],
) -> Result<(), Refusal>
    ensures { (called (number_of result) [] buffer.new report.new ≡ control_write_call letters.now number buffer.old start report.old) × (result ≡ answer_by (number_of result)) }
{
    let name = MessageType::from_letters(letters).ok_or(Refusal::SETTING)?;
    let control = control_from(number).ok_or(Refusal::SETTING)?;
    if report.len() < 2 {
        return Err(Refusal::TOO_SHORT);
    }
    let length = messages::write_control(name, control, buffer, start)?;
    words::write_report(report, length, 0);
    Ok(())
}
