// Headers, answers and control messages.
ghost use Rattle.std.specs.Prelude.{◌≡◌, []};
ghost use Rattle.lists.specs.Outcome.{called};
ghost use Rattle.message_calls.specs.MessageCalls.{header_call, answer_call, answer_write_call, control_write_call};

use refusal::number_in;

// MSH-10 and MSH-13 of a message.
pub fn gmv_header_read(message: &[u8], header: &mut [u64]) -> u64
    ensures { called result [] [] header.new ≡ header_call message.now header.old }
{
    number_in(message_calls::read_header_words(message, header).err())
}

// MSA-1, MSA-2 and MSA-4 of an answer.
pub fn gmv_answer_read(message: &[u8], answer: &mut [u64]) -> u64
    ensures { called result [] [] answer.new ≡ answer_call message.now answer.old }
{
    number_in(message_calls::read_answer_words(message, answer).err())
}

// The answer to a request.
pub fn gmv_answer_write(
    control_id: &[u8],
    code: u64,
    number: u64,
    buffer: &mut [u8],
    start: usize,
    report: &mut [u64],
) -> u64
    ensures { called result [] buffer.new report.new ≡ answer_write_call control_id.now code number buffer.old start report.old }
{
    number_in(message_calls::write_answer_words(
        control_id, code, number, buffer, start, report,
    ).err())
}

// The sender's control message.
pub fn gmv_control_write(
    letters: &[u8],
    number: u64,
    buffer: &mut [u8],
    start: usize,
    report: &mut [u64],
) -> u64
    ensures { called result [] buffer.new report.new ≡ control_write_call letters.now number buffer.old start report.old }
{
    number_in(message_calls::write_control_words(letters, number, buffer, start, report).err())
}
