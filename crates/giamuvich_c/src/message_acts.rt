// The exports of giamuvich's functions in message_acts.rt.
ghost use Rattle.std.specs.Prelude.{◌≡◌, []};
ghost use Rattle.lists.specs.Outcome.{called};
ghost use Rattle.message_calls.specs.MessageCalls.{header_call, answer_call, answer_write_call, control_write_call};

// MSH-10 and MSH-13 of a message.
#[unsafe(no_mangle)]
pub extern "C" fn gmv_header_read(message: &[u8], header: &mut [u64]) -> u64
    ensures { called result [] [] header.new ≡ header_call message.now header.old }
{
    giamuvich::gmv_header_read(message, header)
}

// MSA-1, MSA-2 and MSA-4 of an answer.
#[unsafe(no_mangle)]
pub extern "C" fn gmv_answer_read(message: &[u8], answer: &mut [u64]) -> u64
    ensures { called result [] [] answer.new ≡ answer_call message.now answer.old }
{
    giamuvich::gmv_answer_read(message, answer)
}

// The answer to a request.
#[unsafe(no_mangle)]
pub extern "C" fn gmv_answer_write(
    control_id: &[u8],
    code: u64,
    number: u64,
    buffer: &mut [u8],
    start: usize,
    report: &mut [u64],
) -> u64
    ensures { called result [] buffer.new report.new ≡ answer_write_call control_id.now code number buffer.old start report.old }
{
    giamuvich::gmv_answer_write(control_id, code, number, buffer, start, report)
}

// The sender's control message.
#[unsafe(no_mangle)]
pub extern "C" fn gmv_control_write(
    letters: &[u8],
    number: u64,
    buffer: &mut [u8],
    start: usize,
    report: &mut [u64],
) -> u64
    ensures { called result [] buffer.new report.new ≡ control_write_call letters.now number buffer.old start report.old }
{
    giamuvich::gmv_control_write(letters, number, buffer, start, report)
}
