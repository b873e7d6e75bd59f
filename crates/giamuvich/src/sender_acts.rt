// The sender's acts.
ghost use Rattle.std.specs.Prelude.{◌≡◌, []};
ghost use Rattle.lists.specs.Outcome.{called};
ghost use Rattle.sender_calls.specs.SenderCalls.{fresh_call, open_call, ended_call, reset_call, timer_call, block_call, submit_call};

// A new sender.
pub fn gmv_sender_fresh(first: u64, state: &mut [u64]) -> u64
    ensures { called result state.new [] [] ≡ fresh_call first state.old }
{
    refusal::number_in(sender_calls::fresh_sender_words(first, state).err())
}

// A transaction is submitted.
pub fn gmv_sender_submit(
    data_limit: u64,
    message: &[u8],
    state: &mut [u64],
    report: &mut [u64],
) -> u64
    ensures { called result state.new [] report.new ≡ submit_call data_limit message.now state.old report.old }
{
    refusal::number_in(sender_calls::submitted_words(data_limit, message, state, report).err())
}

// A circuit was opened.
pub fn gmv_sender_open(state: &mut [u64], report: &mut [u64]) -> u64
    ensures { called result state.new [] report.new ≡ open_call state.old report.old }
{
    refusal::number_in(sender_calls::opened_words(state, report).err())
}

// The circuit ended.
pub fn gmv_sender_ended(state: &mut [u64], report: &mut [u64]) -> u64
    ensures { called result state.new [] report.new ≡ ended_call state.old report.old }
{
    refusal::number_in(sender_calls::ended_words(state, report).err())
}

// An operator resets a frozen sender.
pub fn gmv_sender_reset(state: &mut [u64], report: &mut [u64]) -> u64
    ensures { called result state.new [] report.new ≡ reset_call state.old report.old }
{
    refusal::number_in(sender_calls::reset_words(state, report).err())
}

// The timer ran out.
pub fn gmv_sender_timer(resends: u64, state: &mut [u64], report: &mut [u64]) -> u64
    ensures { called result state.new [] report.new ≡ timer_call resends state.old report.old }
{
    refusal::number_in(sender_calls::timer_words(resends, state, report).err())
}

// A block was read on the circuit.
pub fn gmv_sender_block(
    resends: u64,
    block_number: u64,
    block_type: u64,
    content: &[u8],
    state: &mut [u64],
    report: &mut [u64],
) -> u64
    ensures { called result state.new [] report.new ≡ block_call resends block_number block_type content.now state.old report.old }
{
    refusal::number_in(sender_calls::block_words(
        resends,
        block_number,
        block_type,
        content,
        state,
        report,
    ).err())
}
