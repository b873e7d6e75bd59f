// The receiver.
ghost use Rattle.std.specs.Prelude.{◌≡◌, []};
ghost use Rattle.lists.specs.Outcome.{called};
ghost use Rattle.settings.specs.Settings.{hybrid_link, minimal_link};
ghost use Rattle.receiver_calls.specs.ReceiverCalls.{fresh_call, decide_call, answer_call, nak_call};

use crate::unchecked::{unchecked_hybrid, unchecked_minimal};

pub fn gmv_receiver_fresh(state: &mut [u64]) -> u64
    ensures { called result state.new [] [] ≡ fresh_call state.old }
{
    refusal::number_in(receiver_calls::fresh_receiver_words(state).err())
}

pub fn gmv_receiver_decide(
    application: u64,
    block_type: u64,
    content: &[u8],
    state: &mut [u64],
    report: &mut [u64],
) -> u64
    ensures { called result state.new [] report.new ≡ decide_call application block_type content.now state.old report.old }
{
    refusal::number_in(receiver_calls::decide_words(
        application,
        block_type,
        content,
        state,
        report,
    ).err())
}

pub fn gmv_hybrid_answer(
    start_block: u64,
    end_block: u64,
    data_limit: u64,
    stored: u64,
    state: &mut [u64],
    buffer: &mut [u8],
    start: usize,
    report: &mut [u64],
) -> u64
    ensures { called result state.new buffer.new report.new ≡ answer_call (hybrid_link start_block end_block data_limit) stored state.old buffer.old start report.old }
{
    refusal::number_in(receiver_calls::answer_words(
        unchecked_hybrid(start_block, end_block, data_limit),
        stored,
        state,
        buffer,
        start,
        report,
    )
    .err())
}

pub fn gmv_minimal_answer(
    data_limit: u64,
    stored: u64,
    state: &mut [u64],
    buffer: &mut [u8],
    start: usize,
    report: &mut [u64],
) -> u64
    ensures { called result state.new buffer.new report.new ≡ answer_call (minimal_link data_limit) stored state.old buffer.old start report.old }
{
    refusal::number_in(receiver_calls::answer_words(
        unchecked_minimal(data_limit),
        stored,
        state,
        buffer,
        start,
        report,
    )
    .err())
}

pub fn gmv_hybrid_nak(
    start_block: u64,
    end_block: u64,
    data_limit: u64,
    block_number: u64,
    state: &[u64],
    buffer: &mut [u8],
    start: usize,
    report: &mut [u64],
) -> u64
    ensures { called result [] buffer.new report.new ≡ nak_call (hybrid_link start_block end_block data_limit) block_number state.now buffer.old start report.old }
{
    refusal::number_in(receiver_calls::nak_words(
        unchecked_hybrid(start_block, end_block, data_limit),
        block_number,
        state,
        buffer,
        start,
        report,
    )
    .err())
}
