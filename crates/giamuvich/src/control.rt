// The sender's control blocks.
ghost use Rattle.std.specs.Prelude.{◌≡◌, []};
ghost use Rattle.lists.specs.Outcome.{called};
ghost use Rattle.settings.specs.Settings.{hybrid_link, minimal_link};
ghost use Rattle.message_calls.specs.ControlCalls.{control_block_call};

use crate::unchecked::{unchecked_hybrid, unchecked_minimal};
use refusal::number_in;

pub fn gmv_hybrid_control_block(
    start_block: u64,
    end_block: u64,
    data_limit: u64,
    letters: &[u8],
    number: u64,
    buffer: &mut [u8],
    start: usize,
    report: &mut [u64],
) -> u64
    ensures { called result [] buffer.new report.new ≡ control_block_call (hybrid_link start_block end_block data_limit) letters.now number buffer.old start report.old }
{
    number_in(message_calls::control_block_words(
        unchecked_hybrid(start_block, end_block, data_limit),
        letters,
        number,
        buffer,
        start,
        report,
    )
    .err())
}

pub fn gmv_minimal_control_block(
    data_limit: u64,
    letters: &[u8],
    number: u64,
    buffer: &mut [u8],
    start: usize,
    report: &mut [u64],
) -> u64
    ensures { called result [] buffer.new report.new ≡ control_block_call (minimal_link data_limit) letters.now number buffer.old start report.old }
{
    number_in(message_calls::control_block_words(
        unchecked_minimal(data_limit),
        letters,
        number,
        buffer,
        start,
        report,
    )
    .err())
}
