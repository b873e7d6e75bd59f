// Blocks: reading a stream in parts, checking one whole block, writing one.
ghost use Rattle.block_calls.specs.CheckCalls.{check_call};
ghost use Rattle.block_calls.specs.ReadCalls.{fresh_reader_call, read_call};
ghost use Rattle.block_calls.specs.WriteCalls.{write_call, minimal_write_call};
ghost use Rattle.settings.specs.Settings.{hybrid_of, minimal_of};
ghost use Rattle.std.specs.Prelude.{◌≡◌, []};
ghost use Rattle.lists.specs.Outcome.{called};

use refusal::number_in;
use settings::Settings;

pub fn gmv_reader_fresh(state: &mut [u64]) -> u64
    ensures { called result state.new [] [] ≡ fresh_reader_call state.old }
{
    number_in(block_calls::fresh_words(state).err())
}

pub fn gmv_hybrid_read(
    start_block: u64,
    end_block: u64,
    data_limit: u64,
    state: &mut [u64],
    part: &[u8],
    buffer: &mut [u8],
    verdict: &mut [u64],
) -> u64
    ensures { called result state.new buffer.new verdict.new ≡ read_call (hybrid_of start_block end_block data_limit) state.old part.now buffer.old verdict.old }
{
    number_in(block_calls::read_words(
        Settings::hybrid(start_block, end_block, data_limit),
        state,
        part,
        buffer,
        verdict,
    )
    .err())
}

pub fn gmv_minimal_read(
    data_limit: u64,
    state: &mut [u64],
    part: &[u8],
    buffer: &mut [u8],
    verdict: &mut [u64],
) -> u64
    ensures { called result state.new buffer.new verdict.new ≡ read_call (minimal_of data_limit) state.old part.now buffer.old verdict.old }
{
    number_in(block_calls::read_words(
        Settings::minimal(data_limit),
        state,
        part,
        buffer,
        verdict,
    ).err())
}

pub fn gmv_hybrid_check(
    start_block: u64,
    end_block: u64,
    data_limit: u64,
    block: &[u8],
    verdict: &mut [u64],
) -> u64
    ensures { called result [] [] verdict.new ≡ check_call (hybrid_of start_block end_block data_limit) block.now verdict.old }
{
    number_in(block_calls::check_words(
        Settings::hybrid(start_block, end_block, data_limit),
        block,
        verdict,
    )
    .err())
}

pub fn gmv_minimal_check(data_limit: u64, block: &[u8], verdict: &mut [u64]) -> u64
    ensures { called result [] [] verdict.new ≡ check_call (minimal_of data_limit) block.now verdict.old }
{
    number_in(block_calls::check_words(Settings::minimal(data_limit), block, verdict).err())
}

pub fn gmv_hybrid_write(
    start_block: u64,
    end_block: u64,
    data_limit: u64,
    t: u64,
    content: &[u8],
    buffer: &mut [u8],
    start: usize,
    report: &mut [u64],
) -> u64
    ensures { called result [] buffer.new report.new ≡ write_call (hybrid_of start_block end_block data_limit) t content.now buffer.old start report.old }
{
    number_in(block_calls::write_words(
        Settings::hybrid(start_block, end_block, data_limit),
        t,
        content,
        buffer,
        start,
        report,
    )
    .err())
}

pub fn gmv_minimal_write(
    data_limit: u64,
    content: &[u8],
    buffer: &mut [u8],
    start: usize,
    report: &mut [u64],
) -> u64
    ensures { called result [] buffer.new report.new ≡ minimal_write_call (minimal_of data_limit) content.now buffer.old start report.old }
{
    number_in(block_calls::write_words(
        Settings::minimal(data_limit),
        b'D' as u64,
        content,
        buffer,
        start,
        report,
    )
    .err())
}
