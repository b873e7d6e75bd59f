// The exports of giamuvich's functions in blocks.rt.
ghost use Rattle.block_calls.specs.CheckCalls.{check_call};
ghost use Rattle.block_calls.specs.ReadCalls.{fresh_reader_call, read_call};
ghost use Rattle.block_calls.specs.WriteCalls.{write_call, minimal_write_call};
ghost use Rattle.settings.specs.Settings.{hybrid_of, minimal_of};
ghost use Rattle.std.specs.Prelude.{◌≡◌, []};
ghost use Rattle.lists.specs.Outcome.{called};

#[unsafe(no_mangle)]
pub extern "C" fn gmv_reader_fresh(state: &mut [u64]) -> u64
    ensures { called result state.new [] [] ≡ fresh_reader_call state.old }
{
    giamuvich::gmv_reader_fresh(state)
}

#[unsafe(no_mangle)]
pub extern "C" fn gmv_hybrid_read(
    start_block: u64,
    end_block: u64,
    data_limit: u64,
    state: &mut [u64],
    part: &[u8],
    buffer: &mut [u8],
    verdict: &mut [u64],
) -> u64
    ensures { called result state.new buffer.new verdict.new ≡ read_call (hybrid_of start_block end_block data_limit) state.old part.now buffer.old verdict.old }
{
    giamuvich::gmv_hybrid_read(
        start_block,
        end_block,
        data_limit,
        state,
        part,
        buffer,
        verdict,
    )
}

#[unsafe(no_mangle)]
pub extern "C" fn gmv_minimal_read(
    data_limit: u64,
    state: &mut [u64],
    part: &[u8],
    buffer: &mut [u8],
    verdict: &mut [u64],
) -> u64
    ensures { called result state.new buffer.new verdict.new ≡ read_call (minimal_of data_limit) state.old part.now buffer.old verdict.old }
{
    giamuvich::gmv_minimal_read(data_limit, state, part, buffer, verdict)
}

#[unsafe(no_mangle)]
pub extern "C" fn gmv_hybrid_check(
    start_block: u64,
    end_block: u64,
    data_limit: u64,
    block: &[u8],
    verdict: &mut [u64],
) -> u64
    ensures { called result [] [] verdict.new ≡ check_call (hybrid_of start_block end_block data_limit) block.now verdict.old }
{
    giamuvich::gmv_hybrid_check(start_block, end_block, data_limit, block, verdict)
}

#[unsafe(no_mangle)]
pub extern "C" fn gmv_minimal_check(data_limit: u64, block: &[u8], verdict: &mut [u64]) -> u64
    ensures { called result [] [] verdict.new ≡ check_call (minimal_of data_limit) block.now verdict.old }
{
    giamuvich::gmv_minimal_check(data_limit, block, verdict)
}

#[unsafe(no_mangle)]
pub extern "C" fn gmv_hybrid_write(
    start_block: u64,
    end_block: u64,
    data_limit: u64,
    t: u64,
    content: &[u8],
    buffer: &mut [u8],
    start: usize,
    report: &mut [u64],
) -> u64
    ensures { called result [] buffer.new report.new ≡ write_call (hybrid_of start_block end_block data_limit) t content.now buffer.old start report.old }
{
    giamuvich::gmv_hybrid_write(
        start_block,
        end_block,
        data_limit,
        t,
        content,
        buffer,
        start,
        report,
    )
}

#[unsafe(no_mangle)]
pub extern "C" fn gmv_minimal_write(
    data_limit: u64,
    content: &[u8],
    buffer: &mut [u8],
    start: usize,
    report: &mut [u64],
) -> u64
    ensures { called result [] buffer.new report.new ≡ minimal_write_call (minimal_of data_limit) content.now buffer.old start report.old }
{
    giamuvich::gmv_minimal_write(data_limit, content, buffer, start, report)
}
