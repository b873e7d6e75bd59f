// The exports of giamuvich's functions in sender_acts.rt.
ghost use Rattle.std.specs.Prelude.{◌≡◌, []};
ghost use Rattle.lists.specs.Outcome.{called};
ghost use Rattle.sender_calls.specs.SenderCalls.{fresh_call, open_call, ended_call, reset_call, timer_call, block_call, submit_call};

// A new sender.
#[unsafe(no_mangle)]
pub extern "C" fn gmv_sender_fresh(first: u64, state: &mut [u64]) -> u64
    ensures { called result state.new [] [] ≡ fresh_call first state.old }
{
    giamuvich::gmv_sender_fresh(first, state)
}

// A transaction is submitted.
#[unsafe(no_mangle)]
pub extern "C" fn gmv_sender_submit(
    data_limit: u64,
    message: &[u8],
    state: &mut [u64],
    report: &mut [u64],
) -> u64
    ensures { called result state.new [] report.new ≡ submit_call data_limit message.now state.old report.old }
{
    giamuvich::gmv_sender_submit(data_limit, message, state, report)
}

// A circuit was opened.
#[unsafe(no_mangle)]
pub extern "C" fn gmv_sender_open(state: &mut [u64], report: &mut [u64]) -> u64
    ensures { called result state.new [] report.new ≡ open_call state.old report.old }
{
    giamuvich::gmv_sender_open(state, report)
}

// The circuit ended.
#[unsafe(no_mangle)]
pub extern "C" fn gmv_sender_ended(state: &mut [u64], report: &mut [u64]) -> u64
    ensures { called result state.new [] report.new ≡ ended_call state.old report.old }
{
    giamuvich::gmv_sender_ended(state, report)
}

// An operator resets a frozen sender.
#[unsafe(no_mangle)]
pub extern "C" fn gmv_sender_reset(state: &mut [u64], report: &mut [u64]) -> u64
    ensures { called result state.new [] report.new ≡ reset_call state.old report.old }
{
    giamuvich::gmv_sender_reset(state, report)
}

// The timer ran out.
#[unsafe(no_mangle)]
pub extern "C" fn gmv_sender_timer(resends: u64, state: &mut [u64], report: &mut [u64]) -> u64
    ensures { called result state.new [] report.new ≡ timer_call resends state.old report.old }
{
    giamuvich::gmv_sender_timer(resends, state, report)
}

// A block was read on the circuit.
#[unsafe(no_mangle)]
pub extern "C" fn gmv_sender_block(
    resends: u64,
    block_number: u64,
    block_type: u64,
    content: &[u8],
    state: &mut [u64],
    report: &mut [u64],
) -> u64
    ensures { called result state.new [] report.new ≡ block_call resends block_number block_type content.now state.old report.old }
{
    giamuvich::gmv_sender_block(resends, block_number, block_type, content, state, report)
}
