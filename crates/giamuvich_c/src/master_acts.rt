// The exports of giamuvich's functions in master_acts.rt.
ghost use Rattle.std.specs.Prelude.{◌≡◌, []};
ghost use Rattle.lists.specs.Outcome.{called};
ghost use Rattle.master.specs.MasterCalls.{fresh_master_call, open_master_call, start_call, master_reply_call, timer_a_call, close_call, enquire_call, may_receive_call};

// A master before its first opening.
#[unsafe(no_mangle)]
pub extern "C" fn gmv_master_fresh(state: &mut [u64]) -> u64
    ensures { called result state.new [] [] ≡ fresh_master_call state.old }
{
    giamuvich::gmv_master_fresh(state)
}

// The driver opened the master.
#[unsafe(no_mangle)]
pub extern "C" fn gmv_master_open(state: &mut [u64], report: &mut [u64]) -> u64
    ensures { called result state.new [] report.new ≡ open_master_call state.old report.old }
{
    giamuvich::gmv_master_open(state, report)
}

// The driver starts a message.
#[unsafe(no_mangle)]
pub extern "C" fn gmv_master_start(
    message_length: usize,
    block_size: u64,
    state: &mut [u64],
    report: &mut [u64],
) -> u64
    ensures { called result state.new [] report.new ≡ start_call message_length block_size state.old report.old }
{
    giamuvich::gmv_master_start(message_length, block_size, state, report)
}

// A reply arrived.
#[unsafe(no_mangle)]
pub extern "C" fn gmv_master_reply(
    reply: u64,
    number: u64,
    state: &mut [u64],
    report: &mut [u64],
) -> u64
    ensures { called result state.new [] report.new ≡ master_reply_call reply number state.old report.old }
{
    giamuvich::gmv_master_reply(reply, number, state, report)
}

// Timer A ran out.
#[unsafe(no_mangle)]
pub extern "C" fn gmv_master_timer(state: &mut [u64], report: &mut [u64]) -> u64
    ensures { called result state.new [] report.new ≡ timer_a_call state.old report.old }
{
    giamuvich::gmv_master_timer(state, report)
}

// The driver closes the master.
#[unsafe(no_mangle)]
pub extern "C" fn gmv_master_close(state: &mut [u64], report: &mut [u64]) -> u64
    ensures { called result state.new [] report.new ≡ close_call state.old report.old }
{
    giamuvich::gmv_master_close(state, report)
}

// The driver enquires.
#[unsafe(no_mangle)]
pub extern "C" fn gmv_master_enquire(state: &mut [u64], report: &mut [u64]) -> u64
    ensures { called result state.new [] report.new ≡ enquire_call state.old report.old }
{
    giamuvich::gmv_master_enquire(state, report)
}

// The driver may receive.
#[unsafe(no_mangle)]
pub extern "C" fn gmv_master_may_receive(state: &mut [u64], report: &mut [u64]) -> u64
    ensures { called result state.new [] report.new ≡ may_receive_call state.old report.old }
{
    giamuvich::gmv_master_may_receive(state, report)
}
