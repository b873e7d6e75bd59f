// The X3.28 sending station, the master.
ghost use Rattle.std.specs.Prelude.{◌≡◌, []};
ghost use Rattle.lists.specs.Outcome.{called};
ghost use Rattle.master.specs.MasterCalls.{fresh_master_call, open_master_call, start_call, master_reply_call, timer_a_call, close_call, enquire_call, may_receive_call};

// A master before its first opening.
pub fn gmv_master_fresh(state: &mut [u64]) -> u64
    ensures { called result state.new [] [] ≡ fresh_master_call state.old }
{
    refusal::number_in(master_calls::fresh_master_words(state).err())
}

// The driver opened the master.
pub fn gmv_master_open(state: &mut [u64], report: &mut [u64]) -> u64
    ensures { called result state.new [] report.new ≡ open_master_call state.old report.old }
{
    refusal::number_in(master_calls::opened_master_words(state, report).err())
}

// The driver starts a message.
pub fn gmv_master_start(
    message_length: usize,
    block_size: u64,
    state: &mut [u64],
    report: &mut [u64],
) -> u64
    ensures { called result state.new [] report.new ≡ start_call message_length block_size state.old report.old }
{
    refusal::number_in(master_calls::start_words(message_length, block_size, state, report).err())
}

// A reply arrived.
pub fn gmv_master_reply(reply: u64, number: u64, state: &mut [u64], report: &mut [u64]) -> u64
    ensures { called result state.new [] report.new ≡ master_reply_call reply number state.old report.old }
{
    refusal::number_in(master_calls::reply_words(reply, number, state, report).err())
}

// Timer A ran out.
pub fn gmv_master_timer(state: &mut [u64], report: &mut [u64]) -> u64
    ensures { called result state.new [] report.new ≡ timer_a_call state.old report.old }
{
    refusal::number_in(master_calls::timer_words(state, report).err())
}

// The driver closes the master.
pub fn gmv_master_close(state: &mut [u64], report: &mut [u64]) -> u64
    ensures { called result state.new [] report.new ≡ close_call state.old report.old }
{
    refusal::number_in(master_calls::close_words(state, report).err())
}

// The driver enquires.
pub fn gmv_master_enquire(state: &mut [u64], report: &mut [u64]) -> u64
    ensures { called result state.new [] report.new ≡ enquire_call state.old report.old }
{
    refusal::number_in(master_calls::enquire_words(state, report).err())
}

// The driver may receive.
pub fn gmv_master_may_receive(state: &mut [u64], report: &mut [u64]) -> u64
    ensures { called result state.new [] report.new ≡ may_receive_call state.old report.old }
{
    refusal::number_in(master_calls::may_receive_words(state, report).err())
}
