// The X3.28 receiving station.
ghost use Rattle.std.specs.Prelude.{◌≡◌, []};
ghost use Rattle.lists.specs.Outcome.{called};
ghost use Rattle.station.specs.StationCalls.{fresh_station_call, open_station_call, bad_block_call, eot_call, good_block_call, bare_enq_call, interrupt_call};

// A closed station.
pub fn gmv_station_fresh(state: &mut [u64]) -> u64
    ensures { called result state.new [] [] ≡ fresh_station_call state.old }
{
    refusal::number_in(station_calls::fresh_station_words(state).err())
}

// The driver opened the station.
pub fn gmv_station_open(state: &mut [u64], report: &mut [u64]) -> u64
    ensures { called result state.new [] report.new ≡ open_station_call state.old report.old }
{
    refusal::number_in(station_calls::opened_words(state, report).err())
}

// A good block.
pub fn gmv_station_block(
    number: u64,
    ending: u64,
    text: &[u8],
    buffer: &mut [u8],
    state: &mut [u64],
    report: &mut [u64],
) -> u64
    ensures { called result state.new buffer.new report.new ≡ good_block_call number ending text.now buffer.old state.old report.old }
{
    refusal::number_in(station_calls::block_words(
        number, ending, text, buffer, state, report,
    ).err())
}

// A bad block.
pub fn gmv_station_bad(state: &mut [u64], report: &mut [u64]) -> u64
    ensures { called result state.new [] report.new ≡ bad_block_call state.old report.old }
{
    refusal::number_in(station_calls::bad_words(state, report).err())
}

// A block ended by ENQ.
pub fn gmv_station_enquiry(state: &mut [u64], report: &mut [u64]) -> u64
    ensures { called result state.new [] report.new ≡ bad_block_call state.old report.old }
{
    refusal::number_in(station_calls::bad_words(state, report).err())
}

// EOT was received.
pub fn gmv_station_end(state: &mut [u64], report: &mut [u64]) -> u64
    ensures { called result state.new [] report.new ≡ eot_call state.old report.old }
{
    refusal::number_in(station_calls::end_words(state, report).err())
}

// A bare ENQ was received.
pub fn gmv_station_bare_enq(state: &mut [u64], report: &mut [u64]) -> u64
    ensures { called result state.new [] report.new ≡ bare_enq_call state.old report.old }
{
    refusal::number_in(station_calls::bare_enq_words(state, report).err())
}

// The driver asks for a RINT.
pub fn gmv_station_interrupt(state: &mut [u64], report: &mut [u64]) -> u64
    ensures { called result state.new [] report.new ≡ interrupt_call state.old report.old }
{
    refusal::number_in(station_calls::interrupt_words(state, report).err())
}
