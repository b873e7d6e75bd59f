// The exports of giamuvich's functions in station_acts.rt.
ghost use Rattle.std.specs.Prelude.{◌≡◌, []};
ghost use Rattle.lists.specs.Outcome.{called};
ghost use Rattle.station.specs.StationCalls.{fresh_station_call, open_station_call, bad_block_call, eot_call, good_block_call, bare_enq_call, interrupt_call};

// A closed station.
#[unsafe(no_mangle)]
pub extern "C" fn gmv_station_fresh(state: &mut [u64]) -> u64
    ensures { called result state.new [] [] ≡ fresh_station_call state.old }
{
    giamuvich::gmv_station_fresh(state)
}

// The driver opened the station.
#[unsafe(no_mangle)]
pub extern "C" fn gmv_station_open(state: &mut [u64], report: &mut [u64]) -> u64
    ensures { called result state.new [] report.new ≡ open_station_call state.old report.old }
{
    giamuvich::gmv_station_open(state, report)
}

// A good block.
#[unsafe(no_mangle)]
pub extern "C" fn gmv_station_block(
    number: u64,
    ending: u64,
    text: &[u8],
    buffer: &mut [u8],
    state: &mut [u64],
    report: &mut [u64],
) -> u64
    ensures { called result state.new buffer.new report.new ≡ good_block_call number ending text.now buffer.old state.old report.old }
{
    giamuvich::gmv_station_block(number, ending, text, buffer, state, report)
}

// A bad block.
#[unsafe(no_mangle)]
pub extern "C" fn gmv_station_bad(state: &mut [u64], report: &mut [u64]) -> u64
    ensures { called result state.new [] report.new ≡ bad_block_call state.old report.old }
{
    giamuvich::gmv_station_bad(state, report)
}

// A block ended by ENQ.
#[unsafe(no_mangle)]
pub extern "C" fn gmv_station_enquiry(state: &mut [u64], report: &mut [u64]) -> u64
    ensures { called result state.new [] report.new ≡ bad_block_call state.old report.old }
{
    giamuvich::gmv_station_enquiry(state, report)
}

// EOT was received.
#[unsafe(no_mangle)]
pub extern "C" fn gmv_station_end(state: &mut [u64], report: &mut [u64]) -> u64
    ensures { called result state.new [] report.new ≡ eot_call state.old report.old }
{
    giamuvich::gmv_station_end(state, report)
}

// A bare ENQ was received.
#[unsafe(no_mangle)]
pub extern "C" fn gmv_station_bare_enq(state: &mut [u64], report: &mut [u64]) -> u64
    ensures { called result state.new [] report.new ≡ bare_enq_call state.old report.old }
{
    giamuvich::gmv_station_bare_enq(state, report)
}

// The driver asks for a RINT.
#[unsafe(no_mangle)]
pub extern "C" fn gmv_station_interrupt(state: &mut [u64], report: &mut [u64]) -> u64
    ensures { called result state.new [] report.new ≡ interrupt_call state.old report.old }
{
    giamuvich::gmv_station_interrupt(state, report)
}
