// The station's acts on words.
ghost use Rattle.std.specs.Prelude.{◌≡◌, [], ◌≤◌, length};
ghost use Rattle.lists.specs.Outcome.{Outcome, outcome, called};
ghost use Rattle.refusal.specs.Refusal.{number_of, answer_by};
ghost use Rattle.station.specs.declared.StationState.{StationState};
ghost use Rattle.station.specs.declared.StationAnswer.{StationAnswer};
ghost use Rattle.station.specs.StationCalls.{enough_words, act_written, station_call, fresh_station_call, open_station_call, good_block_call, bad_block_call, eot_call, bare_enq_call, interrupt_call};

use crate::blocks::good_block;
use crate::interrupts::{answered, bare_enq, fresh_turn, interrupt, opened};
use crate::units::{bad_block, end_of_transmission};
use crate::words::{ending_of, read_station, write_report, write_station};
use refusal::Refusal;
use station::{Station, StationAnswer, StationState};

// How many words a state and a report have.
const STATION_WORDS: usize = 5;

const REPORT_WORDS: usize = 4;

fn enough_words(state_words: usize, report_words: usize) -> bool
    ensures { result ≡ enough_words state_words report_words }
{
    STATION_WORDS <= state_words && REPORT_WORDS <= report_words
}

// Writes what the act answered, unless it was refused.
fn finish(answer: StationAnswer, state: &mut [u64], report: &mut [u64]) -> Result<(), Refusal>
    requires in_bounds { 5 ≤ length state.old }
    requires in_bounds_2 { 4 ≤ length report.old }
    ensures { (called (number_of result) state.new [] report.new ≡ act_written state.old report.old (outcome answer [])) × (result ≡ answer_by (number_of result)) }
{
    let acted = answer.acted;
    refusal::answered(acted.refusal)?;
    write_station(state, acted.station, answer.turn);
    write_report(report, acted);
    Ok(())
}

// Reads the station, and writes what the act on it answers.
fn act_on<F: FnOnce(StationState) -> StationAnswer>(
    act: F,
    state: &mut [u64],
    report: &mut [u64],
) -> Result<(), Refusal>
    requires { F.IsAlwaysCallable act }
    ensures words { (f : StationState → Outcome StationAnswer) → ((k : StationState) (r : StationAnswer) → F.post act k r → outcome r [] ≡ f k) → called (number_of result) state.new [] report.new ≡ station_call f state.old [] report.old }
    ensures answer { result ≡ answer_by (number_of result) }
{
    if !enough_words(state.len(), report.len()) {
        return Err(Refusal::TOO_SHORT);
    }
    let known = read_station(state).ok_or(Refusal::STATE)?;
    finish(act(known), state, report)
}

// A closed station.
#[tactic(auto, unfolding(station::specs::StationCalls::fresh_station_call))]
pub fn fresh_station_words(state: &mut [u64]) -> Result<(), Refusal>
    ensures { (called (number_of result) state.new [] [] ≡ fresh_station_call state.old) × (result ≡ answer_by (number_of result)) }
{
    if state.len() < STATION_WORDS {
        return Err(Refusal::TOO_SHORT);
    }
    write_station(state, Station::Closed, fresh_turn());
    Ok(())
}

// The driver opened the station.
#[tactic(auto, unfolding(station::specs::StationCalls::open_station_call))]
pub fn opened_words(state: &mut [u64], report: &mut [u64]) -> Result<(), Refusal>
    ensures { (called (number_of result) state.new [] report.new ≡ open_station_call state.old report.old) × (result ≡ answer_by (number_of result)) }
{
    if !enough_words(state.len(), report.len()) {
        return Err(Refusal::TOO_SHORT);
    }
    finish(opened(), state, report)
}

// A bad block, or one ended by ENQ.
#[tactic(auto, unfolding(station::specs::StationCalls::bad_block_call))]
pub fn bad_words(state: &mut [u64], report: &mut [u64]) -> Result<(), Refusal>
    ensures { (called (number_of result) state.new [] report.new ≡ bad_block_call state.old report.old) × (result ≡ answer_by (number_of result)) }
{
    act_on(
        |known| answered(known, bad_block(known.station)),
        state,
        report,
    )
}

// EOT was received.
#[tactic(auto, unfolding(station::specs::StationCalls::eot_call))]
pub fn end_words(state: &mut [u64], report: &mut [u64]) -> Result<(), Refusal>
    ensures { (called (number_of result) state.new [] report.new ≡ eot_call state.old report.old) × (result ≡ answer_by (number_of result)) }
{
    act_on(
        |known| answered(known, end_of_transmission(known.station)),
        state,
        report,
    )
}

// A bare ENQ was received.
#[tactic(auto, unfolding(station::specs::StationCalls::bare_enq_call))]
pub fn bare_enq_words(state: &mut [u64], report: &mut [u64]) -> Result<(), Refusal>
    ensures { (called (number_of result) state.new [] report.new ≡ bare_enq_call state.old report.old) × (result ≡ answer_by (number_of result)) }
{
    act_on(bare_enq, state, report)
}

// The driver asks for a RINT.
#[tactic(auto, unfolding(station::specs::StationCalls::interrupt_call))]
pub fn interrupt_words(state: &mut [u64], report: &mut [u64]) -> Result<(), Refusal>
    ensures { (called (number_of result) state.new [] report.new ≡ interrupt_call state.old report.old) × (result ≡ answer_by (number_of result)) }
{
    act_on(interrupt, state, report)
}

// A good block.
#[tactic(auto, unfolding(station::specs::StationCalls::good_block_call))]
pub fn block_words(
    number: u64,
    ending: u64,
    text: &[u8],
    buffer: &mut [u8],
    state: &mut [u64],
    report: &mut [u64],
) -> Result<(), Refusal>
    ensures { (called (number_of result) state.new buffer.new report.new ≡ good_block_call number ending text.now buffer.old state.old report.old) × (result ≡ answer_by (number_of result)) }
{
    let how = ending_of(ending).ok_or(Refusal::SETTING)?;
    if !enough_words(state.len(), report.len()) {
        return Err(Refusal::TOO_SHORT);
    }
    let known = read_station(state).ok_or(Refusal::STATE)?;
    let acted = good_block(known.station, number, how, text, buffer);
    finish(answered(known, acted), state, report)
}
