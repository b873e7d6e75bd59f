// The master's acts on words.
ghost use Rattle.std.specs.Prelude.{◌≡◌, [], ◌≤◌, length};
ghost use Rattle.lists.specs.Outcome.{called};
ghost use Rattle.refusal.specs.Refusal.{number_of, answer_by};
ghost use Rattle.master.specs.declared.MasterState.{MasterState};
ghost use Rattle.master.specs.declared.MasterAnswer.{MasterAnswer};
ghost use Rattle.master.specs.MasterCalls.{enough_master_words, master_written, master_call, fresh_master_call, open_master_call, start_call, master_reply_call, timer_a_call, close_call, enquire_call, may_receive_call};

use crate::reversals::{
    close_answer, enquire_answer, fresh_reversal, may_receive, opened_answer, reply_answer,
    start_answer, timer_answer,
};
use crate::words::{read_master, response_of, write_master, write_report};
use master::{Master, MasterAnswer, MasterState};
use refusal::Refusal;

// How many words a state and a report have.
const MASTER_WORDS: usize = 10;

const REPORT_WORDS: usize = 10;

fn enough_words(state_words: usize, report_words: usize) -> bool
    ensures { result ≡ enough_master_words state_words report_words }
{
    MASTER_WORDS <= state_words && REPORT_WORDS <= report_words
}

// Writes what the act answered, unless it was refused.
fn finish(answer: MasterAnswer, state: &mut [u64], report: &mut [u64]) -> Result<(), Refusal>
    requires in_bounds { 10 ≤ length state.old }
    requires in_bounds_2 { 10 ≤ length report.old }
    ensures { (called (number_of result) state.new [] report.new ≡ master_written state.old report.old answer) × (result ≡ answer_by (number_of result)) }
{
    let acted = answer.acted;
    refusal::answered(acted.refusal)?;
    write_master(state, acted.master, answer.reversal);
    write_report(report, acted);
    Ok(())
}

// Reads the master, and writes what the act on it answers.
fn act_on<F: FnOnce(MasterState) -> MasterAnswer>(
    act: F,
    state: &mut [u64],
    report: &mut [u64],
) -> Result<(), Refusal>
    requires { F.IsAlwaysCallable act }
    ensures words { (f : MasterState → MasterAnswer) → ((k : MasterState) (r : MasterAnswer) → F.post act k r → r ≡ f k) → called (number_of result) state.new [] report.new ≡ master_call f state.old report.old }
    ensures answer { result ≡ answer_by (number_of result) }
{
    if !enough_words(state.len(), report.len()) {
        return Err(Refusal::TOO_SHORT);
    }
    let known = read_master(state).ok_or(Refusal::STATE)?;
    finish(act(known), state, report)
}

// A master before its first opening.
#[tactic(auto, unfolding(master::specs::MasterCalls::fresh_master_call))]
pub fn fresh_master_words(state: &mut [u64]) -> Result<(), Refusal>
    ensures { (called (number_of result) state.new [] [] ≡ fresh_master_call state.old) × (result ≡ answer_by (number_of result)) }
{
    if state.len() < MASTER_WORDS {
        return Err(Refusal::TOO_SHORT);
    }
    write_master(state, Master::Closed(0), fresh_reversal());
    Ok(())
}

// The driver opened the master.
#[tactic(auto, unfolding(master::specs::MasterCalls::open_master_call))]
pub fn opened_master_words(state: &mut [u64], report: &mut [u64]) -> Result<(), Refusal>
    ensures { (called (number_of result) state.new [] report.new ≡ open_master_call state.old report.old) × (result ≡ answer_by (number_of result)) }
{
    if !enough_words(state.len(), report.len()) {
        return Err(Refusal::TOO_SHORT);
    }
    finish(opened_answer(), state, report)
}

// The driver starts a message.
#[tactic(auto, unfolding(master::specs::MasterCalls::start_call))]
pub fn start_words(
    message_length: usize,
    block_size: u64,
    state: &mut [u64],
    report: &mut [u64],
) -> Result<(), Refusal>
    ensures { (called (number_of result) state.new [] report.new ≡ start_call message_length block_size state.old report.old) × (result ≡ answer_by (number_of result)) }
{
    if block_size < 1 {
        return Err(Refusal::SETTING);
    }
    let length = message_length as u64;
    act_on(
        |known| start_answer(length, block_size, known),
        state,
        report,
    )
}

// A reply arrived.
#[tactic(auto, unfolding(master::specs::MasterCalls::master_reply_call))]
pub fn reply_words(
    code: u64,
    number: u64,
    state: &mut [u64],
    report: &mut [u64],
) -> Result<(), Refusal>
    ensures { (called (number_of result) state.new [] report.new ≡ master_reply_call code number state.old report.old) × (result ≡ answer_by (number_of result)) }
{
    let response = response_of(code, number).ok_or(Refusal::SETTING)?;
    act_on(|known| reply_answer(response, known), state, report)
}

// Timer A ran out.
#[tactic(auto, unfolding(master::specs::MasterCalls::timer_a_call))]
pub fn timer_words(state: &mut [u64], report: &mut [u64]) -> Result<(), Refusal>
    ensures { (called (number_of result) state.new [] report.new ≡ timer_a_call state.old report.old) × (result ≡ answer_by (number_of result)) }
{
    act_on(timer_answer, state, report)
}

// The driver closes the master.
#[tactic(auto, unfolding(master::specs::MasterCalls::close_call))]
pub fn close_words(state: &mut [u64], report: &mut [u64]) -> Result<(), Refusal>
    ensures { (called (number_of result) state.new [] report.new ≡ close_call state.old report.old) × (result ≡ answer_by (number_of result)) }
{
    act_on(close_answer, state, report)
}

// The driver enquires.
#[tactic(auto, unfolding(master::specs::MasterCalls::enquire_call))]
pub fn enquire_words(state: &mut [u64], report: &mut [u64]) -> Result<(), Refusal>
    ensures { (called (number_of result) state.new [] report.new ≡ enquire_call state.old report.old) × (result ≡ answer_by (number_of result)) }
{
    act_on(enquire_answer, state, report)
}

// The driver may receive.
#[tactic(auto, unfolding(master::specs::MasterCalls::may_receive_call))]
pub fn may_receive_words(state: &mut [u64], report: &mut [u64]) -> Result<(), Refusal>
    ensures { (called (number_of result) state.new [] report.new ≡ may_receive_call state.old report.old) × (result ≡ answer_by (number_of result)) }
{
    act_on(may_receive, state, report)
}
