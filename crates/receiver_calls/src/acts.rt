// The receiver's acts on words. Each looks at its numbers and settings (1), then at the words and the buffer (2), at the state
// that the words encode (11), and then acts.
ghost use Rattle.std.specs.Prelude.{◌≡◌, ◌&&◌, [], ◌+◌, leb};
ghost use Rattle.lists.specs.Outcome.{called};
ghost use Rattle.receiver.specs.Receiver.{reply_space};
ghost use Rattle.refusal.specs.Refusal.{number_of, answer_by};
ghost use Rattle.receiver_calls.specs.ReceiverCalls.{fresh_call, decide_call, answer_call, nak_call};

use crate::inputs::{application_from, is_type, outcome_from};
use crate::reports::{DECISION_WORDS, write_decision};
use crate::states::{RECEIVER_WORDS, read_receiver, write_receiver};
use receiver::Receiver;
use refusal::Refusal;
use settings::Settings;

// How many words the report on an answer has.
const REPORT_WORDS: usize = 2;

// No number expected, and no decision open.
#[tactic(auto, unfolding(crate::specs::ReceiverCalls::fresh_call))]
pub fn fresh_receiver_words(state: &mut [u64]) -> Result<(), Refusal>
    ensures { (called (number_of result) state.new [] [] ≡ fresh_call state.old) × (result ≡ answer_by (number_of result)) }
{
    if state.len() < RECEIVER_WORDS {
        return Err(Refusal::TOO_SHORT);
    }
    let fresh = Receiver {
        expected: None,
        decision: None,
    };
    write_receiver(state, fresh);
    Ok(())
}

// The decision on an accepted block.
#[tactic(auto, unfolding(crate::specs::ReceiverCalls::decide_call))]
pub fn decide_words(
    application: u64,
    block_type: u64,
    content: &[u8],
    state: &mut [u64],
    report: &mut [u64],
) -> Result<(), Refusal>
    ensures { (called (number_of result) state.new [] report.new ≡ decide_call application block_type content.now state.old report.old) × (result ≡ answer_by (number_of result)) }
{
    let Some(verdict) = application_from(application) else {
        return Err(Refusal::SETTING);
    };
    if !is_type(block_type) {
        return Err(Refusal::SETTING);
    }
    if state.len() < RECEIVER_WORDS || report.len() < DECISION_WORDS {
        return Err(Refusal::TOO_SHORT);
    }
    let Some(receiver) = read_receiver(state) else {
        return Err(Refusal::STATE);
    };
    let decided = receiver::decide(verdict, receiver, block_type, content);
    refusal::answered(decided.refusal)?;
    write_decision(report, &decided);
    if decided.opened {
        write_receiver(state, decided.receiver);
    }
    Ok(())
}

// Whether the words and the buffer are long enough for a reply.
fn is_enough(settings: Settings, states: usize, have: usize, start: usize, reports: usize) -> bool
    ensures { result ≡ (leb 9 states && (leb 2 reports && leb (start + reply_space settings) have)) }
{
    RECEIVER_WORDS <= states
        && REPORT_WORDS <= reports
        && receiver::fits_reply(settings, have, start)
}

// The report on the open decision, for a link's settings. They are looked at here, whoever made them (1 comes before 2): so a C
// function makes them and does not look.
#[tactic(auto, unfolding(crate::specs::ReceiverCalls::answer_call))]
pub fn answer_words(
    made: Option<Settings>,
    stored: u64,
    state: &mut [u64],
    buffer: &mut [u8],
    start: usize,
    report: &mut [u64],
) -> Result<(), Refusal>
    ensures { (called (number_of result) state.new buffer.new report.new ≡ answer_call made stored state.old buffer.old start report.old) × (result ≡ answer_by (number_of result)) }
{
    let (Some(settings), Some(is_stored)) = (made, outcome_from(stored)) else {
        return Err(Refusal::SETTING);
    };
    if !settings.is_link() {
        return Err(Refusal::SETTING);
    }
    if !is_enough(settings, state.len(), buffer.len(), start, report.len()) {
        return Err(Refusal::TOO_SHORT);
    }
    let Some(receiver) = read_receiver(state) else {
        return Err(Refusal::STATE);
    };
    let answered = receiver::answer(settings, is_stored, receiver, buffer, start);
    refusal::answered(answered.refusal)?;
    write_receiver(state, answered.receiver);
    words::write_report(report, answered.reply_length, 0);
    Ok(())
}

// The N reply to a refused block.
#[tactic(auto, unfolding(crate::specs::ReceiverCalls::nak_call))]
pub fn nak_words(
    made: Option<Settings>,
    number: u64,
    state: &[u64],
    buffer: &mut [u8],
    start: usize,
    report: &mut [u64],
) -> Result<(), Refusal>
    ensures { (called (number_of result) [] buffer.new report.new ≡ nak_call made number state.now buffer.old start report.old) × (result ≡ answer_by (number_of result)) }
{
    let Some(settings) = made else {
        return Err(Refusal::SETTING);
    };
    if !settings.is_link() || !receiver::is_block_number(number) {
        return Err(Refusal::SETTING);
    }
    if !is_enough(settings, state.len(), buffer.len(), start, report.len()) {
        return Err(Refusal::TOO_SHORT);
    }
    let Some(receiver) = read_receiver(state) else {
        return Err(Refusal::STATE);
    };
    let answered = receiver::nak(settings, number, receiver, buffer, start);
    refusal::answered(answered.refusal)?;
    words::write_report(report, answered.reply_length, 0);
    Ok(())
}
