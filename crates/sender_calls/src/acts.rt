// The sender's acts on words. Each looks at its settings (1), then at the words (2, 11), and then acts.
ghost use Rattle.std.specs.Prelude.{◌≡◌, []};
ghost use Rattle.lists.specs.Outcome.{called};
ghost use Rattle.refusal.specs.Refusal.{number_of, answer_by};
ghost use Rattle.sender.specs.declared.Acted.{Acted};
ghost use Rattle.sender.specs.declared.Sender.{Sender};
ghost use Rattle.sender_calls.specs.SenderCalls.{resends_only, sender_call, open_call, ended_call, reset_call, timer_call, block_call, submit_call, fresh_call};

use crate::reports::{REPORT_WORDS, write_report};
use crate::states::{SENDER_WORDS, read_sender, write_sender};
use refusal::Refusal;
use sender::{Acted, Sender, SenderSettings};
use settings::Settings;

// An act on the sender that the state's words encode. The report is written where it was refused too, and has the place then; the
// state is written only where it was done. Words that encode no sender are refused with a report of zeros.
#[tactic(auto, unfolding(lists::specs::Bytes::over))]
fn act_on_words<F: FnOnce(Sender) -> Acted>(
    act: F,
    state: &mut [u64],
    report: &mut [u64],
) -> Result<(), Refusal>
    requires { F.IsAlwaysCallable act }
    ensures words { (f : Sender → Acted) → ((s : Sender) (r : Acted) → F.post act s r → r ≡ f s) → called (number_of result) state.new [] report.new ≡ sender_call f state.old report.old }
    ensures answer { result ≡ answer_by (number_of result) }
{
    if state.len() < SENDER_WORDS || report.len() < REPORT_WORDS {
        return Err(Refusal::TOO_SHORT);
    }
    let Some(sender) = read_sender(state) else {
        report[..REPORT_WORDS].fill(0);
        return Err(Refusal::STATE);
    };
    let acted = act(sender);
    write_report(report, acted);
    refusal::answered(acted.refusal)?;
    write_sender(state, acted.sender);
    Ok(())
}

// The settings of an act, which goes by the first number that the state has.
fn resends_only(resends: u64) -> Option<SenderSettings>
    ensures { result ≡ resends_only resends }
{
    SenderSettings::new(SenderSettings::SMALLEST_FIRST, resends)
}

#[tactic(auto, unfolding(crate::specs::SenderCalls::fresh_call))]
pub fn fresh_sender_words(first: u64, state: &mut [u64]) -> Result<(), Refusal>
    ensures { (called (number_of result) state.new [] [] ≡ fresh_call first state.old) × (result ≡ answer_by (number_of result)) }
{
    let settings = SenderSettings::new(first, SenderSettings::RESENDS).ok_or(Refusal::SETTING)?;
    let fresh = sender::new_sender(settings).ok_or(Refusal::SETTING)?;
    if state.len() < SENDER_WORDS {
        return Err(Refusal::TOO_SHORT);
    }
    write_sender(state, fresh);
    Ok(())
}

#[tactic(auto, unfolding(crate::specs::SenderCalls::open_call))]
pub fn opened_words(state: &mut [u64], report: &mut [u64]) -> Result<(), Refusal>
    ensures { (called (number_of result) state.new [] report.new ≡ open_call state.old report.old) × (result ≡ answer_by (number_of result)) }
{
    act_on_words(|sender| sender::circuit_opened(sender), state, report)
}

#[tactic(auto, unfolding(crate::specs::SenderCalls::ended_call))]
pub fn ended_words(state: &mut [u64], report: &mut [u64]) -> Result<(), Refusal>
    ensures { (called (number_of result) state.new [] report.new ≡ ended_call state.old report.old) × (result ≡ answer_by (number_of result)) }
{
    act_on_words(|sender| sender::circuit_ended(sender), state, report)
}

#[tactic(auto, unfolding(crate::specs::SenderCalls::reset_call))]
pub fn reset_words(state: &mut [u64], report: &mut [u64]) -> Result<(), Refusal>
    ensures { (called (number_of result) state.new [] report.new ≡ reset_call state.old report.old) × (result ≡ answer_by (number_of result)) }
{
    act_on_words(|sender| sender::operator_reset(sender), state, report)
}

#[tactic(auto, unfolding(crate::specs::SenderCalls::timer_call))]
pub fn timer_words(resends: u64, state: &mut [u64], report: &mut [u64]) -> Result<(), Refusal>
    ensures { (called (number_of result) state.new [] report.new ≡ timer_call resends state.old report.old) × (result ≡ answer_by (number_of result)) }
{
    let settings = resends_only(resends).ok_or(Refusal::SETTING)?;
    act_on_words(
        |sender| sender::timer_ran_out(settings, sender),
        state,
        report,
    )
}

#[tactic(auto, unfolding(crate::specs::SenderCalls::block_call))]
pub fn block_words(
    resends: u64,
    number: u64,
    t: u64,
    content: &[u8],
    state: &mut [u64],
    report: &mut [u64],
) -> Result<(), Refusal>
    ensures { (called (number_of result) state.new [] report.new ≡ block_call resends number t content.now state.old report.old) × (result ≡ answer_by (number_of result)) }
{
    let settings = resends_only(resends).ok_or(Refusal::SETTING)?;
    let verdict = words::verdict_from(number, t).ok_or(Refusal::SETTING)?;
    act_on_words(
        |sender| sender::block_read(settings, sender, verdict, content),
        state,
        report,
    )
}

#[tactic(auto, unfolding(crate::specs::SenderCalls::submit_call))]
pub fn submitted_words(
    data_limit: u64,
    message: &[u8],
    state: &mut [u64],
    report: &mut [u64],
) -> Result<(), Refusal>
    ensures { (called (number_of result) state.new [] report.new ≡ submit_call data_limit message.now state.old report.old) × (result ≡ answer_by (number_of result)) }
{
    let data_limit = data_limit as usize;
    if !Settings::is_link_limit(data_limit) {
        return Err(Refusal::SETTING);
    }
    act_on_words(
        |sender| sender::submit_transaction(data_limit, sender, message),
        state,
        report,
    )
}
