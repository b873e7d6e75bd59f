// Reading a part of a stream.
ghost use Rattle.std.specs.Prelude.{◌≡◌, [], ◌≤◌, length};
ghost use Rattle.lists.specs.Outcome.{called};
ghost use Rattle.refusal.specs.Refusal.{number_of, answer_by};
ghost use Rattle.block_calls.specs.Internal.{unknown_refusal};
ghost use Rattle.block_calls.specs.ReadCalls.{read_answered, read_call};

use crate::reader_words::{read_reader, write_pending, write_reader, write_verdict};
use refusal::Refusal;
use settings::Settings;
use stream::Reading;
use words::refuse_short;

// Writes what a reading gave into the state and the verdict, unless it was refused.
fn finish(
    settings: Settings,
    reading: Reading,
    state: &mut [u64],
    verdict: &mut [u64],
) -> Result<(), Refusal>
    requires state_in_bounds { 4 ≤ length state.old }
    requires verdict_in_bounds { 8 ≤ length verdict.old }
    ensures { (called (number_of result) state.new [] verdict.new ≡ read_answered settings state.old verdict.old reading.reader [] reading.used reading.answer) × (result ≡ answer_by (number_of result)) }
{
    let ended = match reading.answer {
        Ok(ended) => ended,
        Err(refusal) => return refusal::answered(refusal.number),
    };
    write_reader(state, reading.reader);
    match ended {
        None => write_pending(verdict, reading.used),
        Some(found) => write_verdict(
            verdict,
            found.block_offset,
            found.verdict,
            settings.data_offset(),
            reading.used,
        ),
    }
    Ok(())
}

// Words that encode no reader: 11, where neither 1 nor 2 comes first. Where they encode one, `stream::read` looks at both.
fn refuse_unknown(settings: Settings, buffer: &[u8]) -> Refusal
    ensures { result ≡ record { number = unknown_refusal settings (length buffer.now); offset = 0 } }
{
    if !settings.is_valid() {
        Refusal::SETTING
    } else if !block::buffer_fits(settings, buffer) {
        Refusal::TOO_SHORT
    } else {
        Refusal::STATE
    }
}

#[tactic(auto, unfolding(crate::specs::ReadCalls::read_call))]
pub fn read_words(
    made: Option<Settings>,
    state: &mut [u64],
    part: &[u8],
    buffer: &mut [u8],
    verdict: &mut [u64],
) -> Result<(), Refusal>
    ensures { (called (number_of result) state.new buffer.new verdict.new ≡ read_call made state.old part.now buffer.old verdict.old) × (result ≡ answer_by (number_of result)) }
{
    let settings = made.ok_or(Refusal::SETTING)?;
    if state.len() < 4 || verdict.len() < 8 {
        return Err(refuse_short(settings.is_valid()));
    }
    let reader = read_reader(state).ok_or_else(|| refuse_unknown(settings, buffer))?;
    let reading = stream::read(settings, reader, part, buffer);
    finish(settings, reading, state, verdict)
}
