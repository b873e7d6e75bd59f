// What the C functions for control blocks do, on slices and settings that are made.
ghost use Rattle.std.specs.Prelude.{◌≡◌, []};
ghost use Rattle.lists.specs.Outcome.{called};
ghost use Rattle.refusal.specs.Refusal.{number_of, answer_by};
ghost use Rattle.message_calls.specs.ControlCalls.{control_block_call};

use crate::write::control_from;
use messages::MessageType;
use refusal::Refusal;
use settings::Settings;
use words::refuse_short;

// The sender's control message as a block.
#[tactic(auto, unfolding(crate::specs::ControlCalls::control_block_call, control_block::specs::ControlBlock::control_block_of, words::specs::Words::write_finished))]
pub fn control_block_words(
    made: Option<Settings>,
    letters: &[u8],
    number: u64,
    buffer: &mut [u8],
    start: usize,
    report: &mut [u64],
) -> Result<(), Refusal>
    ensures { (called (number_of result) [] buffer.new report.new ≡ control_block_call made letters.now number buffer.old start report.old) × (result ≡ answer_by (number_of result)) }
{
    let settings = made.ok_or(Refusal::SETTING)?;
    let name = MessageType::from_letters(letters).ok_or(Refusal::SETTING)?;
    let control = control_from(number).ok_or(Refusal::SETTING)?;
    if report.len() < 2 {
        return Err(refuse_short(settings.is_link()));
    }
    let length = control_block::write_control_block(settings, name, control, buffer, start)?;
    words::write_report(report, length, 0);
    Ok(())
}
