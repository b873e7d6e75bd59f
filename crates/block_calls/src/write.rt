// Writing one block.
ghost use Rattle.std.specs.Prelude.{◌≡◌, []};
ghost use Rattle.lists.specs.Outcome.{called};
ghost use Rattle.refusal.specs.Refusal.{number_of, answer_by};
ghost use Rattle.block_calls.specs.WriteCalls.{write_call};

use refusal::Refusal;
use settings::Settings;
use words::{refuse_short, report_written, type_byte};

#[tactic(auto, unfolding(crate::specs::WriteCalls::write_call))]
pub fn write_words(
    made: Option<Settings>,
    t: u64,
    content: &[u8],
    buffer: &mut [u8],
    start: usize,
    report: &mut [u64],
) -> Result<(), Refusal>
    ensures { (called (number_of result) [] buffer.new report.new ≡ write_call made t content.now buffer.old start report.old) × (result ≡ answer_by (number_of result)) }
{
    let settings = made.ok_or(Refusal::SETTING)?;
    if report.len() < 2 {
        return Err(refuse_short(settings.is_valid()));
    }
    let written = writer::write(settings, type_byte(t), content, buffer, start);
    report_written(written, report)
}
