// Checking one whole block.
ghost use Rattle.std.specs.Prelude.{◌≡◌, []};
ghost use Rattle.lists.specs.Outcome.{called};
ghost use Rattle.refusal.specs.Refusal.{number_of, answer_by};
ghost use Rattle.block_calls.specs.CheckCalls.{check_call};

use crate::reader_words::write_verdict;
use refusal::Refusal;
use settings::Settings;

#[tactic(auto, unfolding(crate::specs::CheckCalls::check_call))]
pub fn check_words(made: Option<Settings>, block: &[u8], verdict: &mut [u64]) -> Result<(), Refusal>
    ensures { (called (number_of result) [] [] verdict.new ≡ check_call made block.now verdict.old) × (result ≡ answer_by (number_of result)) }
{
    let settings = made.ok_or(Refusal::SETTING)?;
    if !settings.is_valid() {
        return Err(Refusal::SETTING);
    }
    if verdict.len() < 8 {
        return Err(Refusal::TOO_SHORT);
    }
    let judged = whole_block::judge_whole(settings, block);
    write_verdict(verdict, 0, judged, settings.data_offset() + 1, block.len());
    refusal::answered(refusal::number_in(judged.err()))
}
