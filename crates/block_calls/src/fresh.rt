// A fresh reader.
ghost use Rattle.std.specs.Prelude.{◌≡◌, []};
ghost use Rattle.lists.specs.Outcome.{called};
ghost use Rattle.refusal.specs.Refusal.{number_of, answer_by};
ghost use Rattle.block_calls.specs.ReadCalls.{fresh_reader_call};

use crate::reader_words::write_reader;
use refusal::Refusal;
use stream::Reader;

// Refused by 2 where the state has under four words.
#[tactic(auto, unfolding(crate::specs::ReadCalls::fresh_reader_call))]
pub fn fresh_words(state: &mut [u64]) -> Result<(), Refusal>
    ensures { (called (number_of result) state.new [] [] ≡ fresh_reader_call state.old) × (result ≡ answer_by (number_of result)) }
{
    if state.len() < 4 {
        return Err(Refusal::TOO_SHORT);
    }
    write_reader(state, Reader::new());
    Ok(())
}
