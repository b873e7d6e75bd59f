// What the C function of the field reader does, on slices: the words are looked at, the reader is asked, and its answer is
// written into the words.
ghost use Rattle.std.specs.Prelude.{◌≡◌, []};
ghost use Rattle.lists.specs.Outcome.{called};
ghost use Rattle.refusal.specs.Refusal.{number_of, answer_by};
ghost use Rattle.message_calls.specs.FieldCalls.{delimiter_word, next_call};

use field_reader::Delimiter;
use refusal::Refusal;

fn delimiter_word(delimiter: Delimiter) -> u64
    ensures { result ≡ delimiter_word delimiter }
{
    match delimiter {
        Delimiter::Separator => 1,
        Delimiter::SegmentEnd => 2,
        Delimiter::MessageEnd => 3,
    }
}

// The next field from `position` on.
#[tactic(auto, unfolding(crate::specs::FieldCalls::next_call, lists::specs::Bytes::over))]
pub fn next_field_words(message: &[u8], position: usize, words: &mut [u64]) -> Result<(), Refusal>
    ensures { (called (number_of result) [] [] words.new ≡ next_call message.now position words.old) × (result ≡ answer_by (number_of result)) }
{
    if words.len() < 5 {
        return Err(Refusal::TOO_SHORT);
    }
    let next = match field_reader::next_field(message, position) {
        None => [0, 0, 0, 0, position as u64],
        Some(found) => [
            1,
            found.field.start as u64,
            found.field.length as u64,
            delimiter_word(found.delimiter),
            found.after as u64,
        ],
    };
    words[..5].copy_from_slice(&next);
    Ok(())
}
