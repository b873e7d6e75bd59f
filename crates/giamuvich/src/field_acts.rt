// The fields of a message, one after the other.
ghost use Rattle.std.specs.Prelude.{◌≡◌, []};
ghost use Rattle.lists.specs.Outcome.{called};
ghost use Rattle.message_calls.specs.FieldCalls.{next_call};

use refusal::number_in;

// The next field of a message from `position` on.
pub fn gmv_field_next(message: &[u8], position: usize, field: &mut [u64]) -> u64
    ensures { called result [] [] field.new ≡ next_call message.now position field.old }
{
    number_in(message_calls::next_field_words(message, position, field).err())
}
