// The exports of giamuvich's functions in field_acts.rt.
ghost use Rattle.std.specs.Prelude.{◌≡◌, []};
ghost use Rattle.lists.specs.Outcome.{called};
ghost use Rattle.message_calls.specs.FieldCalls.{next_call};

// The next field of a message from `position` on.
#[unsafe(no_mangle)]
pub extern "C" fn gmv_field_next(message: &[u8], position: usize, field: &mut [u64]) -> u64
    ensures { called result [] [] field.new ≡ next_call message.now position field.old }
{
    giamuvich::gmv_field_next(message, position, field)
}
