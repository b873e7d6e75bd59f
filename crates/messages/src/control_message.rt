// The sender's control message: MSH|^~\&|||||||ADT|0|P|2.3.1|0<CR>
ghost use Rattle.std.specs.Prelude.{◌≡◌, ◌+◌, ◌≤◌, length};
ghost use Rattle.lists.specs.Outcome.{outcome};
ghost use Rattle.messages.specs.Messages.{valid_type, control_message};
ghost use Rattle.messages.specs.Write.{write_control_of};
ghost use Rattle.messages.specs.declared.Control.TheVariants.{Resynchronize, Query};
ghost use Rattle.messages.specs.Internal.{Puts};

use crate::pieces::put_piece;
use crate::{Control, MessageType};
use refusal::{Refusal, Written};

// Whether it is three capital letters.
#[tactic(auto, unfolding(crate::specs::Messages::valid_type))]
pub fn is_type(name: MessageType) -> bool
    ensures { result ≡ valid_type name }
{
    name.first.is_ascii_uppercase()
        && name.second.is_ascii_uppercase()
        && name.third.is_ascii_uppercase()
}

// How many bytes the message has.
#[tactic(auto, using(crate::proofs::Shapes::length_resynchronize, crate::proofs::Shapes::length_query))]
fn message_length(name: MessageType, control: Control) -> usize
    ensures { result ≡ length (control_message name control) }
{
    match control {
        Control::Resynchronize => 33,
        Control::Query => 31,
    }
}

// MSH|^~\&|||||||ADT|0|P|2.3.1|0<CR>
#[tactic(auto, using(crate::proofs::Shapes::control_pieces))]
fn put_control(out: &mut [u8], at: usize, name: MessageType, control: Control) -> usize
    requires { at + length (control_message name control) ≤ length out.old }
    ensures { Puts out.old at (control_message name control) result out.new }
{
    let type_at = put_piece(out, at, b"MSH|^~\\&|||||||");
    let number_at = put_piece(out, type_at, &[name.first, name.second, name.third]);
    match control {
        Control::Resynchronize => put_piece(out, number_at, b"|-1|P|2.3.1|-1\r"),
        Control::Query => put_piece(out, number_at, b"|0|P|2.3.1|0\r"),
    }
}

// Writes the control message into the buffer from an offset on. A refusal writes nothing.
#[tactic(auto, using(crate::proofs::Returns::control_cases))]
pub fn write_control(
    name: MessageType,
    control: Control,
    buffer: &mut [u8],
    start: usize,
) -> Written
    ensures { outcome result buffer.new ≡ write_control_of name control start buffer.old }
{
    if !is_type(name) {
        return Err(Refusal::SETTING);
    }
    let size = message_length(name, control);
    if buffer.len().saturating_sub(start) < size {
        return Err(Refusal::TOO_SHORT);
    }
    put_control(buffer, start, name, control);
    Ok(size)
}
