// The two messages that the library writes: the answer to a request, and the sender's control message.

#![tactic(auto)]

mod answer_message;
mod control_message;
mod pieces;

ghost use Rattle.std.specs.Prelude.{◌≡◌};
ghost use Rattle.messages.specs.Messages.{message_type};

pub use answer_message::{is_control_id, write_answer};
pub use control_message::{is_type, write_control};

// The sender's control messages.
#[derive(Clone, Copy)]
pub enum Control {
    // For -1: the resynchronising exchange.
    Resynchronize,
    // For 0: what number is expected?
    Query,
}

// The message type of control messages, three capital letters.
#[derive(Clone, Copy)]
pub struct MessageType {
    pub first: u8,
    pub second: u8,
    pub third: u8,
}

impl MessageType {
    // Exactly three capital letters.
    #[tactic(auto, using(crate::proofs::Laws::letters))]
    pub fn from_letters(letters: &[u8]) -> Option<MessageType>
        ensures { result ≡ message_type letters.now }
    {
        let &[first, second, third] = letters else {
            return None;
        };
        let name = MessageType {
            first,
            second,
            third,
        };
        control_message::is_type(name).then_some(name)
    }
}
