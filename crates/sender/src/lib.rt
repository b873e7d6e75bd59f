// The sender of sequence numbers: what it has persisted, what waits on the circuit, and its acts.

#![tactic(auto)]

mod answers;
mod blocks;
mod circuit;
mod state;
mod submission;

ghost use Rattle.std.specs.Prelude.{◌≡◌};
ghost use Rattle.sender.specs.Sender.{valid_settings, settings_of};

pub use blocks::block_read;
pub use circuit::{circuit_ended, circuit_opened, operator_reset, timer_ran_out};
use header::Code;
use numbers::SequenceNumber;
pub use state::new_sender;
pub use submission::submit_transaction;

// What must be persisted, as one act, before the next block goes out. A crash keeps it.
#[derive(Clone, Copy)]
pub struct Persisted {
    pub first: u64,
    // The last number known to be delivered (document 01: the mark).
    pub delivered: u64,
    pub last: u64,
    pub resynchronized: bool,
    pub frozen: bool,
}

// What waits for its answer on the circuit. A crash loses it: then no circuit is open. Numbered as in the driver's words
// (GMV_WAITING_..).
#[derive(Clone, Copy)]
pub enum Waiting {
    Closed = 0,
    Idle = 1,
    Resynchronizing = 2,
    Querying = 3,
    // The transaction after the last delivered one.
    Sending = 4,
}

#[derive(Clone, Copy)]
pub struct Sender {
    pub persisted: Persisted,
    pub waiting: Waiting,
    // The sends made of what waits, on this circuit.
    pub sends: u64,
}

// The settings of a sender. The first number counts where a sender is made, which stores it; how often a message is sent again
// counts in each act, and may change.
#[derive(Clone, Copy)]
pub struct SenderSettings {
    pub first: u64,
    pub resends: u64,
}

impl SenderSettings {
    pub const SMALLEST_FIRST: u64 = 1;
    // How often a message is sent again, where the host says nothing else.
    pub const RESENDS: u64 = 3;

    pub const LARGEST_RESENDS: u64 = 99;

    // The settings of a sender; none where one is out of its range, which callers refuse by 1.
    pub fn new(first: u64, resends: u64) -> Option<SenderSettings>
        ensures { result ≡ settings_of first resends }
    {
        let settings = SenderSettings { first, resends };
        settings.is_valid().then_some(settings)
    }

    // Whether every setting is within its range.
    pub fn is_valid(self) -> bool
        ensures { result ≡ valid_settings self }
    {
        let first_ok = (Self::SMALLEST_FIRST..=SequenceNumber::GREATEST_SENT).contains(&self.first);
        first_ok & (self.resends <= Self::LARGEST_RESENDS)
    }
}

// What happened.
#[derive(Clone, Copy)]
pub enum Event {
    NoEvent,
    // A transaction is delivered, with its verdict.
    Delivered(u64, Code),
    DeliveredUnknown(u64),
    Abandoned,
    Froze,
    Dropped,
}

// What an act answers.
#[derive(Clone, Copy)]
pub struct Acted {
    // 0, or why it was refused.
    pub refusal: u64,
    pub sender: Sender,
    // The message to send now.
    pub send: Option<SequenceNumber>,
    // The sends made of the message waiting after the act, or of the one just given up.
    pub sends: u64,
    pub event: Event,
    // The number of a block that was refused, 9 included.
    pub block: u64,
    // Where the act was refused by 3: the offset of the first byte that is not allowed.
    pub offset: usize,
}
