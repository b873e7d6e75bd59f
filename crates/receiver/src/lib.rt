// The receiver of sequence numbers: what it decides on a block and what is to be stored then, and the answer that it gives once
// that is reported stored (02, §1).

#![tactic(auto)]

mod answering;
mod deciding;
mod states;
mod table;

pub use answering::{answer, fits_reply, is_block_number, nak};
use control_id::ControlId;
pub use deciding::decide;
use header::Code;
use numbers::SequenceNumber;
pub use states::is_same_expected;

// The application's verdict on a transaction that is due: AA or AE.
#[derive(Clone, Copy)]
pub enum Application {
    Accepts,
    Errs,
}

// What must be persisted, as one act, before the decision is reported stored.
#[derive(Clone, Copy)]
pub struct Persisted {
    pub transaction: Option<u64>,
    pub expected: Option<u64>,
}

// A row of the table: MSA-1, MSA-4, and what is stored then.
#[derive(Clone, Copy)]
pub struct Row {
    pub code: Code,
    pub number: SequenceNumber,
    pub persisted: Persisted,
}

// A decision that is not yet reported stored or failed: whom its answer is to, and its row.
#[derive(Clone, Copy)]
pub struct Decision {
    pub control_id: ControlId,
    pub row: Row,
}

// What is stored, and what a crash loses.
#[derive(Clone, Copy)]
pub struct Receiver {
    pub expected: Option<u64>,
    pub decision: Option<Decision>,
}

// What a decision answers.
#[derive(Clone, Copy)]
pub struct Decided {
    // The number that refuses the act: 11; otherwise 0.
    pub refusal: u64,
    // The number of a block that was refused: 9, or 0.
    pub block: u64,
    // Whether it opened a decision.
    pub opened: bool,
    pub receiver: Receiver,
}

// What a report, or an N reply, answers.
#[derive(Clone, Copy)]
pub struct Answered {
    // The number that refuses the act: 1, 2 or 11; otherwise 0.
    pub refusal: u64,
    pub receiver: Receiver,
    // The reply block's length; 0 where there is none.
    pub reply_length: usize,
}
