// Numbers in fields: -1 or plain digits, read and written.

#![tactic(auto)]

mod compare;
mod read;
mod text;

pub use compare::is_text;
pub use read::read_number;
pub use text::text_length;

// A number that a message may carry.
#[derive(Clone, Copy, PartialEq, Eq)]
pub enum SequenceNumber {
    MinusOne,
    Number(u64),
}

impl SequenceNumber {
    // The greatest number of a transaction.
    pub const GREATEST_SENT: u64 = 999999999999998;

    // The greatest number that may be expected.
    pub const GREATEST_EXPECTED: u64 = 999999999999999;
}

// What a field that should hold a number holds in place of one.
#[derive(Clone, Copy, PartialEq, Eq)]
pub enum NumberError {
    // It is missing or empty.
    Missing,
    NotNumber,
}
