// What the C functions do, on slices: the words are looked at, and the answer is written into the words.

#![tactic(auto)]

mod acts;
mod block_number;
mod blocks;
mod interrupts;
mod units;
mod words;

pub use acts::{
    bad_words, bare_enq_words, block_words, end_words, fresh_station_words, interrupt_words,
    opened_words,
};
pub use block_number::LAST_NUMBER;
pub use blocks::precedes;
pub use words::{is_kind, kind_in, kind_word};
