// What the C functions for messages, fields and control blocks do, on slices: the words are looked at, the library is called,
// and its answer is written into the words.

#![tactic(auto)]

mod control;
mod field;
mod read;
mod write;

pub use control::control_block_words;
pub use field::next_field_words;
pub use read::{read_answer_words, read_header_words};
pub use write::{write_answer_words, write_control_words};
