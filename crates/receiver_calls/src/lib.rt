// What the receiver's C functions do, on slices and on settings that are made: the words are looked at (2, 11), and the act's
// answer is written into the words.

#![tactic(auto)]

mod acts;
mod inputs;
mod reports;
mod states;

pub use acts::{answer_words, decide_words, fresh_receiver_words, nak_words};
