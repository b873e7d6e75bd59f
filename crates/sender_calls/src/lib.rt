// What the C functions of the sender do, on slices: the words are looked at, the library is called, and its answer is
// written into the words.

#![tactic(auto)]

mod acts;
mod reports;
mod states;

pub use acts::{
    block_words, ended_words, fresh_sender_words, opened_words, reset_words, submitted_words,
    timer_words,
};
