// What the C functions do, on slices: the words are looked at, and the answer is written into the words.

#![tactic(auto)]

mod acts;
mod blocks;
mod calls;
mod reversals;
mod words;

pub use calls::{
    close_words, enquire_words, fresh_master_words, may_receive_words, opened_master_words,
    reply_words, start_words, timer_words,
};
