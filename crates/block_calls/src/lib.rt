// What the C functions for blocks do, on slices and settings that are made: the words are looked at, the library is called,
// and its answer is written into the words.

#![tactic(auto)]

mod check;
mod fresh;
mod read;
mod reader_words;
mod write;

pub use check::check_words;
pub use fresh::fresh_words;
pub use read::read_words;
pub use write::write_words;
