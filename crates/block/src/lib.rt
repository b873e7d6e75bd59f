// HL7 lower layer blocks: their checksum and fields, the verdict on the bytes of one block, and the buffer that holds them.

#![tactic(auto)]

mod buffer;
mod digits;
mod judge;

pub use buffer::{block_content, buffer_fits, inner_frame, is_long};
pub use digits::{five_digits, three_digits};
pub use judge::{block_checksum, judge_block, type_matches};
