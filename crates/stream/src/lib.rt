// Reading a stream of hybrid or minimal blocks, in parts.

#![tactic(auto)]

mod scan;

ghost use Rattle.std.specs.Prelude.{◌≡◌};
ghost use Rattle.stream.specs.Scan.{fresh};

use refusal::{Refusal, Verdict};
pub use scan::read;

// Where a reader stands in the stream.
#[derive(Clone, Copy)]
pub enum Phase {
    Between,
    Inside,
    // After the EB of a block whose verdict comes with the next byte.
    Ended,
}

// A reader's state between two parts of the input.
#[derive(Clone, Copy)]
pub struct Reader {
    pub phase: Phase,
    // Bytes of the current block; a reader counts at most one more than the buffer holds of it.
    pub body_length: usize,
    // The offset in the stream of the SB of the current block, or of the last one.
    pub block_offset: usize,
    // The offset of the next byte.
    pub position: usize,
}

// A block that ended: the offset of its SB, and the verdict on it.
#[derive(Clone, Copy)]
pub struct Found {
    pub block_offset: usize,
    pub verdict: Verdict,
}

// What reading a part gives.
#[derive(Clone, Copy)]
pub struct Reading {
    // None where all of the part was read and brought no verdict. Refused by 1, 2 or 11.
    pub answer: Result<Option<Found>, Refusal>,
    pub reader: Reader,
    // Bytes of the part that were read.
    pub used: usize,
}

impl Reader {
    // The state before the first byte of a stream.
    pub fn new() -> Reader
        ensures { result ≡ fresh }
    {
        scan::between(0)
    }
}
