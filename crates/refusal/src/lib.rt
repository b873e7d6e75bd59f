// Document 01, 'Numbers that say no': what is refused, and by which number; what a reader and a writer say.

#![tactic(auto)]

ghost use Rattle.std.specs.Prelude.{◌≡◌};
ghost use Rattle.refusal.specs.Refusal.{BYTE, answer_by, number_in, offset_in, type_of, length_of, written_length};

// The table of numbers.
pub const SETTING: u64 = 1;

pub const TOO_SHORT: u64 = 2;

pub const BYTE: u64 = 3;

pub const LONG: u64 = 4;

pub const SHAPE: u64 = 5;

pub const COUNT: u64 = 6;

pub const CHECK: u64 = 7;

pub const INTERRUPTED: u64 = 8;

pub const HEAD: u64 = 9;

pub const NUMBER: u64 = 10;

pub const STATE: u64 = 11;

// Why a block or a call is refused. A caller may bring any number, as C does: so it is a number with the names of the table,
// and no enum.
#[derive(Clone, Copy, PartialEq, Eq)]
pub struct Refusal {
    pub number: u64,
    // Document 01: place. It is 0 for every number but 3.
    pub offset: usize,
}

impl Refusal {
    pub const SETTING: Refusal = Refusal {
        number: SETTING,
        offset: 0,
    };

    pub const TOO_SHORT: Refusal = Refusal {
        number: TOO_SHORT,
        offset: 0,
    };

    pub const LONG: Refusal = Refusal {
        number: LONG,
        offset: 0,
    };

    pub const SHAPE: Refusal = Refusal {
        number: SHAPE,
        offset: 0,
    };

    pub const COUNT: Refusal = Refusal {
        number: COUNT,
        offset: 0,
    };

    pub const CHECK: Refusal = Refusal {
        number: CHECK,
        offset: 0,
    };

    pub const INTERRUPTED: Refusal = Refusal {
        number: INTERRUPTED,
        offset: 0,
    };

    pub const HEAD: Refusal = Refusal {
        number: HEAD,
        offset: 0,
    };

    pub const NUMBER: Refusal = Refusal {
        number: NUMBER,
        offset: 0,
    };

    pub const STATE: Refusal = Refusal {
        number: STATE,
        offset: 0,
    };

    // A byte that is not allowed, at this offset.
    pub fn forbidden(offset: usize) -> Refusal
        ensures { result ≡ record { number = BYTE; offset = offset } }
    {
        Refusal {
            number: BYTE,
            offset,
        }
    }
}

// A block that a reader accepted: its type, D or N, and the length of its data.
#[derive(Clone, Copy, PartialEq, Eq)]
pub struct Accepted {
    pub block_type: u8,
    pub data_length: usize,
}

// What a reader says of a block that has ended.
pub type Verdict = Result<Accepted, Refusal>;

// What a writer says: the length of what was written.
pub type Written = Result<usize, Refusal>;

// What a call answers that is refused by this number, or was done: 0.
pub fn answered(number: u64) -> Result<(), Refusal>
    ensures { result ≡ answer_by number }
{
    if number == 0 {
        return Ok(());
    }
    Err(Refusal { number, offset: 0 })
}

// 0 where nothing was refused; of a Result, what its `err()` gives.
pub fn number_in(refusal: Option<Refusal>) -> u64
    ensures { result ≡ number_in refusal }
{
    match refusal {
        None => 0,
        Some(refusal) => refusal.number,
    }
}

pub fn offset_in(refusal: Option<Refusal>) -> usize
    ensures { result ≡ offset_in refusal }
{
    match refusal {
        None => 0,
        Some(refusal) => refusal.offset,
    }
}

// The type of an accepted block, D or N; 0 for a refused one.
pub fn type_of(verdict: Verdict) -> u8
    ensures { result ≡ type_of verdict }
{
    match verdict {
        Ok(accepted) => accepted.block_type,
        Err(_) => 0,
    }
}

// The data length of an accepted block; 0 for a refused one.
pub fn length_of(verdict: Verdict) -> usize
    ensures { result ≡ length_of verdict }
{
    match verdict {
        Ok(accepted) => accepted.data_length,
        Err(_) => 0,
    }
}

// The length of what was written; 0 for a refusal.
pub fn written_length(written: Written) -> usize
    ensures { result ≡ written_length written }
{
    written.unwrap_or(0)
}
