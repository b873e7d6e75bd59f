// The block settings of a link, and the bytes of a block's data: which are allowed, their exclusive-or, decimal digits.

#![tactic(auto)]

mod bytes;
mod digits;

ghost use Rattle.std.specs.Prelude.{◌≡◌, ◌&&◌};
ghost use Rattle.settings.specs.Settings.{by_kind, allowed, valid_link_limit, valid, valid_link, data_offset_of, hybrid_of, minimal_of, made_of};

pub use bytes::{are_allowed, checksum, first_forbidden};
pub use digits::digit_of;

// The two lower layer protocols (000, C.2 and C.4).
#[derive(Clone, Copy, PartialEq, Eq)]
pub enum Kind {
    Hybrid,
    Minimal,
}

impl Kind {
    // How many bytes a block has besides its data, from SB to the CR after EB.
    pub fn frame_length(self) -> usize
        ensures { result ≡ by_kind self 15 3 }
    {
        match self {
            Kind::Hybrid => 15,
            Kind::Minimal => 3,
        }
    }
}

// The block settings of a link.
#[derive(Clone, Copy, PartialEq, Eq)]
pub struct Settings {
    pub kind: Kind,
    pub start_block: u8,
    pub end_block: u8,
    pub data_limit: usize,
}

// Data bytes are 20 to 7E and CR.
pub(crate) fn is_allowed(x: u8) -> bool
    ensures { result ≡ allowed x }
{
    ((0x20 <= x) & (x <= 0x7e)) | (x == b'\r')
}

impl Settings {
    pub const START_BLOCK: u8 = 0x0b;

    pub const END_BLOCK: u8 = 0x1c;

    pub const LARGEST_DATA_LIMIT: usize = 99994;
    // For a sender or receiver.
    pub const SMALLEST_LINK_LIMIT: usize = 128;

    // The settings of a hybrid link; none where one is out of its range, which callers refuse by 1.
    pub fn hybrid(start_block: u64, end_block: u64, data_limit: u64) -> Option<Settings>
        ensures { result ≡ hybrid_of start_block end_block data_limit }
    {
        let start_block = u8::try_from(start_block).ok()?;
        let end_block = u8::try_from(end_block).ok()?;
        let data_limit = data_limit as usize;
        Settings {
            kind: Kind::Hybrid,
            start_block,
            end_block,
            data_limit,
        }
        .checked()
    }

    // The settings of a minimal link; none where the limit is out of its range.
    pub fn minimal(data_limit: u64) -> Option<Settings>
        ensures { result ≡ minimal_of data_limit }
    {
        let settings = Settings {
            kind: Kind::Minimal,
            start_block: Self::START_BLOCK,
            end_block: Self::END_BLOCK,
            data_limit: data_limit as usize,
        };
        settings.checked()
    }

    fn checked(self) -> Option<Settings>
        ensures { result ≡ made_of self }
    {
        self.is_valid().then_some(self)
    }

    // Whether every setting is within its range.
    #[tactic(auto, unfolding(crate::specs::Settings::valid))]
    pub fn is_valid(self) -> bool
        ensures { result ≡ valid self }
    {
        let limit_ok = (1..=Self::LARGEST_DATA_LIMIT).contains(&self.data_limit);
        match self.kind {
            Kind::Hybrid => {
                !is_allowed(self.start_block)
                    & !is_allowed(self.end_block)
                    & (self.start_block != self.end_block)
                    & limit_ok
            }
            Kind::Minimal => {
                (self.start_block == Self::START_BLOCK)
                    & (self.end_block == Self::END_BLOCK)
                    & limit_ok
            }
        }
    }

    // Whether these are settings of a sender or receiver.
    #[tactic(auto, unfolding(crate::specs::Settings::valid_link))]
    pub fn is_link(self) -> bool
        ensures { result ≡ valid_link self }
    {
        self.is_valid() & (Self::SMALLEST_LINK_LIMIT <= self.data_limit)
    }

    // Whether this is a data limit of a sender or receiver.
    pub fn is_link_limit(limit: usize) -> bool
        ensures { result ≡ valid_link_limit limit }
    {
        (Self::SMALLEST_LINK_LIMIT..=Self::LARGEST_DATA_LIMIT).contains(&limit)
    }

    // Where an accepted block's data begins among the bytes after SB.
    pub fn data_offset(self) -> usize
        ensures { result ≡ data_offset_of self }
    {
        match self.kind {
            Kind::Hybrid => 4,
            Kind::Minimal => 0,
        }
    }
}
