// The buffer that a reader is lent: how long it must be, and where in it an accepted block's data stands.
ghost use Rattle.std.specs.Prelude.{◌≡◌, leb, ltb, length};
ghost use Rattle.lists.specs.Bytes.{part_address};
ghost use Rattle.settings.specs.Settings.{by_kind, capacity_of, data_offset_of};
ghost use Rattle.block.specs.Content.{content_of};

use refusal::Verdict;
use settings::{Kind, Settings};

// The data of a block that was found, as the part of the lent buffer that holds it; empty, and at the same address, where the
// block was refused.
#[tactic(auto, unfolding(crate::specs::Content::content_of))]
pub fn block_content(settings: Settings, verdict: Verdict, buffer: &[u8]) -> &[u8]
    ensures { (result.now ≡ content_of settings verdict buffer.now) × (result.ref_ptr ≡ part_address buffer.entry (data_offset_of settings)) }
{
    let offset = settings.data_offset();
    let size = refusal::length_of(verdict);
    lists::part_of(buffer, offset, size)
}

// How many bytes stand between SB and EB besides the data: the frame without SB, EB and the CR after it.
pub fn inner_frame(kind: Kind) -> usize
    ensures { result ≡ by_kind kind 12 0 }
{
    kind.frame_length() - 3
}

// Whether a block of this many bytes between SB and EB is too long.
pub fn is_long(settings: Settings, body_length: usize) -> bool
    ensures { result ≡ ltb (capacity_of settings) body_length }
{
    settings.data_limit < body_length.saturating_sub(inner_frame(settings.kind))
}

// Whether a buffer of this length is long enough for the reader.
pub fn buffer_fits(settings: Settings, buffer: &[u8]) -> bool
    ensures { result ≡ leb (capacity_of settings) (length buffer.now) }
{
    let left = buffer.len().checked_sub(inner_frame(settings.kind));
    left.is_some_and(|size| settings.data_limit <= size)
}
