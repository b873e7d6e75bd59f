// A control ID's bytes in words, as a state that is kept in words has them.

#![tactic(auto)]

ghost use Rattle.std.specs.Prelude.{◌≡◌, ◌≤◌, length};
ghost use Rattle.lists.specs.Bytes.{overwritten};
ghost use Rattle.control_id.specs.ControlId.{packed, in_words, word_bytes};

use lists::{copy_bytes, part_of};

// How many bytes there are, and the bytes: eight to a word, the first one lowest.
#[derive(Clone, Copy)]
pub struct ControlId {
    pub length: u64,
    pub first: u64,
    pub second: u64,
    pub third: u64,
}

// Up to eight bytes in a word, the first one lowest. `from_le_bytes` of a copy would have the archive call memcpy (lists::copy_bytes).
fn pack_word(part: &[u8]) -> u64
    requires { length part.now ≤ 8 }
    ensures { result ≡ packed part.now }
{
    let mut word = 0;
    for i in (0..part.len()).rev() {
        word = word * 256 + u64::from(part[i]);
    }
    word
}

// The length, and the first 24 bytes.
#[tactic(auto, unfolding(crate::specs::ControlId::in_words))]
pub fn pack(content: &[u8]) -> ControlId
    ensures { result ≡ in_words content.now }
{
    let first = pack_word(part_of(content, 0, 8));
    let second = pack_word(part_of(content, 8, 8));
    let third = pack_word(part_of(content, 16, 8));
    ControlId {
        length: content.len() as u64,
        first,
        second,
        third,
    }
}

// Writes all 24 bytes over the beginning, as many of them as fit.
pub fn unpack(control_id: ControlId, bytes: &mut [u8])
    ensures { bytes.new ≡ overwritten bytes.old (word_bytes control_id) }
{
    let mut all = [0u8; 24];
    copy_bytes(&mut all, &control_id.first.to_le_bytes());
    copy_bytes(&mut all[8..], &control_id.second.to_le_bytes());
    copy_bytes(&mut all[16..], &control_id.third.to_le_bytes());
    copy_bytes(bytes, &all);
}
