// The verdict on the bytes between SB and EB of a block that fits and has its CR after EB.
ghost use Rattle.std.specs.Prelude.{◌≡◌};
ghost use Rattle.block.specs.Format.{checksum_of};
ghost use Rattle.block.specs.Judge.{is_reason, type_matches, checksum_matches, judge_parts, judge_hybrid, judge_minimal, judge};

use crate::digits::{five_digits, three_digits};
use refusal::{Accepted, Refusal, Verdict};
use settings::{Kind, Settings, are_allowed, checksum, first_forbidden};

// Whether data is one byte that gives a NAK block's reason: C, X, B or G.
pub(crate) fn is_reason(s: &[u8]) -> bool
    ensures { result ≡ is_reason s.now }
{
    matches!(s, [b'C' | b'X' | b'B' | b'G'])
}

// Whether t is D, or N with a reason for its data.
#[tactic(auto, unfolding(crate::specs::Judge::type_matches))]
pub fn type_matches(t: u8, s: &[u8]) -> bool
    ensures { result ≡ type_matches t s.now }
{
    match t {
        b'D' => true,
        b'N' => is_reason(s),
        _ => false,
    }
}

// The checksum of a hybrid block, from SB to its last data byte.
#[tactic(auto, unfolding(crate::specs::Format::checksum_of))]
pub fn block_checksum(start_block: u8, t: u8, s: &[u8]) -> u8
    ensures { result ≡ checksum_of start_block t s.now }
{
    checksum(start_block ^ t ^ b'2' ^ b'3' ^ b'\r', s)
}

// Whether the field xxx is 999 or the checksum.
#[tactic(auto, using(crate::proofs::Laws::compared), unfolding(crate::specs::Judge::checksum_matches))]
fn checksum_matches(start_block: u8, t: u8, s: &[u8], field: &[u8; 3]) -> bool
    ensures { result ≡ checksum_matches start_block t s.now field.now }
{
    let sum = block_checksum(start_block, t, s);
    field == b"999" || *field == three_digits(usize::from(sum))
}

// The fields t, data, ccccc and xxx, in the order 5, 3, 6, 7.
#[tactic(auto, using(crate::proofs::Laws::compared), unfolding(crate::specs::Judge::judge_parts, crate::specs::Format::count_field))]
fn judge_parts(start_block: u8, t: u8, s: &[u8], count: &[u8; 5], sum: &[u8; 3]) -> Verdict
    ensures { result ≡ judge_parts start_block t s.now count.now sum.now }
{
    if !type_matches(t, s) {
        return Err(Refusal::SHAPE);
    }
    if !are_allowed(s) {
        return Err(Refusal::forbidden(first_forbidden(s)));
    }
    if *count != five_digits(5 + s.len()) {
        return Err(Refusal::COUNT);
    }
    if !checksum_matches(start_block, t, s, sum) {
        return Err(Refusal::CHECK);
    }
    Ok(Accepted {
        block_type: t,
        data_length: s.len(),
    })
}

#[tactic(auto, using(crate::proofs::Laws::hybrid_short, crate::proofs::Laws::hybrid_other, crate::proofs::Laws::hybrid_parts))]
fn judge_hybrid(start_block: u8, body: &[u8]) -> Verdict
    ensures { result ≡ judge_hybrid start_block body.now }
{
    if body.len() < 12 {
        return Err(Refusal::SHAPE);
    }
    if !body[1..].starts_with(b"23\r") {
        return Err(Refusal::SHAPE);
    }
    let Some((before_sum, sum)) = body.split_last_chunk::<3>() else {
        unreachable!();
    };
    let Some((before_count, count)) = before_sum.split_last_chunk::<5>() else {
        unreachable!();
    };
    judge_parts(start_block, body[0], &before_count[4..], count, sum)
}

#[tactic(auto, unfolding(crate::specs::Judge::judge_minimal))]
fn judge_minimal(body: &[u8]) -> Verdict
    ensures { result ≡ judge_minimal body.now }
{
    if are_allowed(body) {
        Ok(Accepted {
            block_type: b'D',
            data_length: body.len(),
        })
    } else {
        Err(Refusal::forbidden(first_forbidden(body)))
    }
}

// The verdict on a block of either kind that fits in the reader's buffer. Callers test that first (number 4); the settings
// are theirs to check too (number 1).
#[tactic(auto, unfolding(crate::specs::Judge::judge))]
pub fn judge_block(settings: Settings, body: &[u8]) -> Verdict
    ensures { result ≡ judge settings body.now }
{
    match settings.kind {
        Kind::Hybrid => judge_hybrid(settings.start_block, body),
        Kind::Minimal => judge_minimal(body),
    }
}
