// Checking one whole block that lies in memory.

#![tactic(auto)]

ghost use Rattle.std.specs.Prelude.{◌≡◌, ◌<◌, length, get_or};
ghost use Rattle.stream.specs.Stream.{end_verdict};
ghost use Rattle.whole_block.specs.Whole.{whole_of, check_of};

use refusal::{Refusal, Verdict};
use settings::Settings;

// The verdict on the bytes of a block between SB and EB, with the byte after EB.
#[tactic(auto, unfolding(stream::specs::Stream::end_verdict))]
fn end_verdict(settings: Settings, body: &[u8], after: u8) -> Verdict
    ensures { result ≡ end_verdict settings body.now after }
{
    if block::is_long(settings, body.len()) {
        return Err(Refusal::LONG);
    }
    if after != b'\r' {
        return Err(Refusal::SHAPE);
    }
    block::judge_block(settings, body)
}

// The verdict on bytes that begin with SB.
#[tactic(auto, using(crate::proofs::Checks::verdict_cases))]
fn whole_verdict(settings: Settings, block: &[u8]) -> Verdict
    requires block_nonzero { 0 < length block.now }
    requires block_value { get_or block.now 0 0 ≡ settings.start_block }
    ensures { result ≡ whole_of settings block.now }
{
    let stop = 1 + lists::find_stop(&block[1..], settings.start_block, settings.end_block);
    let rest = &block[stop..];
    match rest {
        [x] if *x == settings.start_block => Err(Refusal::INTERRUPTED),
        [x, after] if *x != settings.start_block => end_verdict(settings, &block[1..stop], *after),
        _ => Err(Refusal::SHAPE),
    }
}

// The stream's answer where the bytes begin with SB and give exactly one verdict, at their last byte; otherwise 5.
#[tactic(auto, using(crate::proofs::Checks::whole_none, crate::proofs::Checks::whole_other))]
pub fn judge_whole(settings: Settings, block: &[u8]) -> Verdict
    ensures { result ≡ whole_of settings block.now }
{
    match block {
        [first, ..] if *first == settings.start_block => whole_verdict(settings, block),
        _ => Err(Refusal::SHAPE),
    }
}

// Checks one whole block, with settings that are looked at first.
#[tactic(auto, unfolding(crate::specs::Whole::check_of))]
pub fn check_block(settings: Settings, block: &[u8]) -> Verdict
    ensures { result ≡ check_of settings block.now }
{
    if !settings.is_valid() {
        return Err(Refusal::SETTING);
    }
    judge_whole(settings, block)
}
