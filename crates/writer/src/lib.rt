// Writing one block into the caller's buffer, from an offset the caller names (document 01: place).

#![tactic(auto)]

mod content;
mod hybrid;
mod minimal;

ghost use Rattle.std.specs.Prelude.{◌≡◌, ◌+◌, leb};
ghost use Rattle.lists.specs.Outcome.{outcome};
ghost use Rattle.writer.specs.Write.{frame_length, type_valid, frame_of, write_of};

use refusal::{Refusal, Written};
use settings::{Kind, Settings};

// Whether a block with this many bytes of data fits from that offset on in a buffer of `have` bytes.
pub fn is_long_enough(have: usize, start: usize, kind: Kind, size: usize) -> bool
    ensures { result ≡ leb (start + (size + frame_length kind)) have }
{
    let after_start = have.checked_sub(start);
    let left = after_start.and_then(|rest| rest.checked_sub(kind.frame_length()));
    left.is_some_and(|rest| size <= rest)
}

// Whether t is a type that goes with the data; a minimal block has none.
fn type_valid(kind: Kind, t: u8, content: &[u8]) -> bool
    ensures { result ≡ type_valid kind t content.now }
{
    match kind {
        Kind::Hybrid => block::type_matches(t, content),
        Kind::Minimal => true,
    }
}

// The block with this type and data, written into the buffer from that offset on. A refusal writes nothing.
#[tactic(auto, unfolding(crate::specs::Write::frame_of, block::specs::Format::block_of))]
fn frame(settings: Settings, t: u8, content: &[u8], buffer: &mut [u8], start: usize) -> Written
    ensures { outcome result buffer.new ≡ frame_of settings t content.now start buffer.old }
{
    if !is_long_enough(buffer.len(), start, settings.kind, content.len()) {
        return Err(Refusal::TOO_SHORT);
    }
    if settings.data_limit < content.len() {
        return Err(Refusal::LONG);
    }
    if !type_valid(settings.kind, t, content) {
        return Err(Refusal::SHAPE);
    }
    if !settings::are_allowed(content) {
        return Err(Refusal::forbidden(settings::first_forbidden(content)));
    }
    match settings.kind {
        Kind::Hybrid => Ok(hybrid::write_block(settings, t, content, buffer, start)),
        Kind::Minimal => Ok(minimal::write_block(settings, content, buffer, start)),
    }
}

// The same of settings that are looked at first (1).
#[tactic(auto, unfolding(crate::specs::Write::write_of))]
pub fn write(settings: Settings, t: u8, content: &[u8], buffer: &mut [u8], start: usize) -> Written
    ensures { outcome result buffer.new ≡ write_of settings t content.now start buffer.old }
{
    if !settings.is_valid() {
        return Err(Refusal::SETTING);
    }
    frame(settings, t, content, buffer, start)
}
