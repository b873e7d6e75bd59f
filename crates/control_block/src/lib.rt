// The sender's control message as a block. There are four, which differ in the bytes of the settings, the letters and the checksum alone.

#![tactic(auto)]

mod blocks;

ghost use Rattle.std.specs.Prelude.{◌≡◌, ◌+◌, ◌≤◌, length};
ghost use Rattle.lists.specs.Bytes.{put};
ghost use Rattle.lists.specs.Outcome.{outcome};
ghost use Rattle.control_block.specs.ControlBlock.{control_block_of};
ghost use Rattle.control_block.specs.Internal.{block_length, control_block};

use blocks::{
    put_hybrid_query, put_hybrid_resynchronize, put_minimal_query, put_minimal_resynchronize,
};
use messages::{Control, MessageType};
use refusal::{Refusal, Written};
use settings::{Kind, Settings};

fn block_length(kind: Kind, control: Control) -> usize
    ensures { result ≡ block_length kind control }
{
    match (kind, control) {
        (Kind::Hybrid, Control::Resynchronize) => 48,
        (Kind::Hybrid, Control::Query) => 46,
        (Kind::Minimal, Control::Resynchronize) => 36,
        (Kind::Minimal, Control::Query) => 34,
    }
}

#[tactic(auto, unfolding(block::specs::Format::block_of))]
fn put_block(
    settings: Settings,
    name: MessageType,
    control: Control,
    buffer: &mut [u8],
    start: usize,
)
    requires { start + block_length settings.kind control ≤ length buffer.old }
    ensures { buffer.new ≡ put buffer.old start (control_block settings name control) }
{
    match (settings.kind, control) {
        (Kind::Hybrid, Control::Resynchronize) => {
            put_hybrid_resynchronize(settings, name, buffer, start)
        }
        (Kind::Hybrid, Control::Query) => put_hybrid_query(settings, name, buffer, start),
        (Kind::Minimal, Control::Resynchronize) => {
            put_minimal_resynchronize(settings, name, buffer, start)
        }
        (Kind::Minimal, Control::Query) => put_minimal_query(settings, name, buffer, start),
    }
}

// Writes the block into the buffer from an offset on. A refusal (1, 2) writes nothing.
#[tactic(auto, using(crate::proofs::Laws::size_is, crate::proofs::Laws::length_is), unfolding(crate::specs::ControlBlock::control_block_of))]
pub fn write_control_block(
    settings: Settings,
    name: MessageType,
    control: Control,
    buffer: &mut [u8],
    start: usize,
) -> Written
    ensures { outcome result buffer.new ≡ control_block_of settings name control start buffer.old }
{
    if !(settings.is_link() && messages::is_type(name)) {
        return Err(Refusal::SETTING);
    }
    let size = block_length(settings.kind, control);
    if buffer.len().saturating_sub(start) < size {
        return Err(Refusal::TOO_SHORT);
    }
    put_block(settings, name, control, buffer, start);
    Ok(size)
}
