// The four blocks, byte for byte.
ghost use Rattle.std.specs.Prelude.{◌≡◌, ◌+◌, ◌≤◌, length};
ghost use Rattle.lists.specs.Bytes.{put};
ghost use Rattle.messages.specs.declared.Control.TheVariants.{Resynchronize, Query};
ghost use Rattle.control_block.specs.Internal.{hybrid_control, minimal_control};

use messages::MessageType;
use settings::{Settings, digit_of};

// Writes the block's bytes from `at` on.
#[tactic(auto, using(lists::proofs::Put::copied_whole))]
fn put_bytes(out: &mut [u8], at: usize, block: &[u8])
    requires { at + length block.now ≤ length out.old }
    ensures { out.new ≡ put out.old at block.now }
{
    lists::copy_bytes(&mut out[at..at + block.len()], block);
}

pub(crate) fn put_hybrid_query(
    settings: Settings,
    name: MessageType,
    buffer: &mut [u8],
    start: usize,
)
    requires { start + 46 ≤ length buffer.old }
    ensures { buffer.new ≡ put buffer.old start (hybrid_control settings name Query) }
{
    let mut block = *b"\x0bD23\rMSH|^~\\&|||||||ADT|0|P|2.3.1|0\r00036000\x1c\r";
    block[0] = settings.start_block;
    block[20] = name.first;
    block[21] = name.second;
    block[22] = name.third;
    let sum = block::block_checksum(settings.start_block, b'D', &block[5..36]) as usize;
    block[41] = digit_of(sum / 100);
    block[42] = digit_of(sum / 10);
    block[43] = digit_of(sum);
    block[44] = settings.end_block;
    put_bytes(buffer, start, &block)
}

pub(crate) fn put_hybrid_resynchronize(
    settings: Settings,
    name: MessageType,
    buffer: &mut [u8],
    start: usize,
)
    requires { start + 48 ≤ length buffer.old }
    ensures { buffer.new ≡ put buffer.old start (hybrid_control settings name Resynchronize) }
{
    let mut block = *b"\x0bD23\rMSH|^~\\&|||||||ADT|-1|P|2.3.1|-1\r00038000\x1c\r";
    block[0] = settings.start_block;
    block[20] = name.first;
    block[21] = name.second;
    block[22] = name.third;
    let sum = block::block_checksum(settings.start_block, b'D', &block[5..38]) as usize;
    block[43] = digit_of(sum / 100);
    block[44] = digit_of(sum / 10);
    block[45] = digit_of(sum);
    block[46] = settings.end_block;
    put_bytes(buffer, start, &block)
}

pub(crate) fn put_minimal_query(
    settings: Settings,
    name: MessageType,
    buffer: &mut [u8],
    start: usize,
)
    requires { start + 34 ≤ length buffer.old }
    ensures { buffer.new ≡ put buffer.old start (minimal_control settings name Query) }
{
    let mut block = *b"\x0bMSH|^~\\&|||||||ADT|0|P|2.3.1|0\r\x1c\r";
    block[0] = settings.start_block;
    block[16] = name.first;
    block[17] = name.second;
    block[18] = name.third;
    block[32] = settings.end_block;
    put_bytes(buffer, start, &block)
}

pub(crate) fn put_minimal_resynchronize(
    settings: Settings,
    name: MessageType,
    buffer: &mut [u8],
    start: usize,
)
    requires { start + 36 ≤ length buffer.old }
    ensures { buffer.new ≡ put buffer.old start (minimal_control settings name Resynchronize) }
{
    let mut block = *b"\x0bMSH|^~\\&|||||||ADT|-1|P|2.3.1|-1\r\x1c\r";
    block[0] = settings.start_block;
    block[16] = name.first;
    block[17] = name.second;
    block[18] = name.third;
    block[34] = settings.end_block;
    put_bytes(buffer, start, &block)
}
