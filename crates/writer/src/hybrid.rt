// Writing a hybrid block: SB t v v CR data ccccc xxx EB CR.
ghost use Rattle.std.specs.Prelude.{◌≡◌, ◌++◌, ◌+◌, ◌≤◌, length, drop};
ghost use Rattle.lists.specs.Bytes.{put};
ghost use Rattle.block.specs.Format.{hybrid_block};
ghost use Rattle.writer.specs.Internal.{hybrid_header, hybrid_trailer};

use crate::content::write_content;
use settings::Settings;

// SB t v v CR
#[tactic(auto, unfolding(crate::specs::Internal::hybrid_header))]
fn write_header(out: &mut [u8], start_block: u8, t: u8)
    requires { 5 ≤ length out.old }
    ensures { out.new ≡ hybrid_header start_block t ++ drop 5 out.old }
{
    out[..5].copy_from_slice(&[start_block, t, b'2', b'3', b'\r']);
}

// ccccc xxx EB CR
#[tactic(auto, unfolding(crate::specs::Internal::hybrid_trailer, block::specs::Format::five_digits, block::specs::Format::three_digits))]
fn write_trailer(out: &mut [u8], count: usize, sum: usize, end_block: u8)
    requires { 10 ≤ length out.old }
    ensures { out.new ≡ hybrid_trailer count sum end_block ++ drop 10 out.old }
{
    out[..5].copy_from_slice(&block::five_digits(count));
    out[5..8].copy_from_slice(&block::three_digits(sum));
    out[8..10].copy_from_slice(&[end_block, b'\r']);
}

// Writes the block from that offset on, and returns its length.
pub(crate) fn write_block(
    settings: Settings,
    t: u8,
    content: &[u8],
    buffer: &mut [u8],
    start: usize,
) -> usize
    requires { start + (length content.now + 15) ≤ length buffer.old }
    ensures value { result ≡ length (hybrid_block settings t content.now) }
    ensures buffer_after { buffer.new ≡ put buffer.old start (hybrid_block settings t content.now) }
{
    let size = content.len();
    let sum = block::block_checksum(settings.start_block, t, content);
    let after_header = start + 5;
    let after_content = after_header + size;
    write_header(&mut buffer[start..], settings.start_block, t);
    write_content(&mut buffer[after_header..], content);
    write_trailer(
        &mut buffer[after_content..],
        5 + size,
        usize::from(sum),
        settings.end_block,
    );
    size + 15
}
