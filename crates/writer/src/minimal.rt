// Writing a minimal block: SB data EB CR.
ghost use Rattle.std.specs.Prelude.{◌≡◌, [], ◌∷◌, ◌++◌, ◌+◌, ◌≤◌, length, drop};
ghost use Rattle.lists.specs.Bytes.{put};
ghost use Rattle.block.specs.Format.{minimal_block};

use crate::content::write_content;
use settings::Settings;

// SB
fn write_header(out: &mut [u8], start_block: u8)
    requires { 1 ≤ length out.old }
    ensures { out.new ≡ (start_block ∷ []) ++ drop 1 out.old }
{
    out[0] = start_block;
}

// EB CR
fn write_trailer(out: &mut [u8], end_block: u8)
    requires { 2 ≤ length out.old }
    ensures { out.new ≡ (end_block ∷ 0x0D ∷ []) ++ drop 2 out.old }
{
    out[..2].copy_from_slice(&[end_block, b'\r']);
}

// Writes the block from that offset on, and returns its length.
pub(crate) fn write_block(
    settings: Settings,
    content: &[u8],
    buffer: &mut [u8],
    start: usize,
) -> usize
    requires { start + (length content.now + 3) ≤ length buffer.old }
    ensures value { result ≡ length (minimal_block settings content.now) }
    ensures buffer_after { buffer.new ≡ put buffer.old start (minimal_block settings content.now) }
{
    let size = content.len();
    let after_header = start + 1;
    let after_content = after_header + size;
    write_header(&mut buffer[start..], settings.start_block);
    write_content(&mut buffer[after_header..], content);
    write_trailer(&mut buffer[after_content..], settings.end_block);
    size + 3
}
