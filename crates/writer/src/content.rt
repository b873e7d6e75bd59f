// A block's data, written into a lent part of the buffer.
ghost use Rattle.std.specs.Prelude.{◌≡◌, ◌++◌, ◌≤◌, length, drop};

#[tactic(auto, using(crate::proofs::Laws::content_cases))]
pub(crate) fn write_content(out: &mut [u8], content: &[u8])
    requires { length content.now ≤ length out.old }
    ensures { out.new ≡ content.now ++ drop (length content.now) out.old }
{
    lists::copy_bytes(out, content);
}
