// Messages are written piece by piece, where all was seen to fit.
ghost use Rattle.std.specs.Prelude.{◌≡◌, ◌+◌, ◌≤◌, length};
ghost use Rattle.numbers.specs.Numbers.{decimal, text_of};
ghost use Rattle.messages.specs.Internal.{Puts, code_pieces};

use header::Code;
use numbers::SequenceNumber;
use settings::digit_of;

// Writes a piece from `at` on, and returns the offset after it.
#[tactic(auto, using(lists::proofs::Put::copied_whole))]
pub(crate) fn put_piece(out: &mut [u8], at: usize, piece: &[u8]) -> usize
    requires { at + length piece.now ≤ length out.old }
    ensures { Puts out.old at piece.now result out.new }
{
    lists::copy_bytes(&mut out[at..at + piece.len()], piece);
    at + piece.len()
}

// The digits of n, the last one first.
fn put_digits(out: &mut [u8], at: usize, n: u64, digits: usize) -> usize
    requires digits_value { digits ≡ length (decimal n) }
    requires digits_in_bounds { at + digits ≤ length out.old }
    ensures { Puts out.old at (decimal n) result out.new }
{
    let mut rest = n;
    for i in (at..at + digits).rev() {
        out[i] = digit_of(rest as usize);
        rest /= 10;
    }
    at + digits
}

// A number whose length is known.
pub(crate) fn put_number(out: &mut [u8], at: usize, number: SequenceNumber, digits: usize) -> usize
    requires digits_value { digits ≡ length (text_of number) }
    requires digits_in_bounds { at + digits ≤ length out.old }
    ensures { Puts out.old at (text_of number) result out.new }
{
    match number {
        SequenceNumber::MinusOne => put_piece(out, at, b"-1"),
        SequenceNumber::Number(n) => put_digits(out, at, n, digits),
    }
}

// The code, with what stands between the control IDs.
pub(crate) fn put_code(out: &mut [u8], at: usize, code: Code) -> usize
    requires { at + 16 ≤ length out.old }
    ensures { Puts out.old at (code_pieces code) result out.new }
{
    match code {
        Code::AA => put_piece(out, at, b"|P|2.3.1\rMSA|AA|"),
        Code::AE => put_piece(out, at, b"|P|2.3.1\rMSA|AE|"),
        Code::AR => put_piece(out, at, b"|P|2.3.1\rMSA|AR|"),
    }
}
