// The answer to a request: MSH|^~\&|||||||ACK|17|P|2.3.1<CR>MSA|AA|17||17<CR>
ghost use Rattle.std.specs.Prelude.{◌≡◌, ◌&&◌, false, ◌+◌, ◌≤◌, leb, length};
ghost use Rattle.lists.specs.Outcome.{outcome};
ghost use Rattle.settings.specs.DataBytes.{all_allowed};
ghost use Rattle.numbers.specs.Numbers.{text_of};
ghost use Rattle.messages.specs.Messages.{valid_control_id, answerable};
ghost use Rattle.messages.specs.Write.{write_answer_of};
ghost use Rattle.messages.specs.Internal.{Puts, header_pieces, answer_pieces, id_refusal};

use crate::pieces::{put_code, put_number, put_piece};
use header::Code;
use numbers::SequenceNumber;
use refusal::{Refusal, Written};

// Whether an answer fits from the offset on: 38 bytes, the control ID twice, the number.
fn is_long_enough(have: usize, start: usize, id_length: usize, digits: usize) -> bool
    ensures { result ≡ leb (start + (38 + (digits + (id_length + id_length)))) have }
{
    have.checked_sub(start)
        .and_then(|rest| rest.checked_sub(38))
        .and_then(|rest| rest.checked_sub(digits))
        .and_then(|rest| rest.checked_sub(id_length))
        .is_some_and(|rest| id_length <= rest)
}

// Whether the control ID can stand in a field of a block's data: 1 to 20 bytes that are allowed, and neither bar nor CR. No way
// out of the loop, so that it is compiled to vector code.
pub fn is_control_id(control_id: &[u8]) -> bool
    ensures { result ≡ (all_allowed control_id.now && valid_control_id control_id.now) }
{
    if !(1..=20).contains(&control_id.len()) {
        return false;
    }
    let mut good = true;
    for &x in control_id {
        good &= matches!(x, b' '..=b'~') & (x != fields::BAR);
    }
    good
}

// The refusal of a control ID that cannot: by 3, or by 9 where all its bytes are allowed.
#[tactic(auto, using(crate::proofs::Laws::refused_byte, crate::proofs::Laws::refused_header))]
fn refuse_control_id(control_id: &[u8]) -> Written
    ensures { result ≡ id_refusal control_id.now }
{
    let first = settings::first_forbidden(control_id);
    if first < control_id.len() {
        return Err(Refusal::forbidden(first));
    }
    Err(Refusal::HEAD)
}

#[tactic(auto, unfolding(crate::specs::Messages::answerable))]
fn is_answerable(number: SequenceNumber) -> bool
    ensures { result ≡ answerable number }
{
    match number {
        SequenceNumber::MinusOne => true,
        SequenceNumber::Number(n) => (1..=SequenceNumber::GREATEST_EXPECTED).contains(&n),
    }
}

// MSH|^~\&|||||||ACK|17|P|2.3.1<CR>MSA|AA|
fn put_header(out: &mut [u8], at: usize, control_id: &[u8], code: Code) -> usize
    requires { at + (35 + length control_id.now) ≤ length out.old }
    ensures { Puts out.old at (header_pieces control_id.now code) result out.new }
{
    let id_at = put_piece(out, at, b"MSH|^~\\&|||||||ACK|");
    let code_at = put_piece(out, id_at, control_id);
    put_code(out, code_at, code)
}

// 17||17<CR>
#[tactic(auto, using(crate::proofs::Laws::piece_cases))]
fn put_acknowledgment(
    out: &mut [u8],
    at: usize,
    control_id: &[u8],
    number: SequenceNumber,
    digits: usize,
) -> usize
    requires digits_value { digits ≡ length (text_of number) }
    requires control_id_in_bounds { at + (3 + (digits + length control_id.now)) ≤ length out.old }
    ensures { Puts out.old at (answer_pieces control_id.now number) result out.new }
{
    let bars_at = put_piece(out, at, control_id);
    let number_at = put_piece(out, bars_at, b"||");
    let end = put_number(out, number_at, number, digits);
    put_piece(out, end, b"\r")
}

// Writes the answer into the buffer from an offset on. A refusal writes nothing.
#[tactic(auto, using(crate::proofs::Returns::answer_cases))]
pub fn write_answer(
    control_id: &[u8],
    code: Code,
    number: SequenceNumber,
    buffer: &mut [u8],
    start: usize,
) -> Written
    ensures { outcome result buffer.new ≡ write_answer_of control_id.now code number start buffer.old }
{
    let digits = numbers::text_length(number);
    if !is_long_enough(buffer.len(), start, control_id.len(), digits) {
        return Err(Refusal::TOO_SHORT);
    }
    if !is_control_id(control_id) {
        return refuse_control_id(control_id);
    }
    if !is_answerable(number) {
        return Err(Refusal::NUMBER);
    }
    let next = put_header(buffer, start, control_id, code);
    let end = put_acknowledgment(buffer, next, control_id, number, digits);
    Ok(end - start)
}
