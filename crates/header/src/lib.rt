// What the receiver and the sender read of a message: MSH-10, MSH-13, and of an answer MSA-1, MSA-2 and MSA-4.

#![tactic(auto)]

ghost use Rattle.std.specs.Prelude.{◌≡◌, ◌≤◌, length};
ghost use Rattle.header.specs.Header.{header_of, acknowledgment_of, code_field};
ghost use Rattle.header.specs.Internal.{scanned_of, acknowledgment_at};

use fields::{BAR, Field, field_end, find_field};

// Where MSH-10 and MSH-13 of a readable header stand. Without one a message is refused by 9.
#[derive(Clone, Copy)]
pub struct Header {
    pub control_id: Field,
    pub sequence: Field,
}

// Where MSA-1, MSA-2 and MSA-4 of a readable answer stand. Any other is refused by 9.
#[derive(Clone, Copy)]
pub struct Acknowledgment {
    pub code: Field,
    pub control_id: Field,
    pub expected: Field,
}

// Acknowledgment codes.
#[derive(Clone, Copy)]
pub enum Code {
    AA,
    AE,
    AR,
}

// A header that was scanned: MSH-10, MSH-13 and the offset of the segment's CR.
#[derive(Clone, Copy)]
struct Scanned {
    control_id: Field,
    sequence: Field,
    end: usize,
}

// One pass over the first segment: the first bar is its fourth byte, and each field is looked for from the end of the one before.
#[tactic(auto, using(crate::proofs::Scans::scan_cases))]
fn scan_header(message: &[u8]) -> Option<Scanned>
    ensures { result ≡ scanned_of message.now }
{
    if !message.starts_with(b"MSH|") {
        return None;
    }
    let control_id = find_field(message, 4, BAR, 8);
    let sequence = find_field(message, control_id.start + control_id.length, BAR, 3);
    let end = field_end(message, sequence.start + sequence.length, b'\r');
    if message.len() <= end {
        return None;
    }
    if !(1..=20).contains(&control_id.length) {
        return None;
    }
    Some(Scanned {
        control_id,
        sequence,
        end,
    })
}

// MSH-10 and MSH-13 of a message.
#[tactic(auto, using(crate::proofs::Laws::header_cases))]
pub fn read_header(message: &[u8]) -> Option<Header>
    ensures { result ≡ header_of message.now }
{
    let Scanned {
        control_id,
        sequence,
        ..
    } = scan_header(message)?;
    Some(Header {
        control_id,
        sequence,
    })
}

// MSA-1, MSA-2 and MSA-4 of the segment that begins at `from`.
#[tactic(auto, using(crate::proofs::Scans::answer_scan_cases))]
fn scan_acknowledgment(message: &[u8], from: usize) -> Option<Acknowledgment>
    requires { from ≤ length message.now }
    ensures { result ≡ acknowledgment_at from message.now }
{
    if !message[from..].starts_with(b"MSA|") {
        return None;
    }
    let code = find_field(message, from + 4, BAR, 0);
    let control_id = find_field(message, code.start + code.length, BAR, 1);
    let expected = find_field(message, control_id.start + control_id.length, BAR, 2);
    let end = field_end(message, expected.start + expected.length, b'\r');
    if message.len() <= end {
        return None;
    }
    Some(Acknowledgment {
        code,
        control_id,
        expected,
    })
}

// MSA-1, MSA-2 and MSA-4 of an answer.
#[tactic(auto, using(crate::proofs::Laws::answer_cases))]
pub fn read_acknowledgment(message: &[u8]) -> Option<Acknowledgment>
    ensures { result ≡ acknowledgment_of message.now }
{
    let Scanned { end, .. } = scan_header(message)?;
    scan_acknowledgment(message, end + 1)
}

// The code that MSA-1 holds.
#[tactic(auto, using(crate::proofs::Texts::code_pair, crate::proofs::Texts::code_short, crate::proofs::Texts::code_long))]
pub fn read_code(field: &[u8]) -> Option<Code>
    ensures { result ≡ code_field field.now }
{
    match field {
        [b'A', b'A'] => Some(Code::AA),
        [b'A', b'E'] => Some(Code::AE),
        [b'A', b'R'] => Some(Code::AR),
        _ => None,
    }
}
