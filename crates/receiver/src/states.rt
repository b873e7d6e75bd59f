// Which values are states: every value is an input.
ghost use Rattle.std.specs.Prelude.{◌≡◌};
ghost use Rattle.receiver.specs.Receiver.{valid_expected, same_expected, same_number, code_of_stored, is_due, code_of_kept, kept_row, stored_row, is_row, carried, valid_open, valid_receiver};

use crate::table::expected_number;
use crate::{Decision, Receiver, Row};
use control_id::ControlId;
use header::Code;
use numbers::SequenceNumber;

#[tactic(auto, unfolding(crate::specs::Receiver::valid_expected))]
fn is_expected(expected: Option<u64>) -> bool
    ensures { result ≡ valid_expected expected }
{
    match expected {
        None => true,
        Some(e) => (1..=SequenceNumber::GREATEST_EXPECTED).contains(&e),
    }
}

// Whether two states expect the same.
pub fn is_same_expected(left: Option<u64>, right: Option<u64>) -> bool
    ensures { result ≡ same_expected left right }
{
    left == right
}

fn is_same_number(left: SequenceNumber, right: SequenceNumber) -> bool
    ensures { result ≡ same_number left right }
{
    left == right
}

fn is_code_of_stored(code: Code) -> bool
    ensures { result ≡ code_of_stored code }
{
    matches!(code, Code::AA | Code::AE)
}

fn is_due(expected: Option<u64>, n: u64) -> bool
    ensures { result ≡ is_due expected n }
{
    match expected {
        None => (1..=SequenceNumber::GREATEST_SENT).contains(&n),
        Some(e) => (n == e) & (n <= SequenceNumber::GREATEST_SENT),
    }
}

fn is_code_of_kept(code: Code, expected: Option<u64>, next: Option<u64>) -> bool
    ensures { result ≡ code_of_kept code expected next }
{
    match code {
        Code::AA => is_same_expected(next, None) | is_same_expected(next, expected),
        Code::AE => false,
        Code::AR => is_same_expected(next, expected),
    }
}

// A row that stores no transaction.
fn is_kept_row(expected: Option<u64>, row: Row) -> bool
    ensures { result ≡ kept_row expected row }
{
    let next = row.persisted.expected;
    is_same_number(row.number, expected_number(next)) & is_code_of_kept(row.code, expected, next)
}

// A row that stores transaction n. There is a number after it, since it is due.
fn is_stored_row(expected: Option<u64>, row: Row, n: u64) -> bool
    ensures { result ≡ stored_row n expected row }
{
    if !(is_code_of_stored(row.code) & is_due(expected, n)) {
        return false;
    }
    is_same_number(row.number, SequenceNumber::Number(n))
        & is_same_expected(row.persisted.expected, Some(n + 1))
}

// Whether the table has this row for what is expected.
#[tactic(auto, unfolding(crate::specs::Receiver::is_row))]
fn is_row(expected: Option<u64>, row: Row) -> bool
    ensures { result ≡ is_row expected row }
{
    match row.persisted.transaction {
        None => is_kept_row(expected, row),
        Some(n) => is_stored_row(expected, row, n),
    }
}

// Whether an answer can carry the control ID.
#[tactic(auto, using(crate::proofs::Replying::unpacked_part), unfolding(crate::specs::Receiver::carried))]
fn is_carried(control_id: ControlId) -> bool
    ensures { result ≡ carried control_id }
{
    if 20 < control_id.length {
        return false;
    }
    let length = control_id.length as usize;
    let mut bytes = [0u8; 24];
    control_id::unpack(control_id, &mut bytes);
    messages::is_control_id(&bytes[..length])
}

fn is_open(expected: Option<u64>, decision: Option<Decision>) -> bool
    ensures { result ≡ valid_open expected decision }
{
    match decision {
        None => true,
        Some(decision) => is_carried(decision.control_id) & is_row(expected, decision.row),
    }
}

#[tactic(auto, unfolding(crate::specs::Receiver::valid_receiver))]
pub(crate) fn is_receiver(receiver: &Receiver) -> bool
    ensures { result ≡ valid_receiver receiver.now }
{
    is_expected(receiver.expected) & is_open(receiver.expected, receiver.decision)
}
