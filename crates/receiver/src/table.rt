// The table of document 01, 'Receiver of sequence numbers'.
ghost use Rattle.std.specs.Prelude.{◌≡◌, true, ◌≤◌};
ghost use Rattle.numbers.specs.Numbers.{greatest_sent};
ghost use Rattle.receiver.specs.Receiver.{application_code, expected_number, row, stores, row_of};
ghost use Rattle.receiver.specs.Internal.{number_fits, field_fits};

use crate::{Application, Persisted, Row};
use header::Code;
use numbers::{NumberError, SequenceNumber};

fn application_code(application: Application) -> Code
    ensures { result ≡ application_code application }
{
    match application {
        Application::Accepts => Code::AA,
        Application::Errs => Code::AE,
    }
}

pub(crate) fn expected_number(expected: Option<u64>) -> SequenceNumber
    ensures { result ≡ expected_number expected }
{
    match expected {
        None => SequenceNumber::MinusOne,
        Some(number) => SequenceNumber::Number(number),
    }
}

// A row that stores no transaction.
fn row_without(code: Code, number: SequenceNumber, expected: Option<u64>) -> Row
    ensures { result ≡ row code number None expected }
{
    Row {
        code,
        number,
        persisted: Persisted {
            transaction: None,
            expected,
        },
    }
}

// The row that stores a transaction and expects the one after it.
fn row_storing(application: Application, n: u64) -> Row
    requires { n ≤ greatest_sent }
    ensures { result ≡ stores application n }
{
    Row {
        code: application_code(application),
        number: SequenceNumber::Number(n),
        persisted: Persisted {
            transaction: Some(n),
            expected: Some(n + 1),
        },
    }
}

#[tactic(auto, unfolding(crate::specs::Receiver::row_of))]
fn unknown_row(application: Application, n: u64) -> Row
    requires { n ≤ greatest_sent }
    ensures { result ≡ row_of application None (Ok (SequenceNumber.Number n)) }
{
    if n == 0 {
        return row_without(Code::AA, SequenceNumber::MinusOne, None);
    }
    row_storing(application, n)
}

#[tactic(auto, unfolding(crate::specs::Receiver::row_of))]
fn next_row(application: Application, e: u64, n: u64) -> Row
    requires { n ≤ greatest_sent }
    ensures { result ≡ row_of application (Some e) (Ok (SequenceNumber.Number n)) }
{
    if n == 0 {
        return row_without(Code::AA, SequenceNumber::Number(e), Some(e));
    }
    if n == e {
        return row_storing(application, n);
    }
    row_without(Code::AR, SequenceNumber::Number(e), Some(e))
}

#[tactic(auto, unfolding(crate::specs::Receiver::row_of))]
fn number_row(application: Application, expected: Option<u64>, number: SequenceNumber) -> Row
    requires { number_fits number ≡ true }
    ensures { result ≡ row_of application expected (Ok number) }
{
    match number {
        SequenceNumber::MinusOne => { row_without(Code::AA, SequenceNumber::MinusOne, None) }
        SequenceNumber::Number(n) => match expected {
            None => unknown_row(application, n),
            Some(e) => next_row(application, e, n),
        },
    }
}

// The row for what MSH-13 holds.
#[tactic(auto, unfolding(crate::specs::Receiver::row_of))]
pub(crate) fn table_row(
    application: Application,
    expected: Option<u64>,
    field: Result<SequenceNumber, NumberError>,
) -> Row
    requires { field_fits field ≡ true }
    ensures { result ≡ row_of application expected field }
{
    match field {
        Err(_) => row_without(Code::AR, expected_number(expected), expected),
        Ok(number) => number_row(application, expected, number),
    }
}
