// Comparing a field with a number as it is written.
ghost use Rattle.std.specs.Prelude.{◌≡◌};
ghost use Rattle.lists.specs.Bytes.{same};
ghost use Rattle.numbers.specs.Numbers.{decimal, text_of};

use crate::SequenceNumber;
use settings::digit_of;

// Whether the field is n in plain decimal, looked at from the last digit on.
#[tactic(auto, using(crate::proofs::Texts::decimal_cases))]
fn is_decimal(field: &[u8], n: u64) -> bool
    ensures { result ≡ same field.now (decimal n) }
{
    let mut bytes = field;
    let mut rest = n;
    while let Some((last, before)) = bytes.split_last() {
        if *last != digit_of(rest as usize) {
            return false;
        }
        if rest < 10 {
            return before.is_empty();
        }
        bytes = before;
        rest /= 10;
    }
    false
}

// Whether the field is the number as it is written: -1, or plain decimal.
#[tactic(auto, using(crate::proofs::Texts::minus_one, crate::proofs::Texts::minus_other))]
pub fn is_text(field: &[u8], number: SequenceNumber) -> bool
    ensures { result ≡ same field.now (text_of number) }
{
    match number {
        SequenceNumber::MinusOne => field.len() == 2 && field.starts_with(b"-1"),
        SequenceNumber::Number(n) => is_decimal(field, n),
    }
}
