// Reading a number.
ghost use Rattle.std.specs.Prelude.{◌≡◌, true, ◌≤◌, length};
ghost use Rattle.std.specs.List.{list_all};
ghost use Rattle.lists.specs.Bytes.{all};
ghost use Rattle.numbers.specs.Numbers.{is_digit, value, number_field};

use crate::compare::is_text;
use crate::{NumberError, SequenceNumber};

// Whether the bytes are digits.
fn are_digits(s: &[u8]) -> bool
    ensures { result ≡ list_all is_digit s.now }
{
    s.iter().all(|x| x.is_ascii_digit())
}

// The number that at most fifteen digits stand for.
#[tactic(auto, using(crate::proofs::Laws::power_most, crate::proofs::Laws::digit_most))]
fn value_of(s: &[u8]) -> u64
    requires s_len_bound { length s.now ≤ 15 }
    requires s_value { all is_digit s.now ≡ true }
    ensures { result ≡ value s.now }
{
    let mut sum: u64 = 0;
    for &x in s {
        sum = sum * 10 + u64::from(x - b'0');
    }
    sum
}

// What a field holds whose numbers are at most `most`.
#[tactic(auto, using(crate::proofs::Laws::field_cases))]
pub fn read_number(field: &[u8], most: u64) -> Result<SequenceNumber, NumberError>
    ensures { result ≡ number_field most field.now }
{
    if field.is_empty() {
        return Err(NumberError::Missing);
    }
    if is_text(field, SequenceNumber::MinusOne) {
        return Ok(SequenceNumber::MinusOne);
    }
    if 15 < field.len() || !are_digits(field) {
        return Err(NumberError::NotNumber);
    }
    let number = value_of(field);
    if most < number {
        return Err(NumberError::NotNumber);
    }
    Ok(SequenceNumber::Number(number))
}
