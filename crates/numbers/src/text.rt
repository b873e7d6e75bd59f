// How long a number is in a field: -1, or plain decimal.
ghost use Rattle.std.specs.Prelude.{◌≡◌, length};
ghost use Rattle.numbers.specs.Numbers.{decimal, text_of};

use crate::SequenceNumber;

// How many digits n has.
#[tactic(auto, using(crate::proofs::Laws::length_one, crate::proofs::Laws::length_more, crate::proofs::Laws::length_least, crate::proofs::Laws::length_most))]
fn digit_count(n: u64) -> usize
    ensures { result ≡ length (decimal n) }
{
    let mut count = 1;
    let mut rest = n;
    while 9 < rest {
        rest /= 10;
        count += 1;
    }
    count
}

// How many bytes a number takes in a field.
pub fn text_length(number: SequenceNumber) -> usize
    ensures { result ≡ length (text_of number) }
{
    match number {
        SequenceNumber::MinusOne => 2,
        SequenceNumber::Number(n) => digit_count(n),
    }
}
