// Fixed fields of three and five digits.
ghost use Rattle.std.specs.Prelude.{◌≡◌};
ghost use Rattle.block.specs.Format.{five_digits, three_digits};

use settings::digit_of;

// The last three digits of n.
#[tactic(auto, unfolding(crate::specs::Format::three_digits))]
pub fn three_digits(n: usize) -> [u8; 3]
    ensures { result ≡ three_digits n }
{
    [digit_of(n / 100), digit_of(n / 10), digit_of(n)]
}

// The last five digits of n.
#[tactic(auto, unfolding(crate::specs::Format::five_digits))]
pub fn five_digits(n: usize) -> [u8; 5]
    ensures { result ≡ five_digits n }
{
    [
        digit_of(n / 10000),
        digit_of(n / 1000),
        digit_of(n / 100),
        digit_of(n / 10),
        digit_of(n),
    ]
}
