// Decimal digits.
ghost use Rattle.std.specs.Prelude.{◌≡◌};
ghost use Rattle.settings.specs.DataBytes.{digit};

// The last decimal digit of n, in ASCII.
pub fn digit_of(n: usize) -> u8
    ensures { result ≡ digit n }
{
    (n % 10) as u8 + b'0'
}
