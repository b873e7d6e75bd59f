// Bytes that data may have, and the checksum.
ghost use Rattle.std.specs.Prelude.{◌≡◌, not, position};
ghost use Rattle.settings.specs.Settings.{allowed};
ghost use Rattle.settings.specs.DataBytes.{first_forbidden, all_allowed, xor_from};

use crate::is_allowed;

// Whether all bytes are allowed. No way out of the loop, so that it is compiled to vector code.
pub fn are_allowed(s: &[u8]) -> bool
    ensures { result ≡ all_allowed s.now }
{
    let mut good = true;
    for &x in s {
        good &= is_allowed(x);
    }
    good
}

fn forbidden_place(s: &[u8]) -> Option<usize>
    ensures { result ≡ position (λ x. not (allowed x)) s.now }
{
    s.iter().position(|x| !is_allowed(*x))
}

// The offset of the first byte that is not allowed, or the length where there is none.
#[tactic(auto, using(crate::proofs::DataLaws::forbidden_position))]
pub fn first_forbidden(s: &[u8]) -> usize
    ensures { result ≡ first_forbidden s.now }
{
    forbidden_place(s).unwrap_or(s.len())
}

// The exclusive-or of seed and every byte of s.
#[tactic(auto, using(crate::proofs::DataLaws::fold_is))]
pub fn checksum(seed: u8, s: &[u8]) -> u8
    ensures { result ≡ xor_from seed s.now }
{
    s.iter().fold(seed, |sum, x| sum ^ x)
}
