// Copying bytes, handing on a part of them and finding where a stretch ends, with the laws about lists that the proofs of the other crates cite (proofs/).

#![tactic(auto)]

mod find;

ghost use Rattle.std.specs.Prelude.{◌≡◌, take, drop};
ghost use Rattle.lists.specs.Bytes.{overwritten, part_address};

pub use find::find_stop;

// Writes source over the beginning of target, as much of it as fits. By a loop: `copy_from_slice` would have the archive call
// memcpy, and it needs no function of the C library.
pub fn copy_bytes(target: &mut [u8], source: &[u8])
    ensures { target.new ≡ overwritten target.old source.now }
{
    let end = source.len().min(target.len());
    for i in 0..end {
        target[i] = source[i];
    }
}

// The part of s that begins at `start` and has `size` bytes, or as many of them as there are; past the end it is empty and lies
// at the end. No branch: callers ask for parts that are there.
pub fn part_of(s: &[u8], start: usize, size: usize) -> &[u8]
    ensures { (result.now ≡ take size (drop start s.now)) × (result.ref_ptr ≡ part_address s.entry start) }
{
    let from = start.min(s.len());
    let held = size.min(s.len() - from);
    &s[from..from + held]
}
