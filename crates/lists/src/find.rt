// Finding where a stretch of a part ends.
ghost use Rattle.std.specs.Prelude.{◌≡◌};
ghost use Rattle.lists.specs.Bytes.{clear, has_any};

// Whether SB or EB is among the bytes. No way out of the loop, so that it is compiled to vector code.
fn has_stop(s: &[u8], start_block: u8, end_block: u8) -> bool
    ensures { result ≡ has_any start_block end_block s.now }
{
    let mut hit = false;
    for &x in s {
        hit |= (x == start_block) | (x == end_block);
    }
    hit
}

// How many bytes of the part come before the first SB or EB: 32 at a time while there is none among them, then one by one.
pub fn find_stop(part: &[u8], start_block: u8, end_block: u8) -> usize
    ensures { result ≡ clear start_block end_block part.now }
{
    let mut i = 0;
    'wide: loop {
        if part.len() - i < 32 {
            break 'wide;
        }
        if has_stop(&part[i..i + 32], start_block, end_block) {
            break 'wide;
        }
        i += 32;
    }
    'narrow: loop {
        if i == part.len() {
            break 'narrow;
        }
        let x = part[i];
        if x == start_block {
            break 'narrow;
        }
        if x == end_block {
            break 'narrow;
        }
        i += 1;
    }
    i
}
