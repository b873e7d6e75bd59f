// A message divided into fragments of a size and a rest: 02, §3. Only lengths are looked at, and nothing is divided: the fragment
// at an offset is found by one subtraction.

#![tactic(auto)]

ghost use Rattle.std.specs.Prelude.{◌≡◌};
ghost use Rattle.fragments.specs.Fragments.{extent_at};

// How long a fragment is, and whether it is the message's last.
#[derive(Clone, Copy)]
pub struct Extent {
    pub length: u64,
    pub last: bool,
}

// The fragment that begins at the offset.
pub fn extent_at(message_length: u64, size: u64, offset: u64) -> Extent
    ensures { result ≡ extent_at message_length size offset }
{
    if message_length < offset {
        return Extent {
            length: 0,
            last: true,
        };
    }
    let left = message_length - offset;
    if left <= size {
        return Extent {
            length: left,
            last: true,
        };
    }
    Extent {
        length: size,
        last: false,
    }
}
