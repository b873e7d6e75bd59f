// The settings of a sender or receiver as C passes them, as bytes and a limit but not looked at. What they are passed to looks
// at them first of all and refuses them (1); so a call looks at most twice, there and in the writer.
ghost use Rattle.std.specs.Prelude.{◌≡◌};
ghost use Rattle.giamuvich.specs.Internal.{unchecked_hybrid, unchecked_minimal};

use settings::{Kind, Settings};

pub(crate) fn unchecked_hybrid(
    start_block: u64,
    end_block: u64,
    data_limit: u64,
) -> Option<Settings>
    ensures { result ≡ unchecked_hybrid start_block end_block data_limit }
{
    if 255 < start_block {
        return None;
    }
    if 255 < end_block {
        return None;
    }
    Some(Settings {
        kind: Kind::Hybrid,
        start_block: start_block as u8,
        end_block: end_block as u8,
        data_limit: data_limit as usize,
    })
}

pub(crate) fn unchecked_minimal(data_limit: u64) -> Option<Settings>
    ensures { result ≡ unchecked_minimal data_limit }
{
    Some(Settings {
        kind: Kind::Minimal,
        start_block: Settings::START_BLOCK,
        end_block: Settings::END_BLOCK,
        data_limit: data_limit as usize,
    })
}
