// The number that an open station expects.
ghost use Rattle.std.specs.Prelude.{◌≡◌, ◌≤◌, ◌<◌, MatchOption};
ghost use Rattle.station.specs.Station.{next_number};
ghost use Rattle.station.specs.Interrupt.{number_before};

// The last block number: after it comes 0.
pub const LAST_NUMBER: u64 = 7;

#[derive(Clone, Copy)]
pub(crate) struct BlockNumber {
    pub(crate) value: u64,
    ghost in_range: { value ≤ 7 },
}

impl BlockNumber {
    pub(crate) fn new(value: u64) -> Option<BlockNumber>
        ensures { MatchOption result (7 < value) (λ n. n.value ≡ value) }
    {
        if LAST_NUMBER < value {
            return None;
        }
        Some(BlockNumber { value })
    }

    // Counted round: after 7 comes 0.
    #[tactic(auto, unfolding(station::specs::Station::next_number))]
    pub(crate) fn next(self) -> u64
        ensures { result ≡ next_number self.value }
    {
        if self.value == LAST_NUMBER {
            0
        } else {
            self.value + 1
        }
    }

    // Counted round: before 0 comes 7.
    #[tactic(auto, unfolding(station::specs::Interrupt::number_before))]
    pub(crate) fn before(self) -> u64
        ensures { result ≡ number_before self.value }
    {
        if self.value == 0 {
            LAST_NUMBER
        } else {
            self.value - 1
        }
    }
}
