// A good block.
ghost use Rattle.std.specs.Prelude.{◌≡◌};
ghost use Rattle.lists.specs.Outcome.{outcome};
ghost use Rattle.station.specs.Station.{precedes, appended, expected_block, open_block, good_block_of};

use crate::block_number::{BlockNumber, LAST_NUMBER};
use crate::units::{answer, refuse_station};
use station::{Acted, Ending, Reply, Station};

// Whether n is the number just before m, counted round. Any numbers.
#[tactic(auto, unfolding(station::specs::Station::precedes, station::specs::Station::next_number))]
pub fn precedes(n: u64, m: u64) -> bool
    ensures { result ≡ precedes n m }
{
    if n == LAST_NUMBER {
        m == 0
    } else {
        0 < m && m - 1 == n
    }
}

// The answer to an appended block, after which the text has n bytes.
fn acknowledge(expected: BlockNumber, ending: Ending, n: usize) -> Acted
    ensures { result ≡ appended expected.value ending n }
{
    let next = expected.next();
    let reply = Reply::Ack(expected.value);
    match ending {
        Ending::Etb => answer(Station::Open(next, n), reply),
        Ending::Etx => Acted {
            message: Some(n),
            ..answer(Station::Open(next, 0), reply)
        },
    }
}

// The block with the expected number: its text is appended to what is held.
#[tactic(auto, using(lists::proofs::Put::copied_whole))]
fn take_expected(
    expected: BlockNumber,
    held: usize,
    ending: Ending,
    text: &[u8],
    buffer: &mut [u8],
) -> Acted
    ensures { outcome result buffer.new ≡ expected_block expected.value held ending text.now buffer.old }
{
    if buffer.len() < held || buffer.len() - held < text.len() {
        return answer(Station::Closed, Reply::Eot);
    }
    let end = held + text.len();
    lists::copy_bytes(&mut buffer[held..end], text);
    acknowledge(expected, ending, end)
}

// A number over 7 is neither the expected one nor the one before it.
#[tactic(auto, unfolding(station::specs::Station::precedes, station::specs::Station::next_number))]
fn block_when_open(
    expected: BlockNumber,
    held: usize,
    n: u64,
    ending: Ending,
    text: &[u8],
    buffer: &mut [u8],
) -> Acted
    ensures { outcome result buffer.new ≡ open_block expected.value held n ending text.now buffer.old }
{
    let station = Station::Open(expected.value, held);
    match n {
        _ if n == expected.value => take_expected(expected, held, ending, text, buffer),
        _ if precedes(n, expected.value) => answer(station, Reply::Ack(n)),
        _ => answer(station, Reply::Nak),
    }
}

// A good block with its number, ended by ETB or ETX. The text of the expected one is appended to what the buffer holds.
#[tactic(auto, unfolding(station::specs::Station::good_block_of))]
pub(crate) fn good_block(
    station: Station,
    n: u64,
    ending: Ending,
    text: &[u8],
    buffer: &mut [u8],
) -> Acted
    ensures { outcome result buffer.new ≡ good_block_of station n ending text.now buffer.old }
{
    match station {
        Station::Closed => answer(station, Reply::NoReply),
        Station::Open(expected, held) => match BlockNumber::new(expected) {
            None => refuse_station(station),
            Some(expected) => block_when_open(expected, held, n, ending, text, buffer),
        },
    }
}
