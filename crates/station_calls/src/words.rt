// A station and its answer as words.
ghost use Rattle.std.specs.Prelude.{◌≡◌, [], ◌∷◌, ◌≤◌, length};
ghost use Rattle.lists.specs.Bytes.{over};
ghost use Rattle.station.specs.Interrupt.{agrees};
ghost use Rattle.station.specs.StationCalls.{kind_word, is_kind, kind_in, interrupt_in, station_words, station_in, ending_of, reply_words, message_words, station_report};

use crate::interrupts::fresh_turn;
use station::{Acted, Ending, Interrupt, Reply, ReplyKind, Station, StationState, Turn};

// The ASCII characters.
const ETB: u64 = 0x17;

const ETX: u64 = 0x03;

// GMV_REPLY_.., also for the master's words.
pub fn kind_word(kind: ReplyKind) -> u64
    ensures { result ≡ kind_word kind }
{
    kind as u64
}

pub fn is_kind(n: u64) -> bool
    ensures { result ≡ is_kind n }
{
    matches!(n, 0 | 1 | 2 | 5)
}

pub fn kind_in(n: u64) -> ReplyKind
    ensures { result ≡ kind_in n }
{
    match n {
        1 => ReplyKind::Ack,
        2 => ReplyKind::Nak,
        5 => ReplyKind::Rint,
        _ => ReplyKind::NoneYet,
    }
}

fn interrupt_in(n: u64) -> Interrupt
    ensures { result ≡ interrupt_in n }
{
    match n {
        1 => Interrupt::Pending,
        2 => Interrupt::Given,
        _ => Interrupt::Unasked,
    }
}

// Whether the last reply and RINT go together, and with the numbers.
fn agrees(expected: u64, held: u64, kind: ReplyKind, interrupt: Interrupt) -> bool
    ensures { result ≡ agrees expected held kind interrupt }
{
    let given = matches!(interrupt, Interrupt::Given);
    match kind {
        ReplyKind::NoneYet => expected == 1 && held == 0 && !given,
        ReplyKind::Ack => !given,
        ReplyKind::Nak => true,
        ReplyKind::Rint => given,
    }
}

fn station_words(station: Station, turn: Turn) -> [u64; 5]
    ensures { result ≡ station_words station turn }
{
    match station {
        Station::Closed => [0, 0, 0, 0, 0],
        Station::Open(expected, held) => [
            1,
            expected,
            held as u64,
            kind_word(turn.last),
            turn.interrupt as u64,
        ],
    }
}

// Writes over the first five words.
#[tactic(auto, unfolding(lists::specs::Bytes::over))]
pub(crate) fn write_station(words: &mut [u64], station: Station, turn: Turn)
    requires { 5 ≤ length words.old }
    ensures { words.new ≡ over words.old (station_words station turn) }
{
    words[..5].copy_from_slice(&station_words(station, turn));
}

#[tactic(auto, unfolding(station::specs::StationCalls::station_in))]
pub(crate) fn read_station(words: &[u64]) -> Option<StationState>
    requires { 5 ≤ length words.now }
    ensures { result ≡ station_in words.now }
{
    match *words {
        [1, expected, held, kind, interrupt @ 0..=2, ..]
            if is_kind(kind) && agrees(expected, held, kind_in(kind), interrupt_in(interrupt)) => {
            Some(StationState {
                station: Station::Open(expected, held as usize),
                turn: Turn {
                    last: kind_in(kind),
                    interrupt: interrupt_in(interrupt),
                },
            })
        }
        [0, 0, 0, 0, 0, ..] => Some(StationState {
            station: Station::Closed,
            turn: fresh_turn(),
        }),
        _ => None,
    }
}

pub(crate) fn ending_of(number: u64) -> Option<Ending>
    ensures { result ≡ ending_of number }
{
    match number {
        ETB => Some(Ending::Etb),
        ETX => Some(Ending::Etx),
        _ => None,
    }
}

fn reply_words(reply: Reply) -> [u64; 2]
    ensures { result ≡ reply_words reply }
{
    match reply {
        Reply::NoReply => [0, 0],
        Reply::Ack(number) => [1, number],
        Reply::Nak => [2, 0],
        Reply::Eot => [3, 0],
        Reply::Rint => [5, 0],
    }
}

fn message_words(message: Option<usize>) -> [u64; 2]
    ensures { result ≡ message_words message }
{
    match message {
        None => [0, 0],
        Some(n) => [1, n as u64],
    }
}

// Writes over the first four words.
#[tactic(auto, unfolding(lists::specs::Bytes::over))]
pub(crate) fn write_report(words: &mut [u64], acted: Acted)
    requires { 4 ≤ length words.old }
    ensures { words.new ≡ over words.old (station_report acted) }
{
    words[..2].copy_from_slice(&reply_words(acted.reply));
    words[2..4].copy_from_slice(&message_words(acted.message));
}
