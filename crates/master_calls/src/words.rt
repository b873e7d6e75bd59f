// A master and its answer as words.
ghost use Rattle.std.specs.Prelude.{◌≡◌, ◌≤◌, length, cond, Some, None};
ghost use Rattle.lists.specs.Bytes.{over};
ghost use Rattle.master.specs.MasterCalls.{master_words, reversal_words, state_words, known_reversal, reversal_in, known_if, master_in, response_of, ending_word, transmission_words, progress_words, count_words, master_report};

use crate::reversals::fits;
use master::{
    End, Master, MasterActed, MasterState, Outstanding, Progress, Response, Reversal, Transmission,
};
use station::Ending;

fn master_words(master: Master) -> [u64; 6]
    ensures { result ≡ master_words master }
{
    match master {
        Master::Closed(count) => [0, 0, 0, 0, 0, count],
        Master::Idle(count) => [1, 0, 0, 0, 0, count],
        Master::Waiting(o) => [
            2,
            o.message_length,
            o.block_size,
            o.offset,
            o.resends,
            o.count,
        ],
    }
}

fn reversal_words(v: Reversal) -> [u64; 4]
    ensures { result ≡ reversal_words v }
{
    [
        station_calls::kind_word(v.last),
        u64::from(v.interrupted),
        u64::from(v.enquired),
        u64::from(v.may_receive),
    ]
}

// Writes over the first ten words.
#[tactic(auto, unfolding(lists::specs::Bytes::over))]
pub(crate) fn write_master(words: &mut [u64], master: Master, v: Reversal)
    requires { 10 ≤ length words.old }
    ensures { words.new ≡ over words.old (state_words master v) }
{
    words[..6].copy_from_slice(&master_words(master));
    words[6..10].copy_from_slice(&reversal_words(v));
}

fn read_reversal(words: &[u64]) -> Option<Reversal>
    requires { 10 ≤ length words.now }
    ensures { result ≡ cond (known_reversal words.now) (Some (reversal_in words.now)) None }
{
    let &[
        _,
        _,
        _,
        _,
        _,
        _,
        last,
        interrupted,
        enquired,
        may_receive,
        ..
    ] = words
    else {
        unreachable!();
    };
    if !station_calls::is_kind(last) || 1 < interrupted || 1 < enquired || 1 < may_receive {
        return None;
    }
    Some(Reversal {
        last: station_calls::kind_in(last),
        interrupted: interrupted == 1,
        enquired: enquired == 1,
        may_receive: may_receive == 1,
    })
}

fn known_if(words: &[u64], master: Master) -> Option<MasterState>
    requires { 10 ≤ length words.now }
    ensures { result ≡ known_if words.now master }
{
    let reversal = read_reversal(words)?;
    fits(master, reversal).then_some(MasterState { master, reversal })
}

#[tactic(auto, unfolding(master::specs::MasterCalls::master_in))]
pub(crate) fn read_master(words: &[u64]) -> Option<MasterState>
    requires { 10 ≤ length words.now }
    ensures { result ≡ master_in words.now }
{
    match *words {
        [2, message_length, block_size, offset, resends, count, ..] => {
            let waiting = Outstanding {
                message_length,
                block_size,
                offset,
                resends,
                count,
            };
            known_if(words, Master::Waiting(waiting))
        }
        [1, 0, 0, 0, 0, count, ..] => known_if(words, Master::Idle(count)),
        [0, 0, 0, 0, 0, count, ..] => known_if(words, Master::Closed(count)),
        _ => None,
    }
}

pub(crate) fn response_of(code: u64, number: u64) -> Option<Response>
    ensures { result ≡ response_of code number }
{
    match code {
        1 => Some(Response::Ack(number)),
        2 => Some(Response::Nak),
        3 => Some(Response::Eot),
        4 => Some(Response::Damaged),
        5 => Some(Response::Rint),
        _ => None,
    }
}

fn ending_word(ending: Ending) -> u64
    ensures { result ≡ ending_word ending }
{
    match ending {
        Ending::Etb => 0x17,
        Ending::Etx => 0x03,
    }
}

fn transmission_words(send: Transmission) -> [u64; 5]
    ensures { result ≡ transmission_words send }
{
    match send {
        Transmission::Nothing => [0, 0, 0, 0, 0],
        Transmission::SendBlock(part) => [
            1,
            part.number,
            ending_word(part.ending),
            part.offset,
            part.length,
        ],
        Transmission::SendEot => [2, 0, 0, 0, 0],
        Transmission::SendEnq => [3, 0, 0, 0, 0],
    }
}

fn progress_words(progress: Progress) -> [u64; 2]
    ensures { result ≡ progress_words progress }
{
    match progress {
        Progress::NoProgress => [0, 0],
        Progress::Acknowledged => [1, 0],
        Progress::Done => [1, 1],
    }
}

fn count_words(master: Master) -> [u64; 2]
    ensures { result ≡ count_words master }
{
    match master {
        Master::Closed(count) | Master::Idle(count) => [count, 0],
        Master::Waiting(o) => [o.count, o.resends],
    }
}

fn report_words(acted: MasterActed) -> [u64; 10]
    ensures { result ≡ master_report acted }
{
    let [send, number, ending, offset, length] = transmission_words(acted.send);
    let [acknowledged, done] = progress_words(acted.progress);
    let end = acted.end as u64;
    let [count, resends] = count_words(acted.master);
    [
        send,
        number,
        ending,
        offset,
        length,
        acknowledged,
        done,
        end,
        count,
        resends,
    ]
}

// Writes over the first ten words.
#[tactic(auto, unfolding(lists::specs::Bytes::over))]
pub(crate) fn write_report(words: &mut [u64], acted: MasterActed)
    requires { 10 ≤ length words.old }
    ensures { words.new ≡ over words.old (master_report acted) }
{
    words[..10].copy_from_slice(&report_words(acted));
}
