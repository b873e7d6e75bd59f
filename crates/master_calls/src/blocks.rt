// The block out: sent, sent again, acknowledged.
ghost use Rattle.std.specs.Prelude.{◌≡◌, ◌<◌};
ghost use Rattle.lists.specs.Bytes.{greatest_word};
ghost use Rattle.master.specs.declared.Progress.TheVariants.{NoProgress};
ghost use Rattle.master.specs.Master.{block_number, ending_of_part, block_out, master_acted, unchanged, refused_master, sends_out, resend_of, acknowledged_of, accepted_of, ack_of};

use master::{BlockPart, End, Master, MasterActed, Outstanding, Progress, Transmission};
use station::Ending;
use station_calls::LAST_NUMBER;

// 000's L: a block is sent again at most so often.
pub(crate) const MOST_RESENDS: u64 = 5;

#[tactic(auto, unfolding(master::specs::Master::block_number, station::specs::Station::next_number))]
fn block_number(count: u64) -> u64
    ensures { result ≡ block_number count }
{
    let before = count % 8;
    if before == LAST_NUMBER { 0 } else { before + 1 }
}

fn ending_of_part(last: bool) -> Ending
    ensures { result ≡ ending_of_part last }
{
    if last { Ending::Etx } else { Ending::Etb }
}

fn block_out(o: Outstanding) -> BlockPart
    ensures { result ≡ block_out o }
{
    let extent = fragments::extent_at(o.message_length, o.block_size, o.offset);
    BlockPart {
        number: block_number(o.count),
        ending: ending_of_part(extent.last),
        offset: o.offset,
        length: extent.length,
    }
}

pub(crate) fn answer(master: Master, send: Transmission, end: End) -> MasterActed
    ensures { result ≡ master_acted master send NoProgress end }
{
    MasterActed {
        refusal: 0,
        master,
        send,
        progress: Progress::NoProgress,
        end,
    }
}

pub(crate) fn nothing_changes(master: Master) -> MasterActed
    ensures { result ≡ unchanged master }
{
    answer(master, Transmission::Nothing, End::NotEnded)
}

pub(crate) fn refuse(number: u64, master: Master) -> MasterActed
    ensures { result ≡ refused_master number master }
{
    MasterActed {
        refusal: number,
        ..nothing_changes(master)
    }
}

pub(crate) fn send_out(progress: Progress, o: Outstanding) -> MasterActed
    ensures { result ≡ sends_out progress o }
{
    MasterActed {
        send: Transmission::SendBlock(block_out(o)),
        progress,
        ..nothing_changes(Master::Waiting(o))
    }
}

// The block is sent again, or the opening fails.
#[tactic(auto, unfolding(master::specs::Master::resend_of))]
pub(crate) fn resend(o: Outstanding) -> MasterActed
    ensures { result ≡ resend_of o }
{
    if MOST_RESENDS <= o.resends {
        return answer(Master::Closed(o.count), Transmission::SendEot, End::Failed);
    }
    let again = Outstanding {
        resends: o.resends + 1,
        ..o
    };
    send_out(Progress::NoProgress, again)
}

// The next block, or the message is done.
#[tactic(auto, using(fragments::proofs::Fragments::ends_before), unfolding(master::specs::Master::acknowledged_of))]
fn go_on(o: Outstanding) -> MasterActed
    requires { o.count < greatest_word }
    ensures { result ≡ acknowledged_of o }
{
    let extent = fragments::extent_at(o.message_length, o.block_size, o.offset);
    if extent.last {
        return MasterActed {
            progress: Progress::Done,
            ..nothing_changes(Master::Idle(o.count + 1))
        };
    }
    let next = Outstanding {
        offset: o.offset + o.block_size,
        resends: 0,
        count: o.count + 1,
        ..o
    };
    send_out(Progress::Acknowledged, next)
}

// The block out is accepted. What could not be counted is not taken.
#[tactic(auto, unfolding(master::specs::Master::accepted_of))]
pub(crate) fn accept(o: Outstanding) -> MasterActed
    ensures { result ≡ accepted_of o }
{
    if o.count == u64::MAX {
        return nothing_changes(Master::Waiting(o));
    }
    go_on(o)
}

// ACK with any number, while a block is out.
#[tactic(auto, unfolding(master::specs::Master::ack_of))]
pub(crate) fn take_ack(n: u64, o: Outstanding) -> MasterActed
    ensures { result ≡ ack_of n o }
{
    let number = block_number(o.count);
    match n {
        _ if n == number => accept(o),
        _ if station_calls::precedes(n, number) => resend(o),
        _ => nothing_changes(Master::Waiting(o)),
    }
}
