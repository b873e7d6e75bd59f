// What the driver reports besides a good block, and the answers.
ghost use Rattle.std.specs.Prelude.{◌≡◌, None};
ghost use Rattle.station.specs.declared.Reply.TheVariants.{NoReply};
ghost use Rattle.station.specs.Station.{opened_station, station_acted, refused_station, bad_block_of, eot_of};

use crate::block_number::LAST_NUMBER;
use station::{Acted, Reply, Station};

// The answer of an act by which no message is complete.
pub(crate) fn answer(station: Station, reply: Reply) -> Acted
    ensures { result ≡ station_acted station reply None }
{
    Acted {
        refusal: 0,
        station,
        reply,
        message: None,
    }
}

pub(crate) fn refuse_station(station: Station) -> Acted
    ensures { result ≡ refused_station station }
{
    Acted {
        refusal: refusal::STATE,
        station,
        reply: Reply::NoReply,
        message: None,
    }
}

// A block that the driver found bad, or one ended by ENQ.
#[tactic(auto, unfolding(station::specs::Station::bad_block_of))]
pub(crate) fn bad_block(station: Station) -> Acted
    ensures { result ≡ bad_block_of station }
{
    match station {
        Station::Closed => answer(station, Reply::NoReply),
        Station::Open(expected, _) if LAST_NUMBER < expected => refuse_station(station),
        Station::Open(_, _) => answer(station, Reply::Nak),
    }
}

// EOT was received.
#[tactic(auto, unfolding(station::specs::Station::eot_of))]
pub(crate) fn end_of_transmission(station: Station) -> Acted
    ensures { result ≡ eot_of station }
{
    match station {
        Station::Open(expected, _) if LAST_NUMBER < expected => refuse_station(station),
        _ => answer(Station::Closed, Reply::NoReply),
    }
}

// The driver opened the station, whatever it was.
pub(crate) fn station_opened() -> Acted
    ensures { result ≡ station_acted opened_station NoReply None }
{
    answer(Station::Open(1, 0), Reply::NoReply)
}
