//! Serving links by a house over a journal.

ghost use Rattle.std.specs.Prelude.{◌≡◌, IsTrue, IfOk};
ghost use Rattle.ledger_model.specs.Histories.{History};
ghost use Rattle.millicent_http.specs.Held.{nothing_held};
ghost use Rattle.link_turns.specs.Sending.{PartCauses};
ghost use Rattle.house_core.specs.Bench.{limits_of, state_of};
ghost use Rattle.house_core.specs.House.{HouseRepresents};
ghost use Rattle.house_serving.specs.Links.{ServesLinks, ServedEnough, HaveCauses, EndsTurns, ServesLink};

use crate::house_turn::take_turn;
use house_core::{House, ReplyRoom};
use house_state::Trade;
use link_turns::Turn;
use mc_outside::{Link, Outside};
use millicent_http::HeadReader;
use scrip_journal::Halted;

/// How serving links ended. Each but the last hands the house back.
pub enum ServeOut<O, T> {
    /// So many links were served: as many as were asked for, or all that came.
    Done(House<O, T>, u32),
    /// The next link could not be taken.
    Link(House<O, T>),
    /// Memory was refused, before the first link.
    NoMemory(House<O, T>),
    /// The disk failed while the entry of a request was written. It is in doubt, and that request was told
    /// so; no more is served.
    Halted(Halted<O>),
}

/// Serves so many links, one after another, or all that come, and answers how many it served. Each item
/// on a link is answered at a reading of the links' clock, however the link cuts its bytes; a link that
/// fails is ended, and the next one is taken.
///
/// The entry of an accepted request is on the disk before its reply begins, wherever a crash falls.
/// `NoMemory` comes before the first link alone, `Link` only where `next_link` failed, and `Halted` only
/// where the disk failed.
pub fn serve_links<O: Outside, T: Trade>(mut house: House<O, T>, links: u32) -> ServeOut<O, T>
    ensures causes { HaveCauses O.link O.disk house.journal.disk result }
    ensures enough { ServedEnough O.link links result }
    ensures served { (h : History) → HouseRepresents O.disk T.trade house h
        → ServesLinks O.link O.disk T.trade (limits_of house.bench) links house.journal.disk (state_of h house.bench) result }
{
    let Ok(mut reader) = HeadReader::new(house.alloc()) else {
        return ServeOut::NoMemory(house);
    };
    let mut room = ReplyRoom::new();
    let mut served = 0;
    'links: while served < links {
        match house.next_link() {
            Ok(true) => match serve_link(house, &mut reader, &mut room) {
                Ok(after) => house = after,
                Err(halted) => return ServeOut::Halted(halted),
            },
            Ok(false) => return ServeOut::Done(house, served),
            Err(_) => return ServeOut::Link(house),
        }
        served += 1;
    }
    ServeOut::Done(house, served)
}

/// Serves the standing link and ends it: answers each item, up to one that ends the link, to the link's
/// end, or to a fault of the link.
pub fn serve_link<O: Outside, T: Trade>(
    house: House<O, T>,
    reader: &mut HeadReader,
    room: &mut ReplyRoom,
) -> Result<House<O, T>, Halted<O>>
    requires stands { IsTrue (O.link house.journal.disk).stands }
    ensures causes { PartCauses O.link O.disk house.journal.disk (λ x. x.journal.disk) result }
    ensures limits { IfOk result (λ x. limits_of x.bench ≡ limits_of house.bench) }
    ensures served { (h : History) → HouseRepresents O.disk T.trade house h
        → ServesLink O.link O.disk T.trade (limits_of house.bench) house.journal.disk (state_of h house.bench) result }
{
    reader.restart();
    match serve_turns(house, reader, room) {
        Ok((mut house, _turn)) => {
            house.end_link();
            Ok(house)
        }
        Err(mut halted) => {
            halted.end_link();
            Err(halted)
        }
    }
}

/// Takes turns until one ends the link.
fn serve_turns<O: Outside, T: Trade>(
    mut house: House<O, T>,
    reader: &mut HeadReader,
    room: &mut ReplyRoom,
) -> Result<(House<O, T>, Turn), Halted<O>>
    requires stands { IsTrue (O.link house.journal.disk).stands }
    requires empty { reader.old ≡ nothing_held }
    ensures causes { PartCauses O.link O.disk house.journal.disk (λ r. r.0.journal.disk) result }
    ensures limits { IfOk result (λ r. limits_of r.0.bench ≡ limits_of house.bench) }
    ensures ended { (h : History) → HouseRepresents O.disk T.trade house h
        → EndsTurns O.link O.disk T.trade (limits_of house.bench) house.journal.disk (state_of h house.bench) result }
{
    'turns: loop {
        match take_turn(house, reader, room) {
            Ok((after, turn)) => match turn {
                Turn::GoOn => house = after,
                turn => return Ok((after, turn)),
            },
            Err(halted) => return Err(halted),
        }
    }
}
