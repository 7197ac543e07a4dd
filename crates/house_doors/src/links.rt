//! Links of customers and of the operator, one after another.

ghost use Rattle.std.specs.Prelude.{◌≡◌, length, IsTrue, IfOk};
ghost use Rattle.mc_outside.specs.LinkView.{IsWhose};
ghost use Rattle.ledger_model.specs.Histories.{History};
ghost use Rattle.operator_command.specs.Operations.{full};
ghost use Rattle.link_turns.specs.Sending.{PartCauses};
ghost use Rattle.house_core.specs.Bench.{limits_of, state_of};
ghost use Rattle.house_core.specs.House.{HouseRepresents};
ghost use Rattle.house_serving.specs.Links.{HaveCauses, ServedEnough};
ghost use Rattle.house_doors.specs.declared.command.TheConstants.{MOST_TOLD};
ghost use Rattle.house_doors.specs.Links.{HadEither, DoubtsEither, HasLimits, ServesOne, ServesBy};

use crate::command::{MOST_TOLD, serve_command};
use crate::operators::Operators;
use house_core::{House, ReplyRoom};
use house_serving::{ServeOut, serve_link};
use house_state::Trade;
use mc_outside::{Doors, Link};
use millicent_http::HeadReader;
use scrip_journal::Halted;
use std::alloc::Global;

/// Serves so many links, one after another, or all that come, and answers how many it served. A customer's is served as
/// `serve_links` does; one that came through the operator's door brings one command, which is done at a reading of the
/// links' clock and answered with its status and its line.
///
/// An entry is on the disk before its reply or its answer begins, wherever a crash falls. `NoMemory` comes before the first
/// link alone, `Link` only where `next_link` failed, and `Halted` only where the disk failed.
pub fn serve_doors<O: Doors, T: Trade, P: Operators<T>>(
    alloc: Global,
    operators: &P,
    mut house: House<O, T>,
    links: u32,
) -> ServeOut<O, T>
    ensures causes { HaveCauses O.link O.disk house.journal.disk result }
    ensures enough { ServedEnough O.link links result }
    ensures limits { HasLimits (limits_of house.bench) result }
    ensures served { (h : History) → HouseRepresents O.disk T.trade house h
        → limits_of house.bench ≡ full
        → ServesBy O.link O.disk T.trade (HadEither IsWhose (P.ends operators.now) MOST_TOLD)
        (DoubtsEither IsWhose (P.doubts operators.now) MOST_TOLD) links house.journal.disk (state_of h house.bench) result }
{
    let Ok(mut reader) = HeadReader::new(house.alloc()) else {
        return ServeOut::NoMemory(house);
    };
    let mut room = Vec::new(alloc);
    match room.resize(MOST_TOLD, 0) {
        Ok(()) => (),
        Err(_) => return ServeOut::NoMemory(house),
    }
    let mut replies = ReplyRoom::new();
    let mut served = 0;
    'links: while served < links {
        match house.next_link() {
            Ok(true) => match serve_one(
                alloc,
                operators,
                house,
                &mut reader,
                &mut replies,
                &mut room,
            ) {
                Ok(after) => house = after,
                Err(halted) => return ServeOut::Halted(halted),
            },
            Ok(false) => return ServeOut::Done(house, served),
            Err(_) => return ServeOut::Link(house),
        }
        served += 1;
    }
    ServeOut::Done(house, served)
}

/// Serves the standing link, whosever it is, and ends it.
fn serve_one<O: Doors, T: Trade, P: Operators<T>>(
    alloc: Global,
    operators: &P,
    house: House<O, T>,
    reader: &mut HeadReader,
    replies: &mut ReplyRoom,
    room: &mut Vec<u8>,
) -> Result<House<O, T>, Halted<O>>
    requires stands { IsTrue (O.link house.journal.disk).stands }
    requires room { length room.old.items ≡ MOST_TOLD }
    ensures room { length room.new.items ≡ MOST_TOLD }
    ensures causes { PartCauses O.link O.disk house.journal.disk (λ x. x.journal.disk) result }
    ensures limits { IfOk result (λ x. limits_of x.bench ≡ limits_of house.bench) }
    ensures served { (h : History) → HouseRepresents O.disk T.trade house h
        → limits_of house.bench ≡ full
        → ServesOne O.link O.disk T.trade (HadEither IsWhose (P.ends operators.now) MOST_TOLD)
        (DoubtsEither IsWhose (P.doubts operators.now) MOST_TOLD) house.journal.disk (state_of h house.bench) result }
{
    if house.is_operators() {
        serve_command(alloc, operators, house, room)
    } else {
        serve_link(house, reader, replies)
    }
}
