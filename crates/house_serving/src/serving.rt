//! Serving links, one after another.

ghost use Rattle.std.specs.Prelude.{◌≡◌, IsTrue};
ghost use Rattle.ledger_model.specs.Histories.{History};
ghost use Rattle.millicent_http.specs.Held.{nothing_held};
ghost use Rattle.millicent_http.specs.Steps.{BySteps};
ghost use Rattle.millicent_http.specs.Courses.{HadLink};
ghost use Rattle.link_turns.specs.Turns.{Ended};
ghost use Rattle.house_core.specs.Bench.{IsHouse, Refines, limits_of, windows_of};
ghost use Rattle.house_state.specs.LiveWindows.{AreUsed};
ghost use Rattle.house_core.specs.Session.{Step};
ghost use Rattle.house_core.specs.Tallies.{ToldStep};
ghost use Rattle.house_serving.specs.Counting.{Counts};
ghost use Rattle.house_serving.specs.Served.{Served};

use crate::turn::serve_next;
use house_core::{Bench, ReplyRoom};
use house_state::Trade;
use link_turns::Turn;
use mc_outside::Link;
use millicent_http::{Clock, HeadReader};

/// Why fewer links were served than were asked for, though more may come.
#[derive(Clone, Copy, Debug, PartialEq, Eq)]
pub enum BenchEnd {
    /// Memory was refused, before the first link.
    NoMemory,
    /// The next link could not be taken.
    Link,
}

/// Serves so many links, one after another, or all that come, and answers how many it served. Each item
/// on a link is answered at a reading of the links' clock, however the link cuts its bytes; a link that
/// fails is ended, and the next one is taken.
pub fn serve_bench<K: Link, T: Trade>(
    bench: &mut Bench<T>,
    k: &mut K,
    links: u32,
) -> Result<u32, BenchEnd>
    requires house { (h : History) × IsHouse T.trade bench.old h }
    ensures moved { K.link_moved k.old k.new }
    ensures limits { limits_of bench.new ≡ limits_of bench.old }
    ensures used { AreUsed (windows_of bench.old) → AreUsed (windows_of bench.new) }
    ensures tallied { Counts T.trade (λ steps s. Served (ToldStep (limits_of bench.old)) Clock.OfLinks links result steps s (K.link k.old) (K.link k.new)) bench.old bench.new }
    ensures served { Refines T.trade (BySteps (λ steps s. Served (Step (limits_of bench.old)) Clock.OfLinks links result steps s (K.link k.old) (K.link k.new))) bench.old bench.new }
{
    serve_bench_by(bench, k, links, &Clock::OfLinks)
}

/// As [`serve_bench`], by a clock that is given.
pub fn serve_bench_by<K: Link, T: Trade>(
    bench: &mut Bench<T>,
    k: &mut K,
    links: u32,
    clock: &Clock,
) -> Result<u32, BenchEnd>
    requires house { (h : History) × IsHouse T.trade bench.old h }
    ensures moved { K.link_moved k.old k.new }
    ensures limits { limits_of bench.new ≡ limits_of bench.old }
    ensures used { AreUsed (windows_of bench.old) → AreUsed (windows_of bench.new) }
    ensures tallied { Counts T.trade (λ steps s. Served (ToldStep (limits_of bench.old)) clock.now links result steps s (K.link k.old) (K.link k.new)) bench.old bench.new }
    ensures served { Refines T.trade (BySteps (λ steps s. Served (Step (limits_of bench.old)) clock.now links result steps s (K.link k.old) (K.link k.new))) bench.old bench.new }
{
    let Ok(mut reader) = HeadReader::new(bench.alloc()) else {
        return Err(BenchEnd::NoMemory);
    };
    let mut room = ReplyRoom::new();
    let mut served = 0;
    'links: while served < links {
        match k.next_link() {
            Ok(true) => serve_standing(bench, &mut reader, k, clock, &mut room),
            Ok(false) => return Ok(served),
            Err(_) => return Err(BenchEnd::Link),
        }
        served += 1;
    }
    Ok(served)
}

/// Serves the standing link and ends it: answers each item, up to one that ends the link, to the link's
/// end, or to a fault of the link.
fn serve_standing<K: Link, T: Trade>(
    bench: &mut Bench<T>,
    reader: &mut HeadReader,
    k: &mut K,
    clock: &Clock,
    room: &mut ReplyRoom,
)
    requires stands { IsTrue (K.link k.old).stands }
    requires house { (h : History) × IsHouse T.trade bench.old h }
    ensures moved { K.link_moved k.old k.new }
    ensures limits { limits_of bench.new ≡ limits_of bench.old }
    ensures used { AreUsed (windows_of bench.old) → AreUsed (windows_of bench.new) }
    ensures course { Counts T.trade (λ steps s. HadLink (ToldStep (limits_of bench.old)) clock.now steps s (K.link k.old) (K.link k.new)) bench.old bench.new }
{
    reader.restart();
    serve_turns(bench, reader, k, clock, room);
    k.end_link();
}

/// Takes turns until one ends the link.
fn serve_turns<K: Link, T: Trade>(
    bench: &mut Bench<T>,
    reader: &mut HeadReader,
    k: &mut K,
    clock: &Clock,
    room: &mut ReplyRoom,
) -> Turn
    requires stands { IsTrue (K.link k.old).stands }
    requires empty { reader.old ≡ nothing_held }
    requires house { (h : History) × IsHouse T.trade bench.old h }
    ensures moved { K.link_moved k.old k.new }
    ensures limits { limits_of bench.new ≡ limits_of bench.old }
    ensures used { AreUsed (windows_of bench.old) → AreUsed (windows_of bench.new) }
    ensures ended { Counts T.trade (λ steps s. Ended (ToldStep (limits_of bench.old)) clock.now result steps s (K.link k.old) (K.link k.new)) bench.old bench.new }
{
    'turns: loop {
        match serve_next(bench, reader, k, clock, room) {
            Turn::GoOn => {}
            turn => return turn,
        }
    }
}
