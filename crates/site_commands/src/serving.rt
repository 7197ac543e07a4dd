//! Serving the site of a book.

ghost use Rattle.std.specs.Prelude.{◌≡◌, [], List, ℕ, Some};
ghost use Rattle.house_serving.specs.Links.{served_outside};
ghost use Rattle.site_commands.specs.Endings.{served_status};
ghost use Rattle.site_commands.specs.Serving.{ServesBook, ServeCauses};
ghost use Rattle.command_status.specs.Statuses.{number_of};

use command_status::{Status, not_opened};
use house_opening::open_house;
use house_serving::{ServeOut, serve_links};
use house_state::Trade;
use mc_outside::Outside;
use mc_requests::Limits;
use std::alloc::Global;

/// Opens the book on the outside's disk as that of a site of the trade's kind, and serves so many links. The
/// trade has learned nothing yet. Hands the outside back, and tells how it ended.
pub fn serve_book<O: Outside, T: Trade>(alloc: Global, links: u32, trade: T, out: O) -> (O, Status)
    requires { (T.trade trade).represents [] }
    ensures words { number_of result.1 ≡ 2 → ⊥ }
    ensures causes { ServeCauses O.link O.disk links out result.1 result.0 }
    ensures served { (x : List ℕ) → (O.disk out).contents ≡ Some x
        → ServesBook O.link O.disk T.passes (T.trade trade).site links x out result.1 result.0 }
{
    match open_house(alloc, out, Limits::FULL, trade) {
        Ok(house) => ended(serve_links(house, links)),
        Err(fault) => not_opened(fault),
    }
}

/// The outside of a house that served, and how it ended.
fn ended<O: Outside, T: Trade>(served: ServeOut<O, T>) -> (O, Status)
    ensures out { result.0 ≡ served_outside served }
    ensures status { result.1 ≡ served_status served }
    ensures words { number_of result.1 ≡ 2 → ⊥ }
{
    match served {
        ServeOut::Done(house, links) => (house.close(), Status::Served(links)),
        ServeOut::Link(house) => (house.close(), Status::LinkFault),
        ServeOut::NoMemory(house) => (house.close(), Status::NoMemory),
        ServeOut::Halted(halted) => (halted.close(), Status::DiskFault),
    }
}
