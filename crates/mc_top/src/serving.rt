//! Serving the site of a book, with a door for its operator where the words name one.

ghost use Rattle.std.specs.Prelude.{◌≡◌};
ghost use Rattle.command_status.specs.Statuses.{number_of};
ghost use Rattle.mc_top.specs.Programs.{ServesDesk, ServesShelf};

use broker_core::Desk;
use command_status::Status;
use door_commands::{DeskDoor, ShelfDoor, serve_open_book};
use mc_outside::Doors;
use site_commands::serve_book;
use site_words::Server;
use std::alloc::Global;
use vendor_core::Shelf;

/// Serves links by the vendor of a book, and tells how it ended.
pub(crate) fn serve_shelf<O: Doors>(alloc: Global, server: &Server<'_>, out: O) -> (O, Status)
    ensures served { ServesShelf O.link O.disk server.now.door server.now.links out result.1 result.0 }
    ensures words { number_of result.1 ≡ 2 → ⊥ }
{
    let trade = Shelf::new(alloc);
    match server.door() {
        Some(_) => serve_open_book(alloc, &ShelfDoor, server.links(), trade, out),
        None => serve_book(alloc, server.links(), trade, out),
    }
}

/// Serves links by the broker of a book, likewise.
pub(crate) fn serve_desk<O: Doors>(alloc: Global, server: &Server<'_>, out: O) -> (O, Status)
    ensures served { ServesDesk O.link O.disk server.now.door server.now.links out result.1 result.0 }
    ensures words { number_of result.1 ≡ 2 → ⊥ }
{
    let trade = Desk::new(alloc);
    match server.door() {
        Some(_) => serve_open_book(alloc, &DeskDoor, server.links(), trade, out),
        None => serve_book(alloc, server.links(), trade, out),
    }
}
