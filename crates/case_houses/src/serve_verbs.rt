//! Lines that have a house serve links with a book.

ghost use Rattle.std.specs.Prelude.{[]};

use broker_core::Desk;
use case_lines::{Fault, Lines, State, small};
use house_opening::open_house;
use house_serving::{ServeOut, serve_links};
use house_state::Trade;
use mc_stage::Stage;
use scrip_journal::HouseFault;
use vendor_core::Shelf;

/// The verbs of this module; None where the verb is none of them.
pub(crate) fn act(
    state: &mut State,
    verb: &[u8],
    args: &[&[u8]],
    out: &mut Lines,
) -> Option<Result<(), Fault>> {
    Some(match verb {
        b"serve" => serve(state, args, Shelf::new(state.alloc), out),
        b"desk" => serve(state, args, Desk::new(state.alloc), out),
        _ => return None,
    })
}

/// How serving a book ended.
#[derive(Clone, Copy)]
pub(crate) enum End {
    /// So many links were served.
    Done(u32),
    Link,
    NoMemory,
    Halted,
    NotJournal,
    BadRecord(u64),
    BadChain(u64),
    Unlawful(u64),
    WrongKind,
    NotEmpty(u64),
    Disk,
}

impl End {
    fn show(self, out: &mut Lines) {
        match self {
            End::Done(served) => out.counted("serve done", u64::from(served)),
            End::Link => out.line("serve link fault"),
            End::NoMemory => out.line("serve no memory"),
            End::Halted => out.line("serve halted"),
            End::NotJournal => out.line("serve not a journal"),
            End::BadRecord(place) => out.counted("serve bad entry at", place),
            End::BadChain(place) => out.counted("serve bad chain at", place),
            End::Unlawful(place) => out.counted("serve unlawful entry at", place),
            End::WrongKind => out.line("serve refused 52 WrongKind"),
            End::NotEmpty(size) => out.counted("serve refused 50 NotEmpty", size),
            End::Disk => out.line("serve disk fault"),
        }
    }
}

/// Serves links with the book, as a house that carries this trade.
fn serve<T: Trade>(
    state: &mut State,
    args: &[&[u8]],
    trade: T,
    out: &mut Lines,
) -> Result<(), Fault>
    requires { (T.trade trade).represents [] }
{
    let [links] = *args else {
        return Err(Fault::Arguments);
    };
    let links = small(links)?;
    let limits = state.limits;
    if !limits.are_in_range() {
        return Err(Fault::Value);
    }
    let stage = state.make_stage()?;
    let (end, stage) = match open_house(state.alloc, stage, limits, trade) {
        Ok(house) => served(serve_links(house, links)),
        Err(fault) => unopened(fault),
    };
    end.show(out);
    state.show_stage(stage, out)
}

fn served<T: Trade>(out: ServeOut<Stage, T>) -> (End, Stage) {
    match out {
        ServeOut::Done(house, served) => (End::Done(served), house.close()),
        ServeOut::Link(house) => (End::Link, house.close()),
        ServeOut::NoMemory(house) => (End::NoMemory, house.close()),
        ServeOut::Halted(halted) => (End::Halted, halted.close()),
    }
}

/// Why a book was not opened, and the stage that had it.
pub(crate) fn unopened(fault: HouseFault<Stage>) -> (End, Stage) {
    match fault {
        HouseFault::NotJournal(stage) => (End::NotJournal, stage),
        HouseFault::BadRecord(stage, place) => (End::BadRecord(place), stage),
        HouseFault::BadChain(stage, place, _, _) => (End::BadChain(place), stage),
        HouseFault::Unlawful(stage, place) => (End::Unlawful(place), stage),
        HouseFault::WrongKind(stage) => (End::WrongKind, stage),
        HouseFault::NotEmpty(stage, size) => (End::NotEmpty(size), stage),
        HouseFault::Disk(stage) => (End::Disk, stage),
        HouseFault::NoMemory(stage) => (End::NoMemory, stage),
    }
}
