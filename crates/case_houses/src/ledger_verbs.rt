//! Lines that ask what the entries of the book say.

ghost use Rattle.std.specs.Prelude.{[]};
ghost use Rattle.mc_requests.specs.Limits.{AreInRange};
ghost use Rattle.scrip_journal.specs.States.{MayGoOn};

use crate::serve_verbs::unopened;
use broker_core::Desk;
use case_lines::{Asked, Fault, Lines, State, number, stage_of};
use house_opening::open_house;
use house_state::{Trade, Verdict};
use ledger_model::History;
use mc_base::Moment;
use mc_requests::{Limits, MOST_REFUSAL_BYTES, Refusal, Request, put_refusal_text};
use mc_stage::Stage;
use scrip_journal::{OpenFault, Replay, open_journal};
use slow_ledger::{ModelAnswer, slow_answer, slow_lawful};
use std::alloc::Global;
use vendor_core::Shelf;

/// The verbs of this module; None where the verb is none of them.
pub(crate) fn ask(
    state: &mut State,
    verb: &[u8],
    args: &[&[u8]],
    out: &mut Lines,
) -> Option<Result<(), Fault>> {
    Some(match verb {
        b"answer" => answer(state, args, out),
        b"lawful" if args.is_empty() => lawful(state, out),
        _ => return None,
    })
}

fn answer(state: &mut State, args: &[&[u8]], out: &mut Lines) -> Result<(), Fault> {
    let [time, target, scrip, sign] = *args else {
        return Err(Fault::Arguments);
    };
    let time = Moment::clamped(number(time)?);
    let asked = Asked::of(state, target, scrip, sign)?;
    let request = asked.request();
    let limits = state.limits;
    if !limits.are_in_range() {
        return Err(Fault::Value);
    }
    let history = history(state)?;
    let told = slow_answer(state.alloc, &history, time, limits, &request)?;
    show_ledger(&told, out);
    let book = stage_of_book(state)?;
    match judged_of_kind(state.alloc, book, limits, time, &request) {
        Some(verdict) => show_house(&verdict, out),
        None => out.line("house closed"),
    }
    Ok(())
}

fn lawful(state: &mut State, out: &mut Lines) -> Result<(), Fault> {
    let limits = state.limits;
    if !limits.are_in_range() {
        return Err(Fault::Value);
    }
    let history = history(state)?;
    match slow_lawful(state.alloc, &history, limits)? {
        Some(number) => out.counted("unlawful", number as u64),
        None => out.line("lawful"),
    }
    Ok(())
}

/// A stage that has the book, and no more.
fn stage_of_book(state: &State) -> Result<Stage, Fault> {
    let contents = Vec::from_slice(state.alloc, &state.setting.book)?;
    stage_of(state.alloc, contents, Vec::new(state.alloc))
}

/// The entries of the book.
pub fn history(state: &State) -> Result<History, Fault> {
    history_on(state.alloc, stage_of_book(state)?)
}

/// The entries of a book of these bytes.
pub fn history_of(alloc: Global, book: Vec<u8>) -> Result<History, Fault> {
    history_on(alloc, stage_of(alloc, book, Vec::new(alloc))?)
}

/// The entries of the book that a stage has.
fn history_on(alloc: Global, stage: Stage) -> Result<History, Fault> {
    match open_journal(alloc, stage, Limits::FULL) {
        Ok(mut replay) => {
            let history = read_all(alloc, &mut replay);
            let _stage = replay.close();
            history
        }
        Err(fault) => Err(unread(fault)),
    }
}

/// Why a book has no entries to read.
fn unread(fault: OpenFault<Stage>) -> Fault {
    match fault {
        OpenFault::NoMemory(_) => Fault::NoMemory,
        OpenFault::NotJournal(_) | OpenFault::Disk(_) => Fault::Book,
    }
}

fn read_all(alloc: Global, replay: &mut Replay<Stage>) -> Result<History, Fault>
    requires { MayGoOn replay.old }
{
    let mut history = History::new(alloc);
    'entries: for _ in 0..u64::MAX {
        match replay.next_record() {
            Ok(Some(_)) => {}
            Ok(None) => break,
            Err(_) => return Err(Fault::Book),
        }
        let Ok(record) = replay.record() else {
            return Err(Fault::Book);
        };
        history.push(&record)?;
    }
    Ok(history)
}

/// What a house of the kind of the book's site says of a request at this time; None where none opens it.
fn judged_of_kind(
    alloc: Global,
    book: Stage,
    limits: Limits,
    time: Moment,
    request: &Request<'_>,
) -> Option<Verdict>
    requires { AreInRange limits }
{
    let book = match judged(alloc, book, limits, Shelf::new(alloc), time, request) {
        Ok(verdict) => return Some(verdict),
        Err(book) => book,
    };
    match judged(alloc, book, limits, Desk::new(alloc), time, request) {
        Ok(verdict) => Some(verdict),
        Err(book) => {
            let _book = book;
            None
        }
    }
}

/// What a house that opens the book with this trade says of a request at this time. `Err` hands the book back, where
/// it is not opened.
fn judged<T: Trade>(
    alloc: Global,
    stage: Stage,
    limits: Limits,
    trade: T,
    time: Moment,
    request: &Request<'_>,
) -> Result<Verdict, Stage>
    requires limits { AreInRange limits }
    requires trade { (T.trade trade).represents [] }
{
    match open_house(alloc, stage, limits, trade) {
        Ok(mut house) => {
            let _time = house.raise(time);
            let verdict = house.judge(request);
            let _stage = house.close();
            Ok(verdict)
        }
        Err(fault) => {
            let (_, stage) = unopened(fault);
            Err(stage)
        }
    }
}

fn show_ledger(told: &ModelAnswer, out: &mut Lines) {
    match told {
        ModelAnswer::Refused(refusal) => show_refusal("ledger refused", refusal, out),
        ModelAnswer::Again(number) => out.counted("ledger again", *number),
        ModelAnswer::Take(payload) => out.given("ledger take", payload.slice()),
    }
}

fn show_house(verdict: &Verdict, out: &mut Lines) {
    match verdict {
        Verdict::Refused(refusal) => show_refusal("house refused", refusal, out),
        Verdict::Again(number) => out.counted("house again", *number),
        Verdict::Take => out.line("house take"),
    }
}

/// Prints a line that ends with the text of a refusal.
pub fn show_refusal(verb: &str, refusal: &Refusal, out: &mut Lines) {
    let mut room = [0; MOST_REFUSAL_BYTES];
    let end = put_refusal_text(&mut room, 0, refusal);
    out.start(verb);
    out.word(room.get(..end).unwrap_or(b""));
    out.end()
}
