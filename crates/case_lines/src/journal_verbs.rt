//! Lines that read and write journals.

ghost use Rattle.std.specs.Prelude.{◌≡◌, true, OnOk};
ghost use Rattle.scrip_journal.specs.States.{MayGoOn};

use crate::fault::Fault;
use crate::show::Lines;
use crate::state::State;
use mc_records::{PieceList, SiteTerms, read_record, write_record};
use mc_requests::Limits;
use mc_stage::Stage;
use scrip_journal::{
    Journal, OpenFault, Replay, ReplayFault, StageFault, found_journal, open_journal,
};
use std::alloc::Global;

/// The verbs of this module; None where the verb is none of them.
pub(crate) fn act(
    state: &mut State,
    verb: &[u8],
    args: &[&[u8]],
    out: &mut Lines,
) -> Option<Result<(), Fault>> {
    Some(match verb {
        b"found" => found(state, args, out),
        b"replay" => replay(state, out),
        _ => return None,
    })
}

fn found(state: &mut State, args: &[&[u8]], out: &mut Lines) -> Result<(), Fault> {
    let limits = state.limits;
    if !limits.are_in_range() {
        return Err(Fault::Value);
    }
    let payloads = payloads(state, args)?;
    let stage = state.make_stage()?;
    let stage = match found_journal(state.alloc, stage, limits) {
        Ok(journal) => enter_all(journal, &payloads, out),
        Err(fault) => unopened(fault, out),
    };
    state.show_stage(stage, out)
}

fn payloads(state: &State, args: &[&[u8]]) -> Result<Vec<Vec<u8>>, Fault> {
    let mut payloads = Vec::new(state.alloc);
    for token in args {
        payloads.push(state.names.bytes(token)?)?;
    }
    Ok(payloads)
}

/// The stage of a journal that was not founded or opened.
fn unopened(fault: OpenFault<Stage>, out: &mut Lines) -> Stage {
    match fault {
        OpenFault::NotJournal(stage) => told(stage, "not a journal", out),
        OpenFault::Disk(stage) => told(stage, "disk fault", out),
        OpenFault::NoMemory(stage) => told(stage, "no memory", out),
    }
}

/// The stage, of which a line is printed.
fn told(stage: Stage, line: &str, out: &mut Lines) -> Stage {
    out.line(line);
    stage
}

/// Enters payloads, up to one that fails, and prints what came of each.
fn enter_all(mut journal: Journal<Stage>, payloads: &[Vec<u8>], out: &mut Lines) -> Stage {
    for payload in payloads {
        match enter(journal, payload) {
            Entered::Receipt(after, number) => {
                journal = after;
                out.counted("receipt", number);
            }
            Entered::Ended(stage, why) => return told(stage, why, out),
            Entered::Fault(stage, place) => {
                out.counted("fault", place);
                return stage;
            }
        }
    }
    out.counted("size", journal.size());
    if journal.is_switched()
        && let Some(chain) = journal.chain()
    {
        show_chain(journal.entries(), &chain, out);
    }
    journal.close()
}

/// Prints how many entries a book has, and their chain.
pub fn show_chain(entries: u64, chain: &[u8; 32], out: &mut Lines) {
    out.start("chain");
    out.number(entries);
    out.digits(chain);
    out.end()
}

/// What came of an entry.
enum Entered {
    Receipt(Journal<Stage>, u64),
    Ended(Stage, &'static str),
    /// It is no payload from this place on.
    Fault(Stage, u64),
}

fn enter(journal: Journal<Stage>, payload: &[u8]) -> Entered {
    let _parts: Option<(PieceList<'_>, SiteTerms<'_>)> = None;
    let record = match read_record(payload) {
        Ok(record) => record,
        Err(fault) => return Entered::Fault(journal.close(), fault.place as u64),
    };
    match journal.stage(&record) {
        Ok(staged) => match staged.open_gate() {
            Ok((journal, receipt)) => Entered::Receipt(journal, receipt.number()),
            Err(halted) => Entered::Ended(halted.close(), "halted opening"),
        },
        Err(StageFault::Full(journal)) => Entered::Ended(journal.close(), "full"),
        Err(StageFault::Disk(halted)) => Entered::Ended(halted.close(), "halted staging"),
    }
}

fn replay(state: &mut State, out: &mut Lines) -> Result<(), Fault> {
    let stage = state.make_stage()?;
    let stage = match open_journal(state.alloc, stage, Limits::FULL) {
        Ok(replay) => read_all(state.alloc, replay, out),
        Err(fault) => unopened(fault, out),
    };
    state.show_stage(stage, out)
}

fn read_all(alloc: Global, mut replay: Replay<Stage>, out: &mut Lines) -> Stage
    requires { MayGoOn replay }
{
    'entries: for _ in 0..u64::MAX {
        if !read_one(alloc, &mut replay, out) {
            break;
        }
    }
    replay.close()
}

/// Reads and prints the next entry, or how the journal ends. Whether there was an entry.
fn read_one(alloc: Global, replay: &mut Replay<Stage>, out: &mut Lines) -> bool
    requires { MayGoOn replay.old }
    ensures { result ≡ true → MayGoOn replay.new }
{
    let shown = match replay.next_record() {
        Ok(Some(gate)) => show_found(alloc, gate, replay, out),
        Ok(None) => {
            out.line("closed");
            return false;
        }
        Err(fault) => Err(fault),
    };
    match shown {
        Ok(()) => return true,
        Err(ReplayFault::BadRecord { place }) => out.counted("bad entry at", place),
        Err(
            ReplayFault::BadChain {
                place,
                stood,
                computed,
            },
        ) => show_bad_chain(place, &stood, &computed, out),
        Err(ReplayFault::Disk) => out.line("disk fault"),
    }
    false
}

/// Prints the gate of the entry that was found, and the length and the digest of its payload, as it is written again.
fn show_found(
    alloc: Global,
    gate: u64,
    replay: &Replay<Stage>,
    out: &mut Lines,
) -> Result<(), ReplayFault>
    ensures { OnOk result (MayGoOn replay.now) }
{
    let mut payload = Vec::new(alloc);
    let is_written = match replay.record() {
        Ok(record) => write_record(&record, &mut payload).is_ok(),
        Err(fault) => return Err(fault),
    };
    out.start("entry");
    out.number(gate);
    if is_written {
        out.digest(&payload);
    }
    out.end();
    Ok(())
}

/// Prints the place of a chain, the one that stands there and the one that was computed.
fn show_bad_chain(place: u64, stood: &[u8; 32], computed: &[u8; 32], out: &mut Lines) {
    out.start("bad chain at");
    out.number(place);
    out.digits(stood);
    out.digits(computed);
    out.end()
}
