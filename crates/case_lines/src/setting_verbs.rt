//! Lines that say what the next stage has.

use crate::fault::Fault;
use crate::show::Lines;
use crate::state::{Beside, State};
use crate::words::{number, numbers, small};
use mc_requests::Limits;
use mc_stage::Stage;
use std::alloc::Global;

/// The verbs of this module; None where the verb is none of them.
pub(crate) fn set(
    state: &mut State,
    verb: &[u8],
    args: &[&[u8]],
    out: &mut Lines,
) -> Option<Result<(), Fault>> {
    Some(match verb {
        b"let" => name(state, args),
        b"book" => book(state, args),
        b"link" => link(state, args),
        b"door" => door(state, args),
        b"upstream" => upstream(state, args),
        b"clock" => clock(state, args),
        b"fail" => fail(state, args),
        b"beside" => beside(state, args),
        b"save" => save(state, args),
        b"limits" => limits(state, args, out),
        _ => return None,
    })
}

fn name(state: &mut State, args: &[&[u8]]) -> Result<(), Fault> {
    let [name, bytes] = *args else {
        return Err(Fault::Arguments);
    };
    let bytes = state.names.bytes(bytes)?;
    state.names.put(name, bytes)
}

fn book(state: &mut State, args: &[&[u8]]) -> Result<(), Fault> {
    let [bytes] = *args else {
        return Err(Fault::Arguments);
    };
    state.setting.book = state.names.bytes(bytes)?;
    Ok(())
}

fn link(state: &mut State, args: &[&[u8]]) -> Result<(), Fault> {
    let pieces = pieces(state, args)?;
    state.setting.links.push(pieces)?;
    Ok(())
}

/// One more link, which comes through the operator's door.
fn door(state: &mut State, args: &[&[u8]]) -> Result<(), Fault> {
    let Ok(number) = u32::try_from(state.setting.links.len()) else {
        return Err(Fault::Value);
    };
    link(state, args)?;
    state.setting.doors.push(number)?;
    Ok(())
}

/// One more link to the vendor.
fn upstream(state: &mut State, args: &[&[u8]]) -> Result<(), Fault> {
    let pieces = pieces(state, args)?;
    state.setting.upstream.push(pieces)?;
    Ok(())
}

/// The pieces that a link brings.
fn pieces(state: &State, args: &[&[u8]]) -> Result<Vec<Vec<u8>>, Fault> {
    let mut pieces = Vec::new(state.alloc);
    for piece in args {
        pieces.push(state.names.bytes(piece)?)?;
    }
    Ok(pieces)
}

fn clock(state: &mut State, args: &[&[u8]]) -> Result<(), Fault> {
    state.setting.readings = numbers(state.alloc, args)?;
    Ok(())
}

fn fail(state: &mut State, args: &[&[u8]]) -> Result<(), Fault> {
    let Some((what, calls)) = args.split_first() else {
        return Err(Fault::Arguments);
    };
    let all = calls_of(state.alloc, calls)?;
    match *what {
        b"disk" => state.setting.failing_disk = all,
        b"link" => state.setting.failing_link = all,
        b"up" => state.setting.failing_up = all,
        _ => return Err(Fault::Arguments),
    }
    Ok(())
}

/// The numbers of calls that fail.
fn calls_of(alloc: Global, calls: &[&[u8]]) -> Result<Vec<u32>, Fault> {
    let mut all = Vec::new(alloc);
    for call in calls {
        all.push(small(call)?)?;
    }
    Ok(all)
}

fn beside(state: &mut State, args: &[&[u8]]) -> Result<(), Fault> {
    let Some((book, calls)) = args.split_first() else {
        return Err(Fault::Arguments);
    };
    let contents = state.names.bytes(book)?;
    let failing = calls_of(state.alloc, calls)?;
    state.setting.beside.push(Beside { contents, failing })?;
    Ok(())
}

/// Gives a name to what the last stage left.
fn save(state: &mut State, args: &[&[u8]]) -> Result<(), Fault> {
    let Some((name, what)) = args.split_first() else {
        return Err(Fault::Arguments);
    };
    let bytes = left(state, what)?;
    state.names.put(name, bytes)
}

/// The bytes of the disk, what was said, or what was sent on a link, of those to the vendor too.
fn left(state: &State, what: &[&[u8]]) -> Result<Vec<u8>, Fault> {
    let Some((kind, of)) = what.split_first() else {
        return Err(Fault::Arguments);
    };
    if *kind == b"book".as_slice() && of.is_empty() {
        return Ok(Vec::from_slice(state.alloc, &state.setting.book)?);
    }
    match *kind {
        b"said" if of.is_empty() => match &state.stage {
            Some(stage) => Ok(Vec::from_slice(state.alloc, stage.said())?),
            None => Err(Fault::Missing),
        },
        b"sent" => sent(state.alloc, &state.stage, of),
        b"up" => sent(state.alloc, &state.up, of),
        _ => Err(Fault::Arguments),
    }
}

/// What was sent on a link of a stage.
fn sent(alloc: Global, stage: &Option<Stage>, of: &[&[u8]]) -> Result<Vec<u8>, Fault> {
    let [link] = *of else {
        return Err(Fault::Arguments);
    };
    let Some(stage) = stage else {
        return Err(Fault::Missing);
    };
    match stage.sent(small(link)? as usize) {
        Some(sent) => Ok(Vec::from_slice(alloc, sent)?),
        None => Err(Fault::Missing),
    }
}

fn limits(state: &mut State, args: &[&[u8]], out: &mut Lines) -> Result<(), Fault> {
    let [journal, series] = *args else {
        return Err(Fault::Arguments);
    };
    let limits = Limits {
        journal: number(journal)?,
        series: number(series)?,
    };
    if !limits.are_in_range() {
        out.said("limits", "no");
        return Ok(());
    }
    state.limits = limits;
    Ok(())
}
