//! Lines that call a disk and links by hand.

use crate::fault::Fault;
use crate::show::Lines;
use crate::state::State;
use crate::words::number;
use mc_outside::{Disk, Link};
use mc_stage::Stage;

/// The verbs of this module; None where the verb is none of them.
pub(crate) fn call(
    state: &mut State,
    verb: &[u8],
    args: &[&[u8]],
    out: &mut Lines,
) -> Option<Result<(), Fault>> {
    Some(match verb {
        b"stage" => show(state, out),
        b"write" => write(state, args, out),
        b"cut" => cut(state, args, out),
        b"read" => read(state, args, out),
        b"recv" => recv(state, args, out),
        b"send" => send(state, args, out),
        b"say" => say(state, args, out),
        _ if args.is_empty() => return call_alone(state, verb, out),
        _ => return None,
    })
}

/// The verbs that have no arguments.
fn call_alone(state: &mut State, verb: &[u8], out: &mut Lines) -> Option<Result<(), Fault>> {
    Some(match verb {
        b"sync" => sync(state, out),
        b"size" => size(state, out),
        b"take" => take(state, out),
        b"hang" => hang(state, out),
        b"now" => now(state, out),
        _ => return None,
    })
}

/// The stage that is called by hand, which is made at the first call.
fn stage(state: &mut State) -> Result<Stage, Fault> {
    let last = state.stage.take();
    match last {
        Some(stage) if state.is_called => Ok(stage),
        _ => state.make_stage(),
    }
}

/// Keeps the stage for further calls.
fn keep(state: &mut State, stage: Stage) {
    state.stage = Some(stage);
    state.is_called = true;
}

fn show(state: &mut State, out: &mut Lines) -> Result<(), Fault> {
    let stage = stage(state)?;
    state.show_stage(stage, out)
}

fn done<E: Drop>(verb: &str, outcome: Result<(), E>, out: &mut Lines) {
    out.said(verb, if outcome.is_ok() { "ok" } else { "fault" })
}

fn counted<E: Drop>(verb: &str, outcome: Result<u64, E>, out: &mut Lines) {
    match outcome {
        Ok(n) => out.counted(verb, n),
        Err(_) => out.said(verb, "fault"),
    }
}

fn write(state: &mut State, args: &[&[u8]], out: &mut Lines) -> Result<(), Fault> {
    let [at, bytes] = *args else {
        return Err(Fault::Arguments);
    };
    let at = number(at)?;
    let bytes = state.names.bytes(bytes)?;
    if at > 1 << 30 || bytes.len() > 1 << 30 {
        return Err(Fault::Value);
    }
    let mut stage = stage(state)?;
    let outcome = stage.write_at(at, &bytes);
    keep(state, stage);
    done("write", outcome, out);
    Ok(())
}

fn cut(state: &mut State, args: &[&[u8]], out: &mut Lines) -> Result<(), Fault> {
    let [size] = *args else {
        return Err(Fault::Arguments);
    };
    let size = number(size)?;
    let mut stage = stage(state)?;
    let outcome = stage.cut(size);
    keep(state, stage);
    done("cut", outcome, out);
    Ok(())
}

fn sync(state: &mut State, out: &mut Lines) -> Result<(), Fault> {
    let mut stage = stage(state)?;
    let outcome = stage.sync();
    keep(state, stage);
    done("sync", outcome, out);
    Ok(())
}

fn size(state: &mut State, out: &mut Lines) -> Result<(), Fault> {
    let mut stage = stage(state)?;
    let outcome = stage.size();
    keep(state, stage);
    counted("size", outcome, out);
    Ok(())
}

fn read(state: &mut State, args: &[&[u8]], out: &mut Lines) -> Result<(), Fault> {
    let [at, len] = *args else {
        return Err(Fault::Arguments);
    };
    let at = number(at)?;
    let mut room = vec![in state.alloc; 0; size_of(len)?]?;
    let mut stage = stage(state)?;
    let outcome = stage.read(at, &mut room);
    keep(state, stage);
    given("read", outcome, &room, out);
    Ok(())
}

/// Prints the bytes that were given into a buffer.
fn given<E: Drop>(verb: &str, outcome: Result<usize, E>, room: &[u8], out: &mut Lines) {
    match outcome {
        Ok(n) => out.given(verb, room.get(..n).unwrap_or(b"")),
        Err(_) => out.said(verb, "fault"),
    }
}

/// The size of a buffer.
fn size_of(token: &[u8]) -> Result<usize, Fault> {
    let n = number(token)?;
    if n > 1 << 20 {
        return Err(Fault::Value);
    }
    Ok(n as usize)
}

fn take(state: &mut State, out: &mut Lines) -> Result<(), Fault> {
    let mut stage = stage(state)?;
    let outcome = stage.next_link();
    keep(state, stage);
    match outcome {
        Ok(more) => out.answered("take", more),
        Err(_) => out.said("take", "fault"),
    }
    Ok(())
}

fn recv(state: &mut State, args: &[&[u8]], out: &mut Lines) -> Result<(), Fault> {
    let [len] = *args else {
        return Err(Fault::Arguments);
    };
    let mut room = vec![in state.alloc; 0; size_of(len)?]?;
    let mut stage = stage(state)?;
    let outcome = if stage.stands() {
        Some(stage.recv(&mut room))
    } else {
        None
    };
    keep(state, stage);
    match outcome {
        Some(outcome) => given("recv", outcome, &room, out),
        None => return Err(Fault::Missing),
    }
    Ok(())
}

fn hang(state: &mut State, out: &mut Lines) -> Result<(), Fault> {
    let mut stage = stage(state)?;
    stage.end_link();
    keep(state, stage);
    out.line("hang ok");
    Ok(())
}

fn now(state: &mut State, out: &mut Lines) -> Result<(), Fault> {
    let mut stage = stage(state)?;
    let moment = stage.now();
    keep(state, stage);
    out.counted("now", moment.seconds());
    Ok(())
}

fn send(state: &mut State, args: &[&[u8]], out: &mut Lines) -> Result<(), Fault> {
    let bytes = only(state, args)?;
    let mut stage = stage(state)?;
    let outcome = if stage.stands() {
        Some(stage.send(&bytes))
    } else {
        None
    };
    keep(state, stage);
    match outcome {
        Some(Ok(n)) => out.counted("send", n as u64),
        Some(Err(_)) => out.said("send", "fault"),
        None => return Err(Fault::Missing),
    }
    Ok(())
}

fn say(state: &mut State, args: &[&[u8]], out: &mut Lines) -> Result<(), Fault> {
    let bytes = only(state, args)?;
    let mut stage = stage(state)?;
    let outcome = stage.say(&bytes);
    keep(state, stage);
    done("say", outcome, out);
    Ok(())
}

/// The bytes of the only argument.
fn only(state: &State, args: &[&[u8]]) -> Result<Vec<u8>, Fault> {
    let [bytes] = *args else {
        return Err(Fault::Arguments);
    };
    state.names.bytes(bytes)
}
