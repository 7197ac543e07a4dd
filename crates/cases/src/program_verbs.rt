//! Lines that run the program over a stage, end a stage as a crash does, and read the program's words.

use case_lines::{Fault, Lines, State, number, show_beside, show_book};
use mc_base::List;
use mc_top::{once, places, run, run_proxy};
use std::mem;

/// The verbs of this module; None where the verb is none of them.
pub(crate) fn act(
    state: &mut State,
    verb: &[u8],
    args: &[&[u8]],
    out: &mut Lines,
) -> Option<Result<(), Fault>> {
    Some(match verb {
        b"run" => run_words(state, args, out),
        b"crash" => crash(state, args, out),
        b"once" => once_words(state, args, out),
        b"places" => places_of(state, args, out),
        b"proxy" => proxy(state, args, out),
        _ => return None,
    })
}

fn run_words(state: &mut State, args: &[&[u8]], out: &mut Lines) -> Result<(), Fault> {
    let words = state.names.words(args)?;
    let beside = mem::replace(&mut state.setting.beside, Vec::new(state.alloc));
    let mut books = Vec::new(state.alloc);
    for book in &beside {
        books.push(book.make_stage(state.alloc)?)?;
    }
    let stage = state.make_stage()?;
    let ran = run(state.alloc, &words, stage, books);
    out.counted("run", u64::from(ran.status));
    state.show_stage(ran.out, out)?;
    show_beside(&beside, &ran.books, out);
    Ok(())
}

fn crash(state: &mut State, args: &[&[u8]], out: &mut Lines) -> Result<(), Fault> {
    let [choice] = *args else {
        return Err(Fault::Arguments);
    };
    let choice = number(choice)?;
    let Some(stage) = state.stage.take() else {
        return Err(Fault::Missing);
    };
    let before = Vec::from_slice(state.alloc, stage.contents());
    let left = stage.crash(choice)?;
    let after = Vec::from_slice(state.alloc, left.contents());
    drop(left);
    let (before, after) = (before?, after?);
    show_book("crash", &before, &after, out);
    state.setting.book = after;
    Ok(())
}

fn once_words(state: &mut State, args: &[&[u8]], out: &mut Lines) -> Result<(), Fault> {
    let words = state.names.words(args)?;
    let link = state.whole_link()?;
    let mut reply = Vec::new(state.alloc);
    let status = once(state.alloc, &words, &link, &mut reply);
    out.start("once");
    out.number(u64::from(status));
    out.bytes(&reply);
    out.end();
    Ok(())
}

fn places_of(state: &mut State, args: &[&[u8]], out: &mut Lines) -> Result<(), Fault> {
    let words = state.names.words(args)?;
    let told = places(state.alloc, &words)?;
    out.start(if told.founds {
        "places founds"
    } else if told.operates {
        "places operates"
    } else {
        "places opens"
    });
    place(&told.site, out);
    place(&told.listen, out);
    for book in told.books.slice() {
        out.bytes(book.slice());
    }
    place(&told.connect, out);
    if let Some(door) = &told.door {
        out.word(b"door");
        out.bytes(door.slice());
    }
    out.end();
    Ok(())
}

fn place(place: &Option<List<u8>>, out: &mut Lines) {
    match place {
        Some(list) => out.bytes(list.slice()),
        None => out.word(b"-"),
    }
}

/// Runs a wallet that pays for what a browser asks, over a stage and the links to a vendor.
fn proxy(state: &mut State, args: &[&[u8]], out: &mut Lines) -> Result<(), Fault> {
    let words = state.names.words(args)?;
    let mut up = state.make_upstream()?;
    let stage = state.make_stage()?;
    let (status, stage) = run_proxy(state.alloc, &words, stage, &mut up);
    out.counted("proxy", u64::from(status));
    state.show_stage(stage, out)?;
    state.show_upstream(up, out);
    Ok(())
}
