//! Lines that read the heads of links.

ghost use Rattle.std.specs.Prelude.{IsTrue};
ghost use Rattle.mc_stage.specs.Stage.{link_view};

use crate::fault::Fault;
use crate::show::Lines;
use crate::state::State;
use mc_outside::Link;
use mc_requests::{Refusal, Request};
use mc_stage::Stage;
use millicent_http::{After, HeadOut, HeadReader, ItemRef, next_item};

/// The verbs of this module; None where the verb is none of them.
pub(crate) fn act(
    state: &mut State,
    verb: &[u8],
    args: &[&[u8]],
    out: &mut Lines,
) -> Option<Result<(), Fault>> {
    Some(match verb {
        b"heads" if args.is_empty() => heads(state, out),
        b"whole" if args.is_empty() => whole(state, out),
        _ => return None,
    })
}

fn heads(state: &mut State, out: &mut Lines) -> Result<(), Fault> {
    let mut stage = state.make_stage()?;
    let mut reader = HeadReader::new(state.alloc)?;
    for _ in 0..u64::MAX {
        match stage.next_link() {
            Ok(true) => {
                reader.restart();
                read_link(&mut reader, &mut stage, out)?;
            }
            Ok(false) => break,
            Err(_) => out.line("fault"),
        }
    }
    state.show_stage(stage, out)
}

/// Reads the items of the link that stands, up to its end or to one that closes it.
fn read_link(reader: &mut HeadReader, stage: &mut Stage, out: &mut Lines) -> Result<(), Fault> {
    for _ in 0..u64::MAX {
        if !stage.stands() || read_item(reader, stage, out)? {
            break;
        }
    }
    stage.end_link();
    Ok(())
}

/// Reads and prints one item. Whether it was the last.
fn read_item(reader: &mut HeadReader, stage: &mut Stage, out: &mut Lines) -> Result<bool, Fault>
    requires { IsTrue (link_view stage.old).stands }
{
    match reader.take(stage) {
        HeadOut::Head(request, after) => {
            show_request(&request, after, out);
            Ok(after == After::Close)
        }
        HeadOut::Refused(refusal, after) => {
            show_refused(Refusal::from(refusal), after, out);
            Ok(after == After::Close)
        }
        HeadOut::Fault => {
            out.line("fault");
            Ok(false)
        }
        HeadOut::End => {
            out.line("end");
            Ok(true)
        }
    }
}

fn whole(state: &mut State, out: &mut Lines) -> Result<(), Fault> {
    let link = state.whole_link()?;
    let mut rest = link.as_slice();
    for _ in 0..link.len() {
        let Some((item, behind)) = next_item(rest) else {
            break;
        };
        rest = behind;
        let after = if item.closes() {
            After::Close
        } else {
            After::GoOn
        };
        match item {
            ItemRef::Request(request, _) => show_request(&request, after, out),
            ItemRef::Refused(refusal, _) => show_refused(Refusal::from(refusal), after, out),
        }
        if after == After::Close {
            return Ok(());
        }
    }
    out.line("end");
    Ok(())
}

fn show_request(request: &Request<'_>, after: After, out: &mut Lines) {
    out.start("head");
    out.bytes(request.target);
    out.some_bytes(request.scrip);
    out.some_bytes(request.sign);
    show_after(after, out)
}

fn show_refused(refusal: Refusal, after: After, out: &mut Lines) {
    out.start("refused");
    out.number(u64::from(refusal.number()));
    show_after(after, out)
}

fn show_after(after: After, out: &mut Lines) {
    out.word(match after {
        After::GoOn => b"on",
        After::Close => b"close",
    });
    out.end()
}
