//! Lines that read replies as a wallet does: of bytes that are all there, and on links.

use case_lines::{Fault, Lines, State};
use mc_outside::Link;
use mc_stage::Stage;
use reply_reader::{ReplyFault, ReplyRead, ReplyReader, ReplyRef, read_reply};

/// The verbs of this module; None where the verb is none of them.
pub(crate) fn read(
    state: &mut State,
    verb: &[u8],
    args: &[&[u8]],
    out: &mut Lines,
) -> Option<Result<(), Fault>> {
    Some(match verb {
        b"reply" => reply(state, args, out),
        b"replies" if args.is_empty() => replies(state, out),
        _ => return None,
    })
}

fn reply(state: &State, args: &[&[u8]], out: &mut Lines) -> Result<(), Fault> {
    let [bytes] = *args else {
        return Err(Fault::Arguments);
    };
    let bytes = state.names.bytes(bytes)?;
    match read_reply(&bytes) {
        ReplyRead::Whole(reply) => show_reply(&reply, out),
        ReplyRead::Bad => out.line("reply bad"),
        ReplyRead::Short(needed) => out.counted("reply short", needed as u64),
    }
    Ok(())
}

/// Reads one reply on each link, all by one reader.
fn replies(state: &mut State, out: &mut Lines) -> Result<(), Fault> {
    let mut stage = state.make_stage()?;
    let mut reader = ReplyReader::new(state.alloc)?;
    for _ in 0..u64::MAX {
        match stage.next_link() {
            Ok(true) => take(&mut reader, &mut stage, out),
            Ok(false) => break,
            Err(_) => out.line("fault"),
        }
    }
    state.show_stage(stage, out)
}

/// Reads and prints the reply on the link that stands, and ends that.
fn take(reader: &mut ReplyReader, stage: &mut Stage, out: &mut Lines) {
    if !stage.stands() {
        return;
    }
    match reader.take(stage) {
        Ok(reply) => show_reply(&reply, out),
        Err(ReplyFault::BadReply) => out.line("reply bad"),
        Err(ReplyFault::NoReply) => out.line("reply none"),
        Err(ReplyFault::Fault) => out.line("reply fault"),
    }
    stage.end_link();
}

fn show_reply(reply: &ReplyRef<'_>, out: &mut Lines) {
    out.start("reply");
    out.number(u64::from(reply.status));
    out.some_bytes(reply.refusal);
    out.bytes(reply.price);
    out.bytes(reply.change);
    out.bytes(reply.sign);
    out.bytes(reply.contents);
    out.end()
}
