use crate::arrival::{await_contents, await_head};
use crate::head::read_head;
use crate::reply::{ReplyFault, ReplyRef};
use mc_base::NoMemory;
use mc_outside::Link;
use std::alloc::Global;
use std::marker::Model;

/// Room for the greatest reply: a head of 8,192 bytes with the line ends before it, and contents of
/// 65,536.
pub const REPLY_ROOM: usize = 73_728;

/// Reads the reply on a link, however the link cuts its bytes. It keeps nothing from one call of
/// [`ReplyReader::take`] to the next but its memory.
#[derive(Drop)]
pub struct ReplyReader {
    // where the bytes lie that one call receives
    buf: Vec<u8>,
}

impl Model for ReplyReader {
    ghost use Rattle.std.specs.Prelude.{◌≡◌, length};
    ghost use Rattle.reply_reader.specs.declared.reader.TheConstants.{REPLY_ROOM};

    ghost Value = { Unit {0} };

    ghost view = { λ _. tt };

    ghost invariant = { λ r. length r.buf.items ≡ REPLY_ROOM };
}

impl ReplyReader {
    ghost use Rattle.std.specs.Prelude.{IsTrue, ⊤};
    ghost use Rattle.reply_reader.specs.Seen.{taken_of};
    ghost use Rattle.reply_reader.specs.Takes.{TookReply};
    ghost use Rattle.std.specs.Borrow.{sem};
    ghost use denote.Follow.{follows_so};
    ghost use mathlib.Core.Option.{none};
    ghost use Rattle.reply_reader.specs.contracts.reader.ReplyReader.{the_row};

    /// A reader with a buffer of 73,728 bytes. No later call takes memory.
    pub fn new(alloc: Global) -> Result<ReplyReader, NoMemory> {
        Ok(ReplyReader {
            buf: vec![in alloc; 0; REPLY_ROOM]?,
        })
    }

    /// The reply that the bytes begin which come on the standing link from now on. What is lent lies in
    /// the buffer, up to the next call.
    ///
    /// Receives only while the bytes that came are less than a reply, and at most 73,728 of them; those
    /// behind the reply mean nothing. At an `Err` nothing is kept of what came.
    pub fn take<K: Link>(&mut self, k: &mut K) -> Result<ReplyRef<'_>, ReplyFault>
        requires { IsTrue (K.link k.old).stands }
        ensures moved { K.link_moved k.old k.new }
        ensures* took { sem 𝓛 (follows_so the_row the_row self.entry.ghost_name none (λ _ _. ⊤)
            (λ _. TookReply (K.link k.old) (taken_of result) (K.link k.new))) }
    {
        let head = match await_head(k, &mut self.buf) {
            Ok(head) => head,
            Err(fault) => return Err(fault),
        };
        let places = match read_head(&self.buf[head.skip..head.end]) {
            Some(places) => places,
            None => return Err(ReplyFault::BadReply),
        };
        let whole = head.end + places.length;
        match await_contents(k, &mut self.buf, head.held, whole) {
            Ok(()) => {}
            Err(fault) => return Err(fault),
        }
        let buf = &self.buf;
        Ok(places.reply(&buf[head.skip..head.end], &buf[head.end..whole]))
    }
}
