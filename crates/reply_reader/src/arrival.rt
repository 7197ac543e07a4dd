ghost use Rattle.std.specs.Prelude.{◌≡◌, ◌<◌, ◌≤◌, length, take, slice_range, vec_len, IfOk, IfErr, IsTrue};
ghost use Rattle.mc_outside.specs.LinkView.{after_recv};
ghost use Rattle.reply_reader.specs.declared.reader.TheConstants.{REPLY_ROOM};
ghost use Rattle.reply_reader.specs.Arrivals.{Stopped, IsInOrder, HeadArrives, ContentsArrive};

use crate::reader::REPLY_ROOM;
use crate::reply::ReplyFault;
use crate::whole::head_window;
use mc_outside::{Link, LinkFault};
use millicent_http::{MAX_HEAD, find_end, skip_line_ends};

/// A head that has arrived: its text goes from `skip` to `end`, and `held` bytes were received.
#[derive(Clone, Copy)]
pub(crate) struct Arrived {
    pub skip: usize,
    pub end: usize,
    pub held: usize,
}

/// Receives a piece behind the `held` bytes at the front of the buffer, and answers how many are held
/// then.
fn receive<K: Link>(k: &mut K, buf: &mut Vec<u8>, held: usize) -> Result<usize, ReplyFault>
    requires stands { IsTrue (K.link k.old).stands }
    requires room { held < vec_len buf.old }
    ensures moved { K.link_moved k.old k.new }
    ensures len { length buf.new.items ≡ length buf.old.items }
    ensures front { take held buf.new.items ≡ take held buf.old.items }
    ensures within { IfOk result (λ n. (held < n) × (n ≤ length buf.new.items)) }
    ensures piece { IfOk result
        (λ n. K.link k.new ≡ after_recv (slice_range buf.new.items held n) (K.link k.old)) }
    ensures stopped { IfErr result (λ fault. Stopped fault (K.link k.old) (K.link k.new)) }
{
    match k.recv(&mut buf[held..]) {
        Ok(0) => Err(ReplyFault::NoReply),
        Ok(n) => Ok(held + n),
        Err(LinkFault) => Err(ReplyFault::Fault),
    }
}

/// Receives from the front of the buffer on until a head ends in the bytes.
pub(crate) fn await_head<K: Link>(k: &mut K, buf: &mut Vec<u8>) -> Result<Arrived, ReplyFault>
    requires stands { IsTrue (K.link k.old).stands }
    requires room { vec_len buf.old ≡ REPLY_ROOM }
    ensures moved { K.link_moved k.old k.new }
    ensures len { length buf.new.items ≡ length buf.old.items }
    ensures order { IfOk result (λ head. IsInOrder head (length buf.new.items)) }
    ensures arrives { HeadArrives (K.link k.old) buf.new.items result (K.link k.new) }
{
    let mut held = 0;
    let mut skip = 0;
    let mut searched = 0;
    'pieces: loop {
        let window = head_window(&buf[..held]);
        skip = skip_line_ends(window, skip);
        if let Some(end) = find_end(window, skip, searched.max(skip)) {
            return Ok(Arrived { skip, end, held });
        }
        if held >= MAX_HEAD {
            return Err(ReplyFault::BadReply);
        }
        searched = held;
        held = match receive(k, buf, held) {
            Ok(more) => more,
            Err(fault) => return Err(fault),
        };
    }
}

/// Receives behind the `held` bytes at the front of the buffer until `whole` are held.
pub(crate) fn await_contents<K: Link>(
    k: &mut K,
    buf: &mut Vec<u8>,
    mut held: usize,
    whole: usize,
) -> Result<(), ReplyFault>
    requires stands { IsTrue (K.link k.old).stands }
    requires held { held ≤ vec_len buf.old }
    requires room { whole ≤ vec_len buf.old }
    ensures moved { K.link_moved k.old k.new }
    ensures len { length buf.new.items ≡ length buf.old.items }
    ensures arrives { ContentsArrive held whole (K.link k.old) buf.old.items buf.new.items result (K.link k.new) }
{
    while held < whole {
        held = match receive(k, buf, held) {
            Ok(more) => more,
            Err(fault) => return Err(fault),
        };
    }
    Ok(())
}
