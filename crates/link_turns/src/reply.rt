//! The page from which a reply leaves.

ghost use Rattle.std.specs.Prelude.{◌≡◌, ◌≤◌, ◌<◌, ◌+◌, ◌++◌, ℕ, length, take, IsTrue, OnOk, OnErr};
ghost use Rattle.mc_outside.specs.LinkView.{after_send, Failed};
ghost use Rattle.mc_requests.specs.Replies.{reply_head};
ghost use Rattle.millicent_http.specs.ReplyHeads.{IsReplyHead, reply_of};

use mc_base::NoMemory;
use mc_fields::{append_both, put};
use mc_outside::{Link, LinkFault};
use millicent_http::{ReplyHead, send_all, write_reply_head};
use std::marker::Model;

/// How many bytes of a reply leave in one call.
const PAGE: usize = 4096;

/// Room in which a reply is made. Whoever serves keeps one, and what it has after a reply is free.
#[derive(Drop)]
pub struct Page {
    head: [u8; 2048],
    /// For the head, and as much of the contents as fits.
    bytes: [u8; PAGE],
}

impl Page {
    /// Room for a reply.
    pub fn new() -> Page {
        Page {
            head: [0; 2048],
            bytes: [0; PAGE],
        }
    }
}

/// A reply: a page with its head and as much of the contents as fits, and the rest of the contents.
/// Contracts see it as its bytes.
#[derive(Drop)]
pub struct Reply<'a> {
    page: &'a [u8],
    rest: &'a [u8],
}

impl<'a> Model for Reply<'a> {
    ghost use Rattle.std.specs.Prelude.{ℕ, ◌++◌, List};

    ghost Value = { List ℕ };

    ghost view = { λ r. r.page.now ++ r.rest.now };
}

impl<'a> Reply<'a> {
    /// The reply of this head, with its contents, made in a page.
    pub fn of(head: &ReplyHead<'_>, contents: &'a [u8], page: &'a mut Page) -> Reply<'a>
        requires { IsReplyHead head.now }
        ensures { result ≡ reply_head (reply_of head.now) ++ contents.entry.now }
    {
        let Page { head: room, bytes } = page;
        let len = put_head(head, room, bytes);
        let front = contents.len().min(PAGE - len);
        let len = put(bytes, len, &contents[..front]);
        Reply {
            page: &bytes[..len],
            rest: &contents[front..],
        }
    }

    /// Appends the reply. After an `Err` the bytes are as before.
    pub fn append_to(&self, out: &mut Vec<u8>) -> Result<(), NoMemory>
        ensures ok { OnOk result (out.new.items ≡ out.old.items ++ self.now) }
        ensures err { OnErr result (out.new.items ≡ out.old.items) }
    {
        let old = out.len();
        match append_both(out, self.page, self.rest) {
            Ok(()) => Ok(()),
            Err(_) => {
                out.truncate(old);
                Err(NoMemory)
            }
        }
    }

    /// Writes the reply at a place of the buffer, which has room for it there, and answers the place behind it. What stands
    /// before the place stays.
    pub fn put_into(&self, out: &mut [u8], at: usize) -> usize
        requires { at + length self.now ≤ length out.old }
        ensures len { length out.new ≡ length out.old }
        ensures end { result ≡ at + length self.now }
        ensures put { take result out.new ≡ take at out.old ++ self.now }
    {
        let len = put_part(out, at, self.page);
        put_part(out, len, self.rest)
    }

    /// How many bytes it has.
    pub fn len(&self) -> usize
        ensures { result ≡ length self.now }
    {
        self.page.len() + self.rest.len()
    }

    /// Sends the reply: in one call of the link where it fits a page and the link takes it whole. At an
    /// `Err` a prefix of it was sent, and not the whole.
    pub fn send<K: Link>(&self, k: &mut K) -> Result<(), LinkFault>
        requires { IsTrue (K.link k.old).stands }
        ensures moved { K.link_moved k.old k.new }
        ensures standing { (K.link k.new).stands ≡ (K.link k.old).stands }
        ensures sent { OnOk result (K.link k.new ≡ after_send self.now (K.link k.old)) }
        ensures fault { OnErr result ((n : ℕ) × (n < length self.now)
            × Failed (after_send (take n self.now) (K.link k.old)) (K.link k.new)) }
    {
        send_all(k, self.page)?;
        send_all(k, self.rest)
    }
}

/// Writes a part of a reply at a place of the buffer, and answers the place behind it.
fn put_part(out: &mut [u8], at: usize, bytes: &[u8]) -> usize
    requires { at + length bytes.now ≤ length out.old }
    ensures len { length out.new ≡ length out.old }
    ensures end { result ≡ at + length bytes.now }
    ensures put { take result out.new ≡ take at out.old ++ bytes.now }
{
    let end = at + bytes.len();
    out[at..end].copy_from_slice(bytes);
    end
}

/// Writes a head at the front of a page, and answers how many bytes it has.
fn put_head(head: &ReplyHead<'_>, room: &mut [u8; 2048], page: &mut [u8; PAGE]) -> usize
    requires { IsReplyHead head.now }
    ensures within { result ≤ 2048 }
    ensures head { take result page.new ≡ reply_head (reply_of head.now) }
{
    let len = write_reply_head(head, room);
    put(page, 0, &room[..len])
}
