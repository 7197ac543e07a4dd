ghost use Rattle.std.specs.Prelude.{◌≡◌, ◌+◌, ◌≤◌, ◌<◌, ◌^◌, [], vec_capacity};
ghost use Rattle.mc_requests.specs.Requests.{seen, asked_of};
ghost use Rattle.kept_replies.specs.Requests.{is_same_text, is_same_request, text_size};
ghost use Rattle.kept_replies.specs.Kept.{entry_size, is_in_time};

use crate::KeptEntry;
use crate::body::{Body, Parts};
use crate::parts::{AskedParts, EntryParts, MOST_BESIDE};
use mc_base::Moment;
use mc_requests::Request;
use scrip_form::ScripRef;
use std::alloc::AllocError;
use std::marker::Model;
use std::rc::Rc;

/// A request, and what is kept of its entry, one behind the other in bytes. Contracts see what is asked, and what is
/// kept.
#[derive(Drop)]
pub(crate) struct Reply {
    number: u64,
    body: Body,
}

impl Model for Reply {
    ghost use Rattle.kept_replies.specs.Kept.{KeptReply};
    ghost use Rattle.kept_replies.specs.Parts.{entry_in};
    ghost use Rattle.kept_replies.specs.Body.{body_parts, body_bytes, body_asked, IsBody};

    ghost Value = { KeptReply };

    ghost view = { λ r. record { asked = body_asked r.body; entry = entry_in r.number (body_bytes r.body) (body_parts r.body).entry (body_asked r.body).scrip } };

    ghost invariant = { λ r. IsBody r.body };
}

impl Reply {
    /// The request and what is kept of its entry, put into an empty buffer that has room for them, and that into its place.
    /// What they do not need of the buffer is given back.
    pub(crate) fn of(
        mut buffer: Vec<u8>,
        mut place: Box<Vec<u8>>,
        q: &Request<'_>,
        paid: Option<&ScripRef<'_>>,
        e: &KeptEntry,
    ) -> Reply
        requires empty { buffer.items ≡ [] }
        requires room { MOST_BESIDE + entry_size e.now + text_size (asked_of q.now) ≤ vec_capacity buffer }
        requires short { vec_capacity buffer < 2 ^ 16 }
        ensures { result ≡ record { asked = asked_of q.now; entry = e.now } }
    {
        let entry = EntryParts::put(&mut buffer, e, q.scrip, paid);
        let asked = AskedParts::put(&mut buffer, q);
        buffer.shrink_to_fit();
        Box::replace(&mut place, buffer);
        Reply {
            number: e.number,
            body: Body::Own {
                parts: Parts { entry, asked },
                bytes: place,
            },
        }
    }

    pub(crate) fn number(&self) -> u64
        ensures { result ≡ self.now.entry.number }
    {
        self.number
    }

    pub(crate) fn moment(&self) -> Moment
        ensures { result ≡ self.now.entry.moment }
    {
        let entry = self.body.parts().entry;
        entry.moment(self.body.bytes())
    }

    /// What is kept of the entry.
    pub(crate) fn entry(&self) -> KeptEntry
        ensures { result ≡ self.now.entry }
    {
        let scrip = self.request().scrip;
        let entry = self.body.parts().entry;
        entry.entry(self.number, self.body.bytes(), scrip)
    }

    pub(crate) fn request(&self) -> Request<'_>
        ensures { asked_of result ≡ self.now.asked }
    {
        self.body.request()
    }

    /// Whether its bytes stand in a buffer of their own.
    pub(crate) fn is_own(&self) -> bool {
        self.body.is_own()
    }

    /// Its bytes.
    pub(crate) fn bytes(&self) -> &[u8] {
        self.body.bytes()
    }

    /// Has its bytes stand in this buffer from this place on, if they do, and gives back one of their own. Where they would
    /// end there.
    pub(crate) fn share(&mut self, block: &Rc<Vec<u8>>, start: usize) -> Result<usize, AllocError>
        ensures { self.new ≡ self.old }
    {
        let end = start.saturating_add(self.body.bytes().len());
        if let Some(body) = self.body.shared(block, start)? {
            self.body = body;
        }
        Ok(end)
    }

    /// Whether it is to this request.
    pub(crate) fn is_of(&self, q: &Request<'_>) -> bool
        ensures { result ≡ is_same_request self.now.asked (asked_of q.now) }
    {
        let own = self.request();
        own.target == q.target && is_same(own.scrip, q.scrip) && is_same(own.sign, q.sign)
    }

    pub(crate) fn is_in_time(&self, keep: u32, now: Moment) -> bool
        ensures { result ≡ is_in_time keep now self.now }
    {
        now.seconds() < self.moment().seconds() + u64::from(keep)
    }
}

/// Whether two texts, either of which may be absent, are the same.
fn is_same(a: Option<&[u8]>, b: Option<&[u8]>) -> bool
    ensures { result ≡ is_same_text (seen a.entry) (seen b.entry) }
{
    match (a, b) {
        (None, None) => true,
        (Some(a), Some(b)) => a == b,
        _ => false,
    }
}
