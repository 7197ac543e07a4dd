ghost use Rattle.std.specs.Prelude.{◌≡◌, ◌≤◌, length, slice_range, IsTrue, IfOk, IfSome};
ghost use Rattle.mc_requests.specs.Requests.{asked_of};
ghost use Rattle.kept_replies.specs.Body.{body_parts, body_bytes, body_asked, IsBody};

use crate::parts::{AskedParts, EntryParts};
use mc_requests::Request;
use std::alloc::AllocError;
use std::rc::Rc;

/// Where the parts of a reply end.
#[derive(Clone, Copy, Drop)]
pub(crate) struct Parts {
    pub(crate) entry: EntryParts,
    pub(crate) asked: AskedParts,
}

/// The bytes of a reply, and where its parts end: in a buffer of its own, or in one that it shares with others.
/// The parts stand in each of the two, so that they and a place take 32 bytes.
#[derive(Drop)]
pub(crate) enum Body {
    Own {
        parts: Parts,
        bytes: Box<Vec<u8>>,
    },
    Shared {
        parts: Parts,
        start: u16,
        block: Rc<Vec<u8>>,
    },
}

impl Body {
    /// Where the parts end.
    pub(crate) fn parts(&self) -> &Parts
        ensures { result.now ≡ body_parts self.now }
    {
        match self {
            Body::Own { parts, .. } | Body::Shared { parts, .. } => parts,
        }
    }

    /// The bytes.
    pub(crate) fn bytes(&self) -> &[u8]
        requires { IsBody self.now }
        ensures { result.now ≡ body_bytes self.now }
    {
        match self {
            Body::Own { bytes, .. } => bytes.as_slice(),
            Body::Shared {
                parts,
                start,
                block,
            } => {
                let start = *start as usize;
                &block.as_slice()[start..start + parts.asked.sign as usize]
            }
        }
    }

    /// The request that they are of.
    pub(crate) fn request(&self) -> Request<'_>
        requires { IsBody self.now }
        ensures { asked_of result ≡ body_asked self.now }
    {
        let parts = self.parts();
        parts.asked.request(self.bytes(), parts.entry.end())
    }

    /// The same in this buffer, where the bytes stand there from this place on.
    pub(crate) fn shared(
        &self,
        block: &Rc<Vec<u8>>,
        start: usize,
    ) -> Result<Option<Body>, AllocError>
        requires { IsBody self.now }
        ensures { IfOk result (λ o. IfSome o (λ b. (body_parts b ≡ body_parts self.now)
            × (body_bytes b ≡ body_bytes self.now) × IsBody b)) }
    {
        let parts = *self.parts();
        let end = start.saturating_add(parts.asked.sign as usize);
        if start > u16::MAX as usize || !stands(block.as_slice(), start, end, self.bytes()) {
            return Ok(None);
        }
        Ok(Some(Body::Shared {
            parts,
            start: start as u16,
            block: block.clone()?,
        }))
    }

    /// Whether the bytes stand in a buffer of their own.
    pub(crate) fn is_own(&self) -> bool {
        matches!(self, Body::Own { .. })
    }
}

/// Whether a text stands between two places.
fn stands(bytes: &[u8], start: usize, end: usize, text: &[u8]) -> bool
    ensures { IsTrue result → (start ≤ end) × (end ≤ length bytes.now) × (slice_range bytes.now start end ≡ text.now) }
{
    start <= end && end <= bytes.len() && &bytes[start..end] == text
}
