//! What passed through the outside of a command, as far as it is told of on standard error when the command has
//! ended.

use mc_records::{Record, read_record};
use reply_reader::{ReplyRead, ReplyRef, read_reply};
use std::alloc::Global;

/// The most bytes that are kept of what came on the link: as many as an input may have.
const MOST_RECEIVED: usize = 131_072;

/// The most bytes that are kept of what was said last.
const MOST_SAID: usize = 64;

/// The bytes that came on the link, the last entry that was written, and the front of what was said last. Where
/// memory is refused there is less of them, and so less is told.
#[derive(Drop)]
pub struct Passed {
    received: Vec<u8>,
    payload: Vec<u8>,
    said: Vec<u8>,
}

impl Passed {
    /// Nothing yet.
    fn new(alloc: Global) -> Passed {
        Passed {
            received: Vec::new(alloc),
            payload: Vec::new(alloc),
            said: Vec::new(alloc),
        }
    }

    /// These bytes came on the link.
    fn receive(&mut self, bytes: &[u8]) {
        let room = MOST_RECEIVED.saturating_sub(self.received.len());
        let _ = self
            .received
            .extend_from_slice(&bytes[..bytes.len().min(room)]);
    }

    /// These bytes were written to the book. An entry is staged as the length of its payload, the payload and a
    /// gate; what is shorter is none.
    fn write(&mut self, bytes: &[u8]) {
        if let [_, _, _, _, payload @ .., _] = bytes {
            self.payload.clear();
            let _ = self.payload.extend_from_slice(payload);
        }
    }

    /// These bytes were said.
    fn say(&mut self, bytes: &[u8]) {
        self.said.clear();
        let _ = self
            .said
            .extend_from_slice(&bytes[..bytes.len().min(MOST_SAID)]);
    }

    /// What came on the link, up to 131,072 bytes.
    pub fn received(&self) -> &[u8] {
        &self.received
    }

    /// What was said last, up to 64 bytes.
    pub fn said(&self) -> &[u8] {
        &self.said
    }

    /// The entry that was written last.
    pub fn record(&self) -> Option<Record<'_>> {
        match read_record(&self.payload) {
            Ok(record) => Some(record),
            Err(_) => None,
        }
    }

    /// The reply that came on the link.
    pub fn reply(&self) -> Option<ReplyRef<'_>> {
        match read_reply(&self.received) {
            ReplyRead::Whole(reply) => Some(reply),
            ReplyRead::Bad | ReplyRead::Short(_) => None,
        }
    }
}

/// What passes through, where it is kept.
#[derive(Drop)]
pub(crate) struct Keeping {
    passed: Option<Passed>,
}

impl Keeping {
    /// Nothing is kept.
    pub(crate) fn none() -> Keeping {
        Keeping { passed: None }
    }

    /// What passes through from now on is kept.
    pub(crate) fn new(alloc: Global) -> Keeping {
        Keeping {
            passed: Some(Passed::new(alloc)),
        }
    }

    pub(crate) fn passed(&self) -> Option<&Passed> {
        self.passed.as_ref()
    }

    /// So many bytes came on the link, in the front of the buffer.
    pub(crate) fn receive(&mut self, buf: &[u8], count: usize) {
        if let (Some(passed), Some(bytes)) = (&mut self.passed, buf.get(..count)) {
            passed.receive(bytes);
        }
    }

    /// These bytes were written to the book.
    pub(crate) fn write(&mut self, bytes: &[u8]) {
        if let Some(passed) = &mut self.passed {
            passed.write(bytes);
        }
    }

    /// These bytes were said.
    pub(crate) fn say(&mut self, bytes: &[u8]) {
        if let Some(passed) = &mut self.passed {
            passed.say(bytes);
        }
    }
}
