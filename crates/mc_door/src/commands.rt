use crate::framing::{MOST_TOLD, Whole, whole_command};
use std::alloc::{AllocError, Global};

/// What came on a connection of the operator's: commands, one behind another.
#[derive(Drop)]
pub(crate) struct Commands {
    // what came and was not done yet
    bytes: Vec<u8>,
    // how many of these are the command that is whole, and how many of those its link was given
    whole: usize,
    given: usize,
    // whether they can begin no command
    lost: bool,
}

impl Commands {
    ghost use Rattle.std.specs.Prelude.{◌≤◌, length};

    /// Nothing yet.
    pub(crate) fn new(alloc: Global) -> Commands {
        Commands {
            bytes: Vec::new(alloc),
            whole: 0,
            given: 0,
            lost: false,
        }
    }

    /// Whether a part of a command is there, or more.
    pub(crate) fn has_begun(&self) -> bool {
        !self.bytes.is_empty()
    }

    /// Whether what came can begin no command: where one ends is lost.
    pub(crate) fn is_lost(&self) -> bool {
        self.lost
    }

    /// How many more bytes are taken. Where these come no more, a command is whole, or none will be.
    pub(crate) fn room(&self) -> usize {
        MOST_TOLD.saturating_sub(self.bytes.len())
    }

    /// Takes bytes that came.
    pub(crate) fn take(&mut self, bytes: &[u8]) -> Result<(), AllocError> {
        self.bytes.extend_from_slice(bytes)
    }

    /// Whether the next link may have what is there: a command whole, or all, where it can begin none.
    pub(crate) fn find(&mut self) -> bool {
        match whole_command(&self.bytes) {
            Whole::Part => return false,
            Whole::At(end) => self.whole = end,
            Whole::Never => {
                self.whole = self.bytes.len();
                self.lost = true;
            }
        }
        true
    }

    /// Gives the link the next bytes of its command: how many. None at its end.
    pub(crate) fn give(&mut self, buf: &mut [u8]) -> usize
        ensures bound { result ≤ length buf.new }
    {
        let Some(rest) = self.bytes.get(self.given..self.whole) else {
            return 0;
        };
        let n = rest.len().min(buf.len());
        buf[..n].copy_from_slice(&rest[..n]);
        self.given = self.given.saturating_add(n);
        n
    }

    /// The command's link is over: what came behind it is left.
    pub(crate) fn pass(&mut self) {
        let whole = self.whole.min(self.bytes.len());
        let _ = self.bytes.drain(..whole);
        self.whole = 0;
        self.given = 0;
    }
}
