ghost use Rattle.std.specs.Prelude.{IsTrue, ◌↔◌, ◌≡◌, ◌-◌, ◌<◌, ◌≤◌, ◌++◌, [], length, take, slice_range};
ghost use Rattle.play_heads.specs.PlayHeads.{heads_from};

use crate::head::write_head;
use std::marker::Model;

/// The bytes that are still to come on a link. No more than one head is made at a time. Contracts see them
/// as the list of these bytes.
#[derive(Drop)]
pub(crate) struct Supply {
    /// The head that is made next, and the first one of the next link.
    next: u32,
    end: u32,
    /// The head that was made last, its length, and how much of it was given.
    buffer: [u8; 512],
    length: usize,
    given: usize,
}

impl Model for Supply {
    ghost use Rattle.std.specs.Prelude.{ℕ, List, ◌-◌, ◌≤◌, ◌++◌, slice_range};
    ghost use Rattle.play_heads.specs.PlayHeads.{heads_from};

    ghost Value = { List ℕ };

    ghost view = { λ s. slice_range s.buffer s.given s.length ++ heads_from s.next (s.end - s.next) };

    ghost invariant = { λ s. (s.next ≤ s.end) × (s.given ≤ s.length) × (s.length ≤ 512) };
}

impl Supply {
    /// The heads from one number up to another, which is not among them.
    pub(crate) fn between(first: u32, end: u32) -> Supply
        requires { first ≤ end }
        ensures { result ≡ heads_from first (end - first) }
    {
        Supply {
            next: first,
            end,
            buffer: [0; 512],
            length: 0,
            given: 0,
        }
    }

    /// Whether nothing is to come.
    pub(crate) fn is_empty(&self) -> bool
        ensures { IsTrue result ↔ (self.now ≡ []) }
    {
        if self.given < self.length {
            return false;
        }
        self.next == self.end
    }

    /// Moves the next bytes to the front of `buf`, as many as it has room for but for no more than one head,
    /// and answers how many. Where there is room and bytes are to come, it is one at least.
    pub(crate) fn give(&mut self, buf: &mut [u8]) -> usize
        ensures room { result ≤ length buf.old }
        ensures given { self.old ≡ take result buf.new ++ self.new }
        ensures none { result ≡ 0 → 0 < length buf.old → self.old ≡ [] }
    {
        if self.given < self.length {
            return give_part(&self.buffer, &mut self.given, self.length, buf);
        }
        if self.next == self.end {
            return 0;
        }
        self.length = write_head(self.next, &mut self.buffer);
        self.given = 0;
        self.next += 1;
        give_part(&self.buffer, &mut self.given, self.length, buf)
    }
}

/// Copies the bytes from the place `given` up to `end`, as many as `buf` has room for, to its front, and
/// moves the place behind them. Answers how many.
fn give_part(buffer: &[u8; 512], given: &mut usize, end: usize, buf: &mut [u8]) -> usize
    requires some { given.old < end }
    requires within { end ≤ 512 }
    ensures room { result ≤ length buf.old }
    ensures left { given.new ≤ end }
    ensures part { slice_range buffer.now given.old end
        ≡ take result buf.new ++ slice_range buffer.now given.new end }
    ensures some { 0 < length buf.old → 0 < result }
{
    let n = buf.len().min(end - *given);
    let place = *given;
    buf[..n].copy_from_slice(&buffer[place..place + n]);
    *given = place + n;
    n
}
