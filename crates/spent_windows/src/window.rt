ghost use Rattle.std.specs.Prelude.{◌≡◌, ◌<◌, ◌+◌, ◌==◌, ◌||◌, ◌^◌, ℕ, false, IfOk};
ghost use Rattle.spent_windows.specs.Windows.{has_mark, IsCompact};

use crate::bits::Bits;
use crate::steps::Steps;
use mc_base::NoMemory;
use std::alloc::Global;
use std::marker::Model;

/// 4,096 serials of one series, each marked or not; a bit is the place of a serial, from 0 to 4,095.
/// Contracts see it as the record `WindowView`.
#[derive(Drop)]
pub(crate) struct Window {
    number: u64,
    end: u64,
    /// None exactly where all serials are marked.
    bits: Option<Bits>,
}

impl Model for Window {
    ghost use Rattle.spent_windows.specs.Windows.{WindowView, IsCompact};

    ghost Value = { WindowView };

    ghost view = { λ w. record { number = w.number; end = w.end; words = w.bits } };

    ghost invariant = { λ w. IsCompact (record { number = w.number; end = w.end; words = w.bits }) };
}

impl Window {
    /// The window of a number, without a mark, of a series that ends at `end`. `Err` only where memory is
    /// refused.
    pub(crate) fn blank(alloc: Global, number: u64, end: u64) -> Result<Window, NoMemory>
        ensures number { IfOk result (λ w. w.number ≡ number) }
        ensures end { IfOk result (λ w. w.end ≡ end) }
        ensures clear { IfOk result (λ w. (k : ℕ) → k < 4096 → has_mark w k ≡ false) }
        ensures compact { IfOk result IsCompact }
    {
        Ok(Window {
            number,
            end,
            bits: Some(Bits::blank(alloc)?),
        })
    }

    /// The number, at the cost of a step. There is no other way to it, so each look at a window that is
    /// searched for is a step.
    pub(crate) fn look<L>(&self, steps: &mut Steps<L>) -> u64
        ensures number { result ≡ self.now.number }
        ensures step { steps.new ≡ steps.old + 1 }
    {
        steps.tick();
        self.number
    }

    /// The end of its series, in seconds since 1970.
    pub(crate) fn end(&self) -> u64
        ensures end { result ≡ self.now.end }
        ensures short { result < 2 ^ 64 }
    {
        self.end
    }

    /// Whether the serial of a bit is marked.
    pub(crate) fn has(&self, bit: usize) -> bool
        requires { bit < 4096 }
        ensures { result ≡ has_mark self.now bit }
    {
        match &self.bits {
            Some(bits) => bits.has(bit),
            None => true,
        }
    }

    /// Marks the serial of a bit, and leaves the others. Where all serials are marked then, the bits are
    /// let go.
    pub(crate) fn mark(&mut self, bit: usize)
        requires { bit < 4096 }
        ensures number { self.new.number ≡ self.old.number }
        ensures end { self.new.end ≡ self.old.end }
        ensures marked { (k : ℕ) → k < 4096
            → has_mark self.new k ≡ (has_mark self.old k || (bit == k)) }
        ensures compact { IsCompact self.new }
    {
        let Some(bits) = &mut self.bits else {
            return;
        };
        bits.set(bit);
        let full = bits.are_full(bit);
        if full {
            self.bits = None;
        }
    }
}
