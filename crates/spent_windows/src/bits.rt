ghost use Rattle.std.specs.Prelude.{◌≡◌, ◌<◌, ◌==◌, ◌||◌, ℕ, false, length, IfOk};
ghost use Rattle.spent_windows.specs.Windows.{has_bit, is_full};

use mc_base::NoMemory;
use std::alloc::Global;
use std::marker::Model;

/// The 4,096 bits of a window that is not full. Contracts see them as their 64 words.
#[derive(Drop)]
pub(crate) struct Bits {
    words: Box<[u64; 64]>,
}

impl Model for Bits {
    ghost use Rattle.std.specs.Prelude.{◌≡◌, ℕ, List, length};

    ghost Value = { List ℕ };

    ghost view = { λ b. b.words.value };

    ghost invariant = { λ b. length b.words.value ≡ 64 };
}

impl Bits {
    /// Bits of which none is set. `Err` only where memory is refused.
    pub(crate) fn blank(alloc: Global) -> Result<Bits, NoMemory>
        ensures clear { IfOk result (λ b. (k : ℕ) → k < 4096 → has_bit b k ≡ false) }
        ensures open { IfOk result (λ b. is_full b ≡ false) }
    {
        Ok(Bits {
            words: Box::new(alloc, [0; 64])?,
        })
    }

    /// Whether a bit is set.
    pub(crate) fn has(&self, bit: usize) -> bool
        requires { bit < 4096 }
        ensures { result ≡ has_bit self.now bit }
    {
        self.words[bit / 64] >> (bit % 64) & 1 == 1
    }

    /// Sets a bit, and leaves the others.
    pub(crate) fn set(&mut self, bit: usize)
        requires { bit < 4096 }
        ensures { (k : ℕ) → k < 4096 → has_bit self.new k ≡ (has_bit self.old k || (bit == k)) }
    {
        self.words[bit / 64] |= 1 << (bit % 64);
    }

    /// Whether all bits are set. The word of this bit is asked first: where the bit was set last, that
    /// word is seldom full, and then the others needn't be asked.
    pub(crate) fn are_full(&self, bit: usize) -> bool
        requires { bit < 4096 }
        ensures full { result ≡ is_full self.now }
        ensures long { length self.now ≡ 64 }
    {
        if self.words[bit / 64] != u64::MAX {
            return false;
        }
        self.words.iter().all(|word| *word == u64::MAX)
    }
}
