ghost use Rattle.std.specs.Prelude.{◌≡◌};

use std::marker::Model;

/// The number of an entry whose reply is kept, and the place among the replies where it was seen, so
/// that the reply is not searched for again. Contracts see the number: where the reply moved since, it
/// is found all the same.
#[derive(Drop)]
pub struct KeptNumber {
    pub(crate) number: u64,
    /// Where its reply is looked for first.
    pub(crate) at: usize,
}

impl Model for KeptNumber {
    ghost use Rattle.std.specs.Prelude.{ℕ};

    ghost Value = { ℕ };

    ghost view = { λ n. n.number };
}

impl KeptNumber {
    /// A number whose place is not known.
    pub fn of(number: u64) -> KeptNumber
        ensures { result ≡ number }
    {
        KeptNumber { number, at: 0 }
    }

    /// The number.
    pub fn number(&self) -> u64
        ensures { result ≡ self.now }
    {
        self.number
    }
}
