ghost use Rattle.std.specs.Prelude.{◌≡◌, ℕ, ◌<◌, ◌^◌, ◌+◌, ◌↔◌, IsNone, IfNone, IfSome};

use crate::{Amount, Coin};
use std::marker::Model;

/// A sum of money. It may be dropped, since it sums up what is written elsewhere. Contracts see it
/// as the number of its units.
#[derive(Debug, Drop)]
pub struct Total {
    units: u128,
}

impl Model for Total {
    ghost Value = { ℕ };

    ghost view = { λ t. t.units };

    ghost inverse = { λ n. record { units = n } };
}

impl Total {
    /// Nothing.
    pub fn zero() -> Total
        ensures { result ≡ 0 }
    {
        Total { units: 0 }
    }

    /// Takes the coin in.
    pub fn put(&mut self, c: Coin)
        requires { self.old < 2 ^ 120 }
        ensures { self.new ≡ self.old + c }
    {
        self.units += c.spent().get() as u128;
    }

    /// A coin of this amount out of the sum; `None` exactly where it holds less, and the sum then
    /// stays as it is.
    pub fn take(&mut self, a: Amount) -> Option<Coin>
        ensures none { IsNone result ↔ (self.old < a) }
        ensures same { IfNone result (self.new ≡ self.old) }
        ensures taken { IfSome result (λ c. (c ≡ a) × (self.new + c ≡ self.old)) }
    {
        let asked = a.get() as u128;
        if self.units < asked {
            return None;
        }
        self.units -= asked;
        Some(Coin::minted(a))
    }

    /// The number of units.
    pub fn number(&self) -> u128
        ensures { result ≡ self.now }
    {
        self.units
    }
}
