ghost use Rattle.std.specs.Prelude.{◌≡◌, ℕ, ◌+◌, ◌<◌, ◌≤◌, ◌^◌, ◌↔◌, IsSome, IsNone, IfSome};

use std::marker::Model;

/// An amount of money, in units of a thousandth of a cent: 0 to 2^40. Contracts see it as the
/// number of units.
#[derive(Clone, Copy, Debug, PartialEq, Eq, PartialOrd, Ord)]
pub struct Amount {
    units: u64,
}

impl Model for Amount {
    ghost Value = { ℕ };

    ghost view = { λ a. a.units };

    ghost invariant = { λ a. a.units ≤ 2 ^ 40 };

    ghost inverse = { λ n. record { units = n } };
}

impl Amount {
    /// The greatest amount, 2^40 units: some eleven million dollars.
    pub const MOST: u64 = 1 << 40;

    /// The amount of `n` units; None exactly above 2^40.
    pub fn new(n: u64) -> Option<Amount>
        ensures valid { IsSome result ↔ (n ≤ 2 ^ 40) }
        ensures value { IfSome result (λ a. a ≡ n) }
    {
        if n <= Amount::MOST {
            Some(Amount { units: n })
        } else {
            None
        }
    }

    /// The number of units.
    pub fn get(self) -> u64
        ensures units { result ≡ self }
        ensures most { self ≤ 2 ^ 40 }
    {
        self.units
    }

    /// What is left of the amount after a part; None exactly where the part is greater.
    pub fn checked_sub(self, part: Amount) -> Option<Amount>
        ensures greater { IsNone result ↔ (self < part) }
        ensures rest { IfSome result (λ a. part + a ≡ self) }
    {
        if part.units <= self.units {
            Some(Amount {
                units: self.units - part.units,
            })
        } else {
            None
        }
    }
}
