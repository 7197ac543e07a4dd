ghost use Rattle.std.specs.Prelude.{◌≡◌, ℕ, ◌≤◌, ◌<◌, ◌^◌, ◌+◌, ◌↔◌, IfOk, IfErr, IsErr};

use crate::Amount;
use std::marker::Model;

/// Money that must be spent: a coin can be neither copied nor dropped. It goes into a
/// [`Total`](crate::Total), is split in two, or ends where it is worth nothing. Contracts see it as
/// the number of its units, 0 to 2^40.
#[derive(Debug)]
pub struct Coin {
    amount: Amount,
}

impl Model for Coin {
    ghost Value = { ℕ };

    ghost view = { λ c. c.amount };

    ghost invariant = { λ c. c.amount ≤ 2 ^ 40 };

    ghost inverse = { λ n. record { amount = n } };
}

impl Coin {
    /// A new coin of this amount. Whoever calls it answers for where the money comes from.
    pub fn minted(a: Amount) -> Coin
        ensures { result ≡ a }
    {
        Coin { amount: a }
    }

    /// What the coin is worth.
    pub fn amount(&self) -> Amount
        ensures { result ≡ self.now }
    {
        self.amount
    }

    /// Two coins worth as much together, the first of them `part`. `Err` hands the coin back,
    /// exactly where the part is greater than the coin.
    pub fn split(self, part: Amount) -> Result<(Coin, Coin), Coin>
        ensures parts { IfOk result (λ c. (c.0 ≡ part) × (c.0 + c.1 ≡ self)) }
        ensures back { IfErr result (λ c. c ≡ self) }
        ensures greater { IsErr result ↔ (self < part) }
    {
        let Coin { amount } = self;
        let Some(rest) = amount.checked_sub(part) else {
            return Err(Coin { amount });
        };
        Ok((Coin { amount: part }, Coin { amount: rest }))
    }

    /// The end of a coin that is worth nothing.
    pub fn end(self)
        requires { self ≡ 0 }
    {
        let Coin { amount: _ } = self;
    }

    /// What the coin was worth.
    pub(crate) fn spent(self) -> Amount
        ensures { result ≡ self }
    {
        let Coin { amount } = self;
        amount
    }
}
