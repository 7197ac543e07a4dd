ghost use Rattle.std.specs.Prelude.{◌≡◌, ◌+◌, ◌<◌, ◌≤◌, ◌^◌};
ghost use Rattle.change_issue.specs.Registers.{blank_sheet};

use mc_base::{Amount, Coin, Total};
use std::marker::Model;

/// What is kept of one series: how many pieces stand in it, the coins that they were issued for, and
/// the sum that was redeemed. Contracts see it as the record `SeriesSheet`.
#[derive(Drop)]
pub(crate) struct Sheet {
    count: u64,
    issued: Total,
    redeemed: u128,
}

impl Model for Sheet {
    ghost use Rattle.std.specs.Prelude.{◌*◌, ◌≤◌, ◌^◌};
    ghost use Rattle.change_issue.specs.Registers.{SeriesSheet};

    ghost Value = { SeriesSheet };

    ghost view = { λ s. record { count = s.count; issued = s.issued; redeemed = s.redeemed } };

    ghost invariant = { λ s. (s.count ≤ 2 ^ 32) × (s.issued ≤ s.count * 2 ^ 40) };
}

impl Sheet {
    /// The sheet of a series in which nothing stands.
    pub(crate) fn blank() -> Sheet
        ensures { result ≡ blank_sheet }
    {
        Sheet {
            count: 0,
            issued: Total::zero(),
            redeemed: 0,
        }
    }

    pub(crate) fn count(&self) -> u64
        ensures { result ≡ self.now.count }
    {
        self.count
    }

    pub(crate) fn issued(&self) -> u128
        ensures { result ≡ self.now.issued }
    {
        self.issued.number()
    }

    pub(crate) fn redeemed(&self) -> u128
        ensures { result ≡ self.now.redeemed }
    {
        self.redeemed
    }

    /// One piece more, issued for this coin.
    pub(crate) fn issue(&mut self, c: Coin)
        requires { self.old.count < 2 ^ 32 }
        ensures { self.new ≡ record self.old { count = self.old.count + 1; issued = self.old.issued + c } }
    {
        self.count += 1;
        self.issued.put(c);
    }

    /// So many pieces more, issued for no coin.
    pub(crate) fn count_on(&mut self, count: u32)
        requires { self.old.count + count ≤ 2 ^ 32 }
        ensures { self.new ≡ record self.old { count = self.old.count + count } }
    {
        self.count += u64::from(count);
    }

    /// A coin of the amount, which is redeemed.
    pub(crate) fn redeem(&mut self, a: Amount) -> Coin
        requires { self.old.redeemed < 2 ^ 120 }
        ensures coin { result ≡ a }
        ensures redeemed { self.new ≡ record self.old { redeemed = self.old.redeemed + a } }
    {
        self.redeemed += u128::from(a.get());
        Coin::minted(a)
    }
}
