ghost use Rattle.std.specs.Prelude.{◌≡◌, ◌≤◌};
ghost use Rattle.command_table.specs.Ranges.{IsWithin};

use crate::parameter::{
    LEAST_KEPT, LEAST_PERIOD, MOST_EPOCH, MOST_HEADS, MOST_ISSUER, MOST_KEPT, MOST_KIND,
    MOST_LINKS, MOST_MINTED, MOST_SECONDS,
};
use mc_base::{Amount, Moment};
use std::marker::Model;

/// A number from `LEAST` to `MOST`. Contracts see it as the number.
#[derive(Clone, Copy)]
pub struct Within<const LEAST: u64, const MOST: u64> {
    number: u64,
}

impl<const LEAST: u64, const MOST: u64> Model for Within<LEAST, MOST> {
    ghost use Rattle.std.specs.Prelude.{ℕ};
    ghost use Rattle.command_table.specs.Ranges.{IsWithin};

    ghost Value = { ℕ };

    ghost view = { λ w. w.number };

    ghost invariant = { λ w. IsWithin LEAST MOST w.number };

    ghost inverse = { λ n. record { number = n } };
}

impl<const LEAST: u64, const MOST: u64> Within<LEAST, MOST> {
    pub(crate) fn of(number: u64) -> Within<LEAST, MOST>
        requires { IsWithin LEAST MOST number }
        ensures { result ≡ number }
    {
        Within { number }
    }

    /// The number.
    pub fn get(self) -> u64
        ensures value { result ≡ self.entry }
        ensures range { IsWithin LEAST MOST self.entry }
    {
        self.number
    }

    /// The amount of so many units.
    pub fn amount(self) -> Amount
        requires { MOST ≤ Amount.MOST }
        ensures value { result ≡ self.entry }
        ensures range { IsWithin LEAST MOST self.entry }
    {
        Amount::new(self.number).unwrap()
    }

    /// The moment so many seconds after 1970 began.
    pub fn moment(self) -> Moment
        requires { MOST ≤ Moment.LAST }
        ensures value { result ≡ self.entry }
        ensures range { IsWithin LEAST MOST self.entry }
    {
        Moment::new(self.number).unwrap()
    }
}

/// A price, an amount that is paid, or the number of an order.
pub type Sum = Within<1, { Amount::MOST }>;

/// What a broker takes for a sale of scrip.
pub type Fee = Within<0, { Amount::MOST }>;

/// How long a series is issued, in seconds.
pub type Period = Within<LEAST_PERIOD, MOST_SECONDS>;

/// How long it stays good after its period, in seconds.
pub type Life = Within<0, MOST_SECONDS>;

/// How long a request gets its first reply again, in seconds.
pub type Keep = Within<LEAST_KEPT, MOST_KEPT>;

/// The kind of contents.
pub type Kind = Within<0, MOST_KIND>;

/// The number of an issuer that is licensed.
pub type Issuer = Within<1, MOST_ISSUER>;

/// The number of an issuer, the house itself being 0.
pub type AnyIssuer = Within<0, MOST_ISSUER>;

/// The epoch of a series.
pub type Epoch = Within<0, MOST_EPOCH>;

/// The moment before which a piece ends.
pub type Before = Within<0, { Moment::LAST }>;

/// How many pieces are minted.
pub type Count = Within<1, MOST_MINTED>;

/// How many links are taken at most.
pub type Links = Within<1, MOST_LINKS>;

/// How many heads are played.
pub type Heads = Within<1, MOST_HEADS>;
