//! A trade that counts beside an inner one.

ghost use Rattle.std.specs.Prelude.{◌≡◌, ◌<◌, ◌^◌, []};
ghost use Rattle.ledger_model.specs.Histories.{History};
ghost use Rattle.settle_core.specs.Settlement.{redeemed, sold_under};
ghost use Rattle.counted_trade.specs.Counted.{counted_view};
ghost use Rattle.counted_trade.specs.Counts.{CountsRepresent};

use crate::counts::Counts;
use house_state::{Body, DrawAsk, Offer, SiteKind, Trade, Unlawful};
use kept_replies::Deed;
use mc_base::{Amount, Moment, NoMemory};
use mc_records::Record;
use mc_requests::{Limits, Refusal};
use scrip_form::Name;
use std::alloc::Global;
use std::marker::Model;

/// A trade that passes every call on to an inner one, and counts beside it what settlement needs. Its own test of a note
/// is the inner one's and, of a note that settles a series, that it is in order. Contracts see it as the record
/// `CountedView`.
#[derive(Drop)]
pub struct Counted<T> {
    inner: T,
    counts: Counts,
}

impl<T> Model for Counted<T> {
    ghost use Rattle.counted_trade.specs.CountedView.{CountedView};

    ghost Value = { CountedView T };

    ghost view = { λ c. record { inner = c.inner; counts = c.counts } };
}

impl<T: Trade> Counted<T> {
    /// Counts beside a trade, which has learned nothing yet. It takes no memory.
    pub fn new(alloc: Global, inner: T) -> Counted<T>
        ensures empty { (T.trade inner).represents [] → (counted_view T.trade result).represents [] }
        ensures site { (counted_view T.trade result).site ≡ (T.trade inner).site }
    {
        Counted {
            inner,
            counts: Counts::new(alloc),
        }
    }

    /// What it counts.
    pub fn counts(&self) -> &Counts
        ensures { (h : History) → (counted_view T.trade self.now).represents h
            → CountsRepresent result.now h }
    {
        &self.counts
    }

    /// What was redeemed of a series, whose epoch is below 2^24.
    pub fn redeemed(&self, issuer: u8, epoch: u32) -> u128
        requires { epoch < 2 ^ 24 }
        ensures { (h : History) → (counted_view T.trade self.now).represents h
            → result ≡ redeemed h issuer epoch }
    {
        self.counts.redeemed(issuer, epoch)
    }

    /// What was sold of a series under a vendor's licence.
    pub fn sold(&self, vendor: &Name, issuer: u8, epoch: u32) -> u128
        requires { epoch < 2 ^ 24 }
        ensures { (h : History) → (counted_view T.trade self.now).represents h
            → result ≡ sold_under h vendor.now issuer epoch }
    {
        self.counts.sold(vendor, issuer, epoch)
    }
}

impl<T: Trade> Trade for Counted<T> {
    ghost use Rattle.counted_trade.specs.Counted.{counted_view, switch_room, PassesBoth};

    ghost trade = { counted_view T.trade };

    ghost passes = { PassesBoth T.passes };

    fn kind(&self) -> SiteKind {
        self.inner.kind()
    }

    fn price(&self, target: &[u8]) -> Option<u64> {
        self.inner.price(target)
    }

    fn offer(
        &self,
        time: Moment,
        limits: Limits,
        target: &[u8],
        value: Amount,
    ) -> Result<Offer, Refusal> {
        self.inner.offer(time, limits, target, value)
    }

    fn draw(&self, target: &[u8]) -> Option<DrawAsk> {
        self.inner.draw(target)
    }

    fn reserve(&mut self, r: &Record<'_>) -> Result<(), NoMemory> {
        self.counts.reserve(r)?;
        self.inner.reserve(r)
    }

    fn learn(&mut self, number: u64, r: &Record<'_>) -> Result<(), Unlawful> {
        if !self.counts.allows(r) {
            return Err(Unlawful);
        }
        match self.inner.learn(number, r) {
            Ok(()) => {
                self.counts.count(number, r);
                Ok(())
            }
            Err(Unlawful) => Err(Unlawful),
        }
    }

    fn body<'a>(&'a self, deed: &Deed, room: &'a mut [u8; 512]) -> Body<'a> {
        self.inner.body(deed, room)
    }

    fn forget(&mut self, kept_from: Option<u64>) {
        self.inner.forget(kept_from)
    }

    ghost switch_room = { λ a m c. switch_room T.trade a m c (T.switch_room a.inner m c) };
}
