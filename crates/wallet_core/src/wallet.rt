//! A wallet over a journal.

ghost use Rattle.std.specs.Prelude.{◌≡◌, max, map, option_map, IfErr};
ghost use Rattle.mc_requests.specs.declared.refusal.Refusal.TheVariants.{Nothing};
ghost use Rattle.scrip_journal.specs.States.{IsJournal};
ghost use Rattle.ledger_model.specs.Histories.{History};
ghost use Rattle.ledger_model.specs.Houses.{site_name};
ghost use Rattle.wallet_model.specs.Asks.{chosen};
ghost use Rattle.wallet_model.specs.Requests.{oldest_kept, kept_get};
ghost use Rattle.wallet_model.specs.Holdings as model;
ghost use Rattle.wallet_book.specs.Holdings.{holding_of, AreSpelled};
ghost use Rattle.wallet_book.specs.Kept.{kept_in, Retries};
ghost use Rattle.wallet_book.specs.Choosing.{Chooses};
ghost use Rattle.wallet_book.specs.Book.{WalletRepresents};
ghost use Rattle.wallet_core.specs.Wallet.{WalletStands};
ghost use Rattle.wallet_core.specs.Gets.{FindsGet};

use mc_base::{Amount, Moment};
use mc_outside::Disk;
use mc_requests::{Limits, Refusal};
use scrip_form::{Name, Target};
use scrip_journal::Journal;
use std::alloc::Global;
use std::marker::Model;
use wallet_book::{Holding, WalletBook};

/// A wallet over a journal that it owns and never lends. It is handed back by each call that writes an entry,
/// unless the disk fails in that call. Contracts see it as the record `WalletView`.
pub struct Wallet<D> {
    /// Where its memory comes from.
    pub(crate) alloc: Global,
    pub(crate) journal: Journal<D>,
    pub(crate) book: WalletBook,
}

impl<D> Model for Wallet<D> {
    ghost use Rattle.wallet_core.specs.WalletView.{WalletView};

    ghost Value = { WalletView D };

    ghost view = { λ w. record { journal = w.journal; book = w.book } };
}

impl<D: Disk> Wallet<D> {
    /// The wallet of a journal and of what was learned of its entries.
    pub(crate) fn new(alloc: Global, journal: Journal<D>, book: WalletBook) -> Wallet<D>
        ensures stands { (h : History) → IsJournal D.disk journal h → WalletRepresents book h
            → journal.limit ≡ book.limits.journal → WalletStands D.disk result h }
        ensures disk { result.journal.disk ≡ journal.disk }
        ensures time { result.book.time ≡ book.time }
        ensures limits { result.book.limits ≡ book.limits }
    {
        Wallet {
            alloc,
            journal,
            book,
        }
    }

    /// Its name.
    pub fn name(&self) -> Name
        ensures { (h : History) → WalletStands D.disk self.now h → result ≡ site_name h }
    {
        self.book.name()
    }

    /// Its time.
    pub fn time(&self) -> Moment
        ensures { result ≡ self.now.book.time }
    {
        self.book.time()
    }

    /// The limits of its journal.
    pub fn limits(&self) -> Limits
        ensures { result ≡ self.now.book.limits }
    {
        self.book.limits()
    }

    /// Its pieces, whatever their states, in the order in which they came.
    pub fn holdings(&self) -> &[Holding]
        ensures all { result.now ≡ self.now.book.holdings }
        ensures list { (h : History) → WalletStands D.disk self.now h
            → map holding_of result.now ≡ model.holdings h }
        // The text of each is that of its piece and its certificate.
        ensures spelled { AreSpelled result.now }
    {
        self.book.holdings()
    }

    /// The place among the holdings of the piece to pay with: of the held pieces of a vendor that are not expired
    /// and cover the limit the one of least value, and of two of the same value the first. `Err` is 62 `NoFunds`
    /// with the greatest value of the held pieces of the vendor that are not expired, 0 where there are none.
    pub fn choose(&self, vendor: &Name, limit: Amount) -> Result<usize, Refusal>
        ensures { (h : History) → WalletStands D.disk self.now h
            → Chooses (chosen h self.now.book.time vendor.now limit) result }
    {
        self.book.choose(vendor, limit)
    }

    /// Whether the request of a number asks for goods (0), to buy (1) or to draw (2); None exactly where the
    /// number is not that of a kept request.
    pub fn kept_kind(&self, number: u64) -> Option<u8>
        ensures { (h : History) → WalletStands D.disk self.now h
            → option_map (λ p. p.ask) (kept_in h number) ≡ result }
    {
        self.book.kept_kind(number)
    }

    /// The number of the oldest kept request of a peer. `Err` is 67 `Nothing`, exactly where there is none.
    pub fn retry_next(&self, peer: &Name) -> Result<u64, Refusal>
        ensures exact { (h : History) → WalletStands D.disk self.now h → Retries (oldest_kept h peer.now) result }
        ensures refused { IfErr result (λ f. f ≡ Nothing) }
    {
        self.book.retry_next(peer)
    }

    /// The number of the oldest kept request for the goods of a target of a vendor, and the place among the holdings
    /// of the piece that it pays with; None exactly where there is no such request.
    pub fn find_get(&self, vendor: &Name, target: &Target) -> Option<(u64, usize)>
        ensures { (h : History) → WalletStands D.disk self.now h
            → FindsGet h (kept_get h vendor.now target.now) result }
    {
        let kept = self.book.find_get(vendor, target)?;
        let place = kept.place?;
        Some((kept.number, place))
    }

    /// Raises its time to a reading of the clock where that is later, and answers it. The disk is not touched.
    /// It takes no memory.
    pub fn raise(&mut self, reading: Moment) -> Moment
        ensures time { result ≡ max self.old.book.time reading }
        ensures raised { self.new.book.time ≡ max self.old.book.time reading }
        ensures limits { self.new.book.limits ≡ self.old.book.limits }
        ensures journal { self.new.journal ≡ self.old.journal }
        ensures same { (h : History) → WalletStands D.disk self.old h → WalletStands D.disk self.new h }
    {
        self.book.raise(reading)
    }

    /// The disk, as it is.
    pub fn close(self) -> D
        ensures { result ≡ self.journal.disk }
    {
        let Wallet {
            alloc: _,
            journal,
            book: _,
        } = self;
        journal.close()
    }
}
