ghost use Rattle.std.specs.Prelude.{◌≡◌, ◌+◌, ◌<◌, ◌≤◌, ◌^◌, ◌↔◌, ◌==◌, ◌||◌, ℕ, false, IsTrue, IsOk, IsErr, IfErr, IfOk, OnOk, OnErr};
ghost use Rattle.scrip_form.specs.Identities.{series_of, numbered};
ghost use Rattle.scrip_form.specs.Issuing.{HasPeriod, series_at};
ghost use Rattle.mc_requests.specs.Limits.{AreInRange};
ghost use Rattle.change_issue.specs.Registers.{has_room, count_in, issued_in, redeemed_in, next_in, IsRaisedAt};
ghost use Rattle.change_issue.specs.IssuedPieces.{issued_piece};

use crate::series_full::SeriesFull;
use crate::sheet::Sheet;
use mc_base::{Amount, Coin, Moment, NoMemory};
use mc_requests::Limits;
use scrip_form::{Id, Name, Piece, Props, Terms};
use std::alloc::Global;
use std::collections::HashMap;
use std::marker::Model;

/// Hands out the pieces of an issuer. In each series it gives the serials 0, 1, 2 and so on, each of
/// them once, up to the limit of a series, and it sums the coins that pieces were issued for and what
/// was redeemed. A series is numbered as `Id::series` does, and needs room, which is reserved. It is
/// found in a few looks, however many there are. An issuer may be dropped, since it counts what is
/// written elsewhere.
///
/// Contracts see it as the record `Register`, and speak of a series by `has_room`, `count_in`,
/// `issued_in` and `redeemed_in`.
#[derive(Drop)]
pub struct Issuer {
    terms: Terms,
    most: u64,
    sheets: HashMap<u32, Sheet>,
}

impl Model for Issuer {
    ghost use Rattle.std.specs.Prelude.{◌≤◌, ◌^◌};
    ghost use Rattle.scrip_form.specs.Issuing.{HasPeriod};
    ghost use Rattle.change_issue.specs.Registers.{Register};

    ghost Value = { Register };

    ghost view = { λ i. record { terms = i.terms; most = i.most; sheets = i.sheets.entries } };

    ghost invariant = { λ i. (i.most ≤ 2 ^ 32) × HasPeriod i.terms.period i.terms.life };
}

impl Issuer {
    /// An issuer of these terms under the limit of a series: nothing stands in any series, and none
    /// has room. It takes no memory.
    pub fn new(alloc: Global, terms: Terms, limits: Limits) -> Issuer
        requires { AreInRange limits }
        ensures terms { result.terms ≡ terms }
        ensures most { result.most ≡ limits.series }
        ensures count { (s : ℕ) → count_in result s ≡ 0 }
        ensures issued { (s : ℕ) → issued_in result s ≡ 0 }
        ensures redeemed { (s : ℕ) → redeemed_in result s ≡ 0 }
        ensures room { (s : ℕ) → has_room result s ≡ false }
    {
        Issuer {
            terms,
            most: limits.series,
            sheets: HashMap::new(alloc),
        }
    }

    /// The terms that it hands out pieces by.
    pub fn terms(&self) -> &Terms
        ensures { result.now ≡ self.now.terms }
    {
        &self.terms
    }

    /// Makes room for a series. Where it has room it is `Ok` and takes no memory. It changes nothing
    /// else, and after an `Err` all is as it was.
    pub fn reserve(&mut self, series: u32) -> Result<(), NoMemory>
        ensures ok { OnOk result ((s : ℕ)
            → has_room self.new s ≡ (series == s || has_room self.old s)) }
        ensures err { OnErr result ((s : ℕ) → has_room self.new s ≡ has_room self.old s) }
        ensures again { IsTrue (has_room self.old series) → IsOk result }

        ensures terms { self.new.terms ≡ self.old.terms }
        ensures most { self.new.most ≡ self.old.most }
        ensures count { (s : ℕ) → count_in self.new s ≡ count_in self.old s }
        ensures issued { (s : ℕ) → issued_in self.new s ≡ issued_in self.old s }
        ensures redeemed { (s : ℕ) → redeemed_in self.new s ≡ redeemed_in self.old s }
    {
        if !self.sheets.contains_key(&series) {
            self.sheets.insert(series, Sheet::blank())?;
        }
        Ok(())
    }

    /// The identity that the next piece has at a moment; `Err` exactly where as many pieces as the
    /// limit allows stand in the series of the moment. It takes no memory.
    pub fn next(&self, now: Moment) -> Result<Id, SeriesFull>
        ensures full { IsErr result ↔ (self.now.most ≤ count_in self.now (series_at self.now.terms now)) }
        ensures below { OnOk result (count_in self.now (series_at self.now.terms now) < self.now.most) }
        ensures series { IfErr result (λ e. e.series ≡ series_at self.now.terms now) }
        ensures next { IfOk result (λ id. id ≡ next_in self.now (series_at self.now.terms now)) }
        ensures limit { self.now.most ≤ 2 ^ 32 }
    {
        let series = self.terms.series_at(now);
        let count = self.count(series);
        if count >= self.most {
            return Err(SeriesFull { series });
        }
        Ok(identity(series, count))
    }

    /// Hands out the next piece of the series of a moment for a coin: of this vendor, worth the coin,
    /// good to the end of the series. With a customer it is his, and has these props, as change has.
    /// Without one it is first-hand: its customer's identity is its own, and it has no props. The
    /// moment is one at which `next` is `Ok`. It takes no memory.
    pub fn issue(
        &mut self,
        now: Moment,
        vendor: Name,
        c: Coin,
        cust: Option<Id>,
        props: Props,
    ) -> Piece
        requires room { IsTrue (has_room self.old (series_at self.old.terms now)) }
        requires below { count_in self.old (series_at self.old.terms now) < self.old.most }
        requires some { 0 < c }

        ensures piece { result ≡ issued_piece self.old.terms now vendor c (next_in self.old (series_at self.old.terms now)) cust props }
        ensures count { IsRaisedAt (series_at self.old.terms now) 1 (count_in self.old) (count_in self.new) }
        ensures issued { IsRaisedAt (series_at self.old.terms now) c (issued_in self.old) (issued_in self.new) }

        ensures redeemed { (s : ℕ) → redeemed_in self.new s ≡ redeemed_in self.old s }
        ensures room { (s : ℕ) → has_room self.new s ≡ has_room self.old s }
        ensures terms { self.new.terms ≡ self.old.terms }
        ensures most { self.new.most ≡ self.old.most }
    {
        let series = self.terms.series_at(now);
        let sheet = self.sheets.get_mut(&series).unwrap();
        let id = identity(series, sheet.count());
        let value = c.amount();
        sheet.issue(c);
        issued_piece(&self.terms, now, vendor, value, id, cust, props)
    }

    /// Takes the serials of minted pieces out of their series, which are the next ones and fit the
    /// limit. They were issued for no coin. It takes no memory.
    pub fn count_on(&mut self, first: Id, count: u32)
        requires room { IsTrue (has_room self.old (series_of first)) }
        requires next { first ≡ next_in self.old (series_of first) }
        requires fits { count_in self.old (series_of first) + count ≤ self.old.most }

        ensures count { IsRaisedAt (series_of first) count (count_in self.old) (count_in self.new) }

        ensures issued { (s : ℕ) → issued_in self.new s ≡ issued_in self.old s }
        ensures redeemed { (s : ℕ) → redeemed_in self.new s ≡ redeemed_in self.old s }
        ensures room { (s : ℕ) → has_room self.new s ≡ has_room self.old s }
        ensures terms { self.new.terms ≡ self.old.terms }
        ensures most { self.new.most ≡ self.old.most }
    {
        let sheet = self.sheets.get_mut(&first.series()).unwrap();
        sheet.count_on(count);
    }

    /// Redeems an amount of the series of an identity, and answers the coin. It takes no memory.
    pub fn redeem(&mut self, id: Id, a: Amount) -> Coin
        requires room { IsTrue (has_room self.old (series_of id)) }
        requires below { redeemed_in self.old (series_of id) < 2 ^ 120 }

        ensures coin { result ≡ a }
        ensures redeemed { IsRaisedAt (series_of id) a (redeemed_in self.old) (redeemed_in self.new) }

        ensures count { (s : ℕ) → count_in self.new s ≡ count_in self.old s }
        ensures issued { (s : ℕ) → issued_in self.new s ≡ issued_in self.old s }
        ensures room { (s : ℕ) → has_room self.new s ≡ has_room self.old s }
        ensures terms { self.new.terms ≡ self.old.terms }
        ensures most { self.new.most ≡ self.old.most }
    {
        let sheet = self.sheets.get_mut(&id.series()).unwrap();
        sheet.redeem(a)
    }

    /// The sum of the coins that the pieces of a series were issued for; 0 where it has no room.
    #[tactic(auto, unfolding(crate::specs::Registers::issued_in))]
    pub fn issued(&self, series: u32) -> u128
        ensures { result ≡ issued_in self.now series }
    {
        self.sheets.get(&series).map_or(0, |sheet| sheet.issued())
    }

    /// The sum that was redeemed of a series; 0 where it has no room.
    #[tactic(auto, unfolding(crate::specs::Registers::redeemed_in))]
    pub fn redeemed(&self, series: u32) -> u128
        ensures { result ≡ redeemed_in self.now series }
    {
        self.sheets.get(&series).map_or(0, |sheet| sheet.redeemed())
    }

    /// How many pieces stand in a series: those that were issued, and those that were counted on; 0
    /// where it has no room.
    #[tactic(auto, unfolding(crate::specs::Registers::count_in))]
    pub fn count(&self, series: u32) -> u64
        ensures { result ≡ count_in self.now series }
    {
        self.sheets.get(&series).map_or(0, |sheet| sheet.count())
    }
}

/// The identity of a serial of a series.
fn identity(series: u32, serial: u64) -> Id
    requires { serial < 2 ^ 32 }
    ensures { result ≡ numbered series serial }
{
    Id::of_number(u64::from(series) * (1 << 32) + serial)
}

/// The piece that is issued at a moment for a coin of this worth, under an identity.
fn issued_piece(
    terms: &Terms,
    now: Moment,
    vendor: Name,
    value: Amount,
    id: Id,
    cust: Option<Id>,
    props: Props,
) -> Piece
    requires terms { HasPeriod terms.now.period terms.now.life }
    requires some { 0 < value }
    ensures { result ≡ issued_piece terms.now now vendor value id cust props }
{
    let expires = terms.series_end(terms.epoch_of(now));
    match cust {
        Some(cust) => Piece::new(vendor, value, id, cust, expires, props).unwrap(),
        None => Piece::first_hand(1, vendor, value, id, expires).unwrap(),
    }
}
