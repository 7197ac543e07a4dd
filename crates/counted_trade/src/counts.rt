//! What is counted of a history for its settlement.

ghost use Rattle.std.specs.Prelude.{◌≡◌, ◌<◌, ◌^◌, ◌∷◌, ◌++◌, ◌↔◌, [], length, option_map, IfSome, IsTrue, OnOk};
ghost use Rattle.mc_records.specs.Entry.{moment_of};
ghost use Rattle.mc_records.specs.TermsViews.{issuing_of};
ghost use Rattle.mc_records.specs.Views.{entry};
ghost use Rattle.ledger_model.specs.Histories.{History};
ghost use Rattle.ledger_model.specs.Houses.{terms_of, all_terms};
ghost use Rattle.ledger_model.specs.Stock.{licence_in};
ghost use Rattle.settle_core.specs.Claims.{ClaimFits, PaymentFits, claim_of, payment_of};
ghost use Rattle.settle_core.specs.Settlement.{stated_bytes, paid_bytes, stated_amount, paid_amount, redeemed, sold_under, IsTextOf, StatedInOrder, PaidInOrder, IsInOrder};
ghost use Rattle.counted_trade.specs.Counts.{CountsRepresent, HasRoomForTerms, HasRoomToCount};

use crate::SeriesSums;
use crate::licences::Licences;
use crate::notes::{
    count_paid, count_stated, noted, paid_for, reserve_paid, reserve_stated, stated_of,
};
use house_state::terms_of;
use mc_base::{Moment, NoMemory};
use mc_records::{Record, RecordTerms};
use scrip_form::{Name, Terms};
use settle_core::{Claim, Payment, read_claim, read_payment};
use std::alloc::Global;
use sum_table::SumTable;

/// The sums and notes of a history: what was redeemed and sold of each series, the terms of each issuer and licence, and
/// what was stated and paid. Each is found in a few looks; of issuers there are at most 256.
#[derive(Drop)]
pub struct Counts {
    terms: Vec<Terms>,
    licences: Licences,
    sums: SeriesSums,
    stated: SumTable,
    paid: SumTable,
}

impl Counts {
    /// The counts of an empty history. It takes no memory.
    pub(crate) fn new(alloc: Global) -> Counts
        ensures { CountsRepresent result [] }
    {
        Counts {
            terms: Vec::new(alloc),
            licences: Licences::new(alloc),
            sums: SeriesSums::new(alloc),
            stated: SumTable::new(alloc),
            paid: SumTable::new(alloc),
        }
    }

    /// The terms of the licence for a vendor.
    pub fn licence(&self, vendor: &Name) -> Option<&Terms>
        ensures { (h : History) → CountsRepresent self.now h
            → option_map (λ t. t.now) result ≡ licence_in h vendor.now }
    {
        self.licences.get(vendor.bytes())
    }

    /// What was redeemed of a series, whose epoch is below 2^24.
    pub fn redeemed(&self, issuer: u8, epoch: u32) -> u128
        requires { epoch < 2 ^ 24 }
        ensures { (h : History) → CountsRepresent self.now h → result ≡ redeemed h issuer epoch }
    {
        self.sums.redeemed(issuer, epoch)
    }

    /// What was sold of a series under a vendor's licence.
    pub fn sold(&self, vendor: &Name, issuer: u8, epoch: u32) -> u128
        requires { epoch < 2 ^ 24 }
        ensures { (h : History) → CountsRepresent self.now h
            → result ≡ sold_under h vendor.now issuer epoch }
    {
        self.sums.sold(vendor, issuer, epoch)
    }

    /// What was stated of a series, where something was.
    pub fn stated(&self, issuer: u8, epoch: u32) -> Option<u128>
        requires { epoch < 2 ^ 24 }
        ensures { (h : History) → CountsRepresent self.now h
            → result ≡ stated_amount h issuer epoch }
    {
        stated_of(&self.stated, issuer, epoch)
    }

    /// What was paid for a series of a vendor's, where something was.
    pub fn paid(&self, vendor: &Name, issuer: u8, epoch: u32) -> Option<u128>
        requires { epoch < 2 ^ 24 }
        ensures { (h : History) → CountsRepresent self.now h
            → result ≡ paid_amount h vendor.now issuer epoch }
    {
        paid_for(&self.paid, vendor, issuer, epoch)
    }

    /// Makes room to count an entry. After an `Err` too it counts what it counted.
    pub(crate) fn reserve(&mut self, r: &Record<'_>) -> Result<(), NoMemory>
        ensures room { OnOk result (HasRoomToCount self.new (entry r.now)) }
        ensures same { (h : History) → CountsRepresent self.old h → CountsRepresent self.new h }
    {
        reserve_terms(&mut self.terms, r)?;
        self.licences.reserve(r)?;
        self.sums.reserve(r)?;
        reserve_stated(&mut self.stated, r)?;
        reserve_paid(&mut self.paid, r)
    }

    /// Whether an entry is in order: true of all but notes that settle series. It takes no memory.
    pub(crate) fn allows(&self, r: &Record<'_>) -> bool
        ensures { (h : History) → CountsRepresent self.now h
            → IsTrue result ↔ IsInOrder h (entry r.now) }
    {
        if !self.allows_statement(r) {
            return false;
        }
        self.allows_payment(r)
    }

    /// Counts the next entry, which is in order, and for which there is room. It takes no memory.
    pub(crate) fn count(&mut self, number: u64, r: &Record<'_>)
        requires room { HasRoomToCount self.old (entry r.now) }
        ensures counted { (h : History) → CountsRepresent self.old h → number ≡ length h
            → IsInOrder h (entry r.now) → CountsRepresent self.new (h ++ entry r.now ∷ []) }
    {
        count_terms(&mut self.terms, r);
        self.licences.count(r);
        self.sums.count(number, r);
        count_stated(&mut self.stated, r);
        count_paid(&mut self.paid, r);
    }

    /// Whether an entry is in order as a statement.
    fn allows_statement(&self, r: &Record<'_>) -> bool
        ensures { (h : History) → CountsRepresent self.now h
            → IsTrue result ↔ IfSome (stated_bytes (entry r.now)) (IsTextOf claim_of (StatedInOrder h (moment_of (entry r.now)))) }
    {
        let Some(bytes) = noted(b"stated", r) else {
            return true;
        };
        match read_claim(bytes) {
            Some(claim) => self.may_state(r.moment(), &claim),
            None => false,
        }
    }

    /// Whether an entry is in order as a payment.
    fn allows_payment(&self, r: &Record<'_>) -> bool
        ensures { (h : History) → CountsRepresent self.now h
            → IsTrue result ↔ IfSome (paid_bytes (entry r.now)) (IsTextOf payment_of (PaidInOrder h (moment_of (entry r.now)))) }
    {
        let Some(bytes) = noted(b"pay", r) else {
            return true;
        };
        match read_payment(bytes) {
            Some(payment) => self.may_pay(r.moment(), &payment),
            None => false,
        }
    }

    /// Whether a claim may be stated at a moment.
    fn may_state(&self, moment: Moment, claim: &Claim) -> bool
        requires fits { ClaimFits claim.now }
        ensures { (h : History) → CountsRepresent self.now h
            → IsTrue result ↔ StatedInOrder h moment claim.now }
    {
        let Some(terms) = terms_of(&self.terms, claim.issuer) else {
            return false;
        };
        let now = moment.seconds();
        let end = terms.series_end(claim.epoch);
        if now < end {
            return false;
        }
        if self.stated(claim.issuer, claim.epoch).is_some() {
            return false;
        }
        claim.amount == self.redeemed(claim.issuer, claim.epoch)
    }

    /// Whether a payment may be made at a moment.
    fn may_pay(&self, moment: Moment, payment: &Payment) -> bool
        requires fits { PaymentFits payment.now }
        ensures { (h : History) → CountsRepresent self.now h
            → IsTrue result ↔ PaidInOrder h moment payment.now }
    {
        let Some(terms) = self.licence(&payment.vendor) else {
            return false;
        };
        let claim = &payment.claim;
        if terms.issuer() != claim.issuer {
            return false;
        }
        let now = moment.seconds();
        let end = terms.series_end(claim.epoch);
        if now < end {
            return false;
        }
        if self
            .paid(&payment.vendor, claim.issuer, claim.epoch)
            .is_some()
        {
            return false;
        }
        claim.amount <= self.sold(&payment.vendor, claim.issuer, claim.epoch)
    }
}

/// The terms that an entry brings.
fn brought<'a>(r: &Record<'a>) -> Option<RecordTerms<'a>>
    ensures { option_map issuing_of result ≡ terms_of (entry r.now) }
{
    match *r {
        Record::Site { house, .. } => match house {
            Some(house) => Some(house.terms),
            None => None,
        },
        Record::Terms { terms, .. } => Some(terms),
        _ => None,
    }
}

/// Makes room for the terms that an entry brings.
fn reserve_terms(terms: &mut Vec<Terms>, r: &Record<'_>) -> Result<(), NoMemory>
    ensures room { OnOk result (HasRoomForTerms terms.new (entry r.now)) }
    ensures same { terms.new.items ≡ terms.old.items }
{
    if brought(r).is_some() {
        terms.reserve(1)?;
    }
    Ok(())
}

/// Counts the terms that the next entry brings, for which there is room.
fn count_terms(terms: &mut Vec<Terms>, r: &Record<'_>)
    requires room { HasRoomForTerms terms.old (entry r.now) }
    ensures counted { (h : History) → all_terms h ≡ terms.old.items
        → all_terms (h ++ entry r.now ∷ []) ≡ terms.new.items }
{
    if let Some(more) = brought(r) {
        terms.push_reserved(more.terms());
    }
}
