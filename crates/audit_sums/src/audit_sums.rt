//! What an audit keeps of a book.

ghost use Rattle.std.specs.Prelude.{◌≡◌, ◌++◌, ◌∷◌, [], max, Some, option_map, OnOk};
ghost use Rattle.mc_records.specs.Entry.{Fits};
ghost use Rattle.mc_records.specs.Views.{entry};
ghost use Rattle.ledger_model.specs.Histories.{History};
ghost use Rattle.ledger_model.specs.Lawful.{IsHouseSite};
ghost use Rattle.ledger_model.specs.Pieces.{accepted_piece};
ghost use Rattle.audit_model.specs.Parts.{part_of};
ghost use Rattle.audit_sums.specs.Learned.{SumsRepresent, name_of, kind_of, time_of, till_of, accepted_of, own_out_of, runs_of, sales_of, licences_of, stock_rows_of};

use crate::market::Market;
use crate::pieces::Pieces;
use crate::rows::{Acceptance, Licence, Run, Stocked};
use crate::till::Till;
use audit_model::{Part, Sold};
use mc_base::{Moment, NoMemory};
use mc_records::{PieceList, Record};
use scrip_form::{Name, Terms};
use std::alloc::Global;

/// What an audit keeps of the book of a vendor or a broker. It learns the entries one by one, and keeps no
/// history: memory is in proportion to the pieces that were accepted and handed out, to the mints, and to the sales,
/// the licences and the stock of a broker.
#[derive(Drop)]
pub struct BookSums {
    pub(crate) name: Name,
    pub(crate) kind: u8,
    pub(crate) fee: u64,
    pub(crate) terms: Terms,
    pub(crate) time: Moment,
    pub(crate) till: Till,
    pub(crate) pieces: Pieces,
    pub(crate) market: Market,
}

impl BookSums {
    /// What is kept of a book with this first entry alone, which is the Site entry of a house. It takes no memory.
    pub fn new(alloc: Global, site: &Record<'_>) -> BookSums
        requires fits { Fits (entry site.now) }
        requires site { IsHouseSite (entry site.now) }
        ensures { SumsRepresent result (entry site.now ∷ []) }
    {
        let _parts: Option<PieceList<'_>> = None;
        match site {
            Record::Site {
                moment,
                kind,
                name,
                house: Some(house),
            } => BookSums {
                name: Name::new(name).unwrap(),
                kind: *kind,
                fee: house.fee,
                terms: house.terms.terms(),
                time: *moment,
                till: Till::empty(),
                pieces: Pieces::none(alloc),
                market: Market::none(alloc),
            },
            _ => unreachable!(),
        }
    }

    /// Learns the next entry, by the piece that it accepts, where it accepts one. After an `Err` nothing is said of what is
    /// kept.
    pub fn learn(&mut self, r: &Record<'_>, paid: &Option<Part>) -> Result<(), NoMemory>
        requires fits { Fits (entry r.now) }
        requires paid { paid.now ≡ option_map part_of (accepted_piece (entry r.now)) }
        ensures { (h : History) → SumsRepresent self.old h
            → OnOk result (SumsRepresent self.new (h ++ entry r.now ∷ [])) }
    {
        self.time = later(self.time, r.moment());
        self.till.count(self.fee, r)?;
        self.pieces.learn(&self.terms, r, paid)?;
        self.market.learn(r)
    }

    /// The name of the site.
    pub fn name(&self) -> &Name
        ensures { result.now ≡ name_of self.now }
    {
        &self.name
    }

    /// The kind of the site: 0 for a vendor, 1 for a broker.
    pub fn kind(&self) -> u8
        ensures { result ≡ kind_of self.now }
    {
        self.kind
    }

    /// The greatest moment of the book.
    pub fn time(&self) -> Moment
        ensures { result ≡ time_of self.now }
    {
        self.time
    }

    /// The money of the book.
    pub fn till(&self) -> Till
        ensures { result ≡ till_of self.now }
    {
        self.till
    }

    /// What was kept of the pieces that it accepted, in order.
    pub fn accepted(&self) -> &[Acceptance]
        ensures { result.now ≡ accepted_of self.now }
    {
        &self.pieces.accepted
    }

    /// The pieces that it handed out in its own series, in order.
    pub fn own_out(&self) -> &[Part]
        ensures { result.now ≡ own_out_of self.now }
    {
        &self.pieces.own_out
    }

    /// The pieces that it minted, in order.
    pub fn minted(&self) -> &[Run]
        ensures { result.now ≡ runs_of self.now }
    {
        &self.pieces.minted
    }

    /// What it sold, in order.
    pub fn sales(&self) -> &[Sold]
        ensures { result.now ≡ sales_of self.now }
    {
        &self.market.sales
    }

    /// Its licences, in order.
    pub fn licences(&self) -> &[Licence]
        ensures { result.now ≡ licences_of self.now }
    {
        &self.market.licences
    }

    /// The pieces that it put into stock, in order.
    pub fn stock(&self) -> &[Stocked]
        ensures { result.now ≡ stock_rows_of self.now }
    {
        &self.market.stock
    }
}

/// The later of two moments.
fn later(a: Moment, b: Moment) -> Moment
    ensures { result ≡ max a b }
{
    if a.seconds() < b.seconds() { b } else { a }
}
