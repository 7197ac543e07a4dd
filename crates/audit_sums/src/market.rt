//! What a broker sold, and of what.

ghost use Rattle.std.specs.Prelude.{◌≡◌, ◌++◌, ◌∷◌, [], filter_map, option_to_list, OnOk};
ghost use Rattle.mc_records.specs.Entry.{Fits};
ghost use Rattle.mc_records.specs.PieceViews.{pieces_of};
ghost use Rattle.mc_records.specs.Views.{entry};
ghost use Rattle.ledger_model.specs.Histories.{History};
ghost use Rattle.audit_sums.specs.Rows.{licence_of, stocked_of, stocked_text, stocked_held};
ghost use Rattle.audit_sums.specs.Learned.{ShowsMarket};

use crate::pieces::put;
use crate::rows::{Licence, Stocked};
use audit_model::{Part, Sold};
use mc_base::NoMemory;
use mc_records::{PieceList, Record};
use scrip_form::Name;
use std::alloc::Global;

/// What a broker sold, its licences and its stock, in the order of its entries.
#[derive(Drop)]
pub(crate) struct Market {
    pub(crate) sales: Vec<Sold>,
    pub(crate) licences: Vec<Licence>,
    pub(crate) stock: Vec<Stocked>,
}

impl Market {
    /// Nothing. It takes no memory.
    pub(crate) fn none(alloc: Global) -> Market
        ensures sales { result.sales.items ≡ [] }
        ensures licences { result.licences.items ≡ [] }
        ensures stock { result.stock.items ≡ [] }
    {
        Market {
            sales: Vec::new(alloc),
            licences: Vec::new(alloc),
            stock: Vec::new(alloc),
        }
    }

    /// Learns the next entry. After an `Err` nothing is said of what is kept.
    pub(crate) fn learn(&mut self, r: &Record<'_>) -> Result<(), NoMemory>
        requires { Fits (entry r.now) }
        ensures { (h : History) → ShowsMarket self.old h
            → OnOk result (ShowsMarket self.new (h ++ entry r.now ∷ [])) }
    {
        put(&mut self.sales, Sold::read(r))?;
        put_licence(&mut self.licences, r)?;
        put_stock(&mut self.stock, r)
    }
}

/// Puts the licence that an entry gives behind the others.
fn put_licence(licences: &mut Vec<Licence>, r: &Record<'_>) -> Result<(), NoMemory>
    requires { Fits (entry r.now) }
    ensures { OnOk result (licences.new.items ≡ licences.old.items ++ option_to_list (licence_of (entry r.now))) }
{
    match r {
        Record::Licence { vendor, terms, .. } => licences.push(Licence {
            vendor: Name::new(vendor).unwrap(),
            terms: terms.terms(),
        })?,
        _ => (),
    }
    Ok(())
}

/// Puts the pieces of a Stock entry behind the others.
fn put_stock(stock: &mut Vec<Stocked>, r: &Record<'_>) -> Result<(), NoMemory>
    requires { Fits (entry r.now) }
    ensures { OnOk result (stock.new.items ≡ stock.old.items ++ stocked_of (entry r.now)) }
{
    match r {
        Record::Stock { vendor, pieces, .. } => put_pieces(
            stock,
            Name::new(vendor).unwrap(),
            pieces,
        ),
        _ => Ok(()),
    }
}

/// Puts the pieces of a list behind the others, as a vendor's.
fn put_pieces(
    stock: &mut Vec<Stocked>,
    vendor: Name,
    pieces: &PieceList<'_>,
) -> Result<(), NoMemory>
    ensures { OnOk result (stock.new.items
        ≡ stock.old.items ++ filter_map (stocked_held vendor) (pieces_of pieces.now)) }
{
    let mut list = *pieces;
    loop {
        let (first, rest) = list.split_first();
        put(stock, stocked(vendor, first.0.text()))?;
        list = match rest {
            Some(rest) => rest,
            None => return Ok(()),
        };
    }
}

/// The piece of a text, as a vendor's.
fn stocked(vendor: Name, text: &[u8]) -> Option<Stocked>
    ensures { result ≡ stocked_text vendor text.now }
{
    match Part::read(text) {
        Some(part) => Some(Stocked { vendor, part }),
        None => None,
    }
}
