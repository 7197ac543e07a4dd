//! What a broker has of a vendor to sell.

ghost use Rattle.std.specs.Prelude.{◌≡◌, ◌++◌, [], ◌==◌, ℕ, if◌then◌else◌, Some, None, option_to_list, IfOk, OnOk};
ghost use Rattle.std.specs.Option.{option_or};
ghost use Rattle.scrip_form.specs.Issuing.{series_end};
ghost use Rattle.scrip_form.specs.Identities.{epoch_of};
ghost use Rattle.audit_search.specs.Shops.{IsShopOf, in_stock, licensed, part_sold};

use crate::known::Known;
use audit_model::{Part, Sold};
use audit_sums::{BookSums, Licence};
use mc_base::NoMemory;
use scrip_form::{Id, Name, Terms};
use std::alloc::Global;
use std::collections::HashMap;

/// What a broker has of a vendor to sell and what it sold of it, and what the vendor minted.
#[derive(Drop)]
pub(crate) struct Shop {
    /// The vendor's name.
    pub(crate) name: Name,
    /// The terms of the vendor's licence, where there is one.
    pub(crate) licence: Option<Terms>,
    /// The pieces that were put into stock, by their identities: of one identity the first.
    pub(crate) stock: HashMap<u64, Part>,
    /// What the vendor minted.
    pub(crate) minted: Known,
    /// The vendor's pieces that the broker sold, in order.
    pub(crate) sold: Vec<Part>,
}

impl Shop {
    /// The shop of a vendor at a broker, with nothing in stock and nothing sold yet.
    pub(crate) fn new(alloc: Global, broker: &BookSums, vendor: &BookSums) -> Result<Shop, NoMemory>
        ensures shop { IfOk result (IsShopOf broker.now vendor.now) }
        ensures stock { IfOk result (λ shop. (id : ℕ) → in_stock shop id ≡ None) }
        ensures sold { IfOk result (λ shop. shop.sold.items ≡ []) }
    {
        let name = *vendor.name();
        Ok(Shop {
            name,
            licence: licence_for(broker.licences(), &name),
            stock: HashMap::new(alloc),
            minted: Known::of_runs(alloc, vendor.minted())?,
            sold: Vec::new(alloc),
        })
    }

    /// The piece of a sale of the vendor's.
    pub(crate) fn piece(&self, sale: &Sold) -> Option<Part>
        ensures { result ≡ part_sold self.now sale.now }
    {
        if sale.stock {
            return self.stock.get(&sale.id.number()).copied();
        }
        match &self.licence {
            Some(terms) => Some(Part {
                id: sale.id,
                value: sale.value,
                expires: end_of(terms, sale.id),
            }),
            None => None,
        }
    }

    /// Puts a piece of the vendor's into stock, unless one of its identity is there.
    pub(crate) fn put(&mut self, part: Part) -> Result<(), NoMemory>
        ensures same { OnOk result (self.new ≡ record self.old { stock = self.new.stock }) }
        ensures stock { OnOk result ((id : ℕ) → in_stock self.new id
            ≡ option_or (in_stock self.old id) (if id == part.id then Some part else None)) }
    {
        let id = part.id.number();
        if !self.stock.contains_key(&id) {
            self.stock.insert(id, part)?;
        }
        Ok(())
    }

    /// Keeps the piece of a sale of the vendor's behind those that were sold before.
    pub(crate) fn sell(&mut self, sale: &Sold) -> Result<(), NoMemory>
        ensures same { OnOk result (self.new ≡ record self.old { sold = self.new.sold }) }
        ensures sold { OnOk result (self.new.sold.items
            ≡ self.old.sold.items ++ option_to_list (part_sold self.old sale.now)) }
    {
        match self.piece(sale) {
            Some(part) => self.sold.push(part)?,
            None => (),
        }
        Ok(())
    }
}

/// The end of a series of these terms, by an identity of it.
fn end_of(terms: &Terms, id: Id) -> u64
    ensures { result ≡ series_end terms.now (epoch_of id) }
{
    let (_, epoch, _) = id.parts();
    terms.series_end(epoch)
}

/// The terms of a vendor's licence: of several the first.
fn licence_for(licences: &[Licence], name: &Name) -> Option<Terms>
    ensures { result ≡ licensed licences.now name.now }
{
    for licence in licences {
        if licence.vendor.bytes() == name.bytes() {
            return Some(licence.terms);
        }
    }
    None
}
