//! The shops of all vendors at a broker.

ghost use Rattle.std.specs.Prelude.{◌≡◌, ℕ, List as Items, [], map, option_map, IfOk, OnOk};
ghost use Rattle.std.specs.List.{AllZip};
ghost use Rattle.name_places.specs.NamePlaces.{place_of};
ghost use Rattle.audit_sums.specs.Learned.{name_of, stock_rows_of, sales_of};
ghost use Rattle.audit_sums.specs.declared.rows.Stocked.{Stocked as Row};
ghost use Rattle.audit_search.specs.Shops.{IsAsBefore};
ghost use Rattle.audit_search.specs.Strange.{shop_in};
ghost use Rattle.audit_search.specs.Filed.{place_in, AreFiled, HaveStocked, HaveSold};
ghost use Rattle.audit_search.specs.Findings.{vendors_among, AreShopsOf};

use crate::check::is_desk;
use crate::shop::Shop;
use audit_model::Sold;
use audit_sums::{BookSums, Stocked};
use mc_base::NoMemory;
use name_places::NamePlaces;
use scrip_form::Name;
use std::alloc::Global;

/// The shops of all vendors at a broker, in the order of their books. That of a vendor is found by its name in a few
/// looks, however many there are.
#[derive(Drop)]
pub struct Shops {
    pub(crate) list: Vec<Shop>,
    /// Where the shop of each vendor stands.
    pub(crate) places: NamePlaces,
    ghost filed: { AreFiled places list.items },
}

impl Shops {
    /// The shops of the vendors among some books at their broker, where the name of each vendor has the place of its
    /// book among the vendors'. The broker's stock and its sales are gone over once.
    pub(crate) fn new(
        alloc: Global,
        broker: &BookSums,
        books: &[BookSums],
        places: NamePlaces,
    ) -> Result<Shops, NoMemory>
        requires { (name : Items ℕ)
            → place_of places name ≡ place_in (map name_of (vendors_among books.now)) name }
        ensures shops { IfOk result (λ s. AreShopsOf broker.now (vendors_among books.now) s.list.items) }
        ensures stocked { IfOk result (λ s. HaveStocked s.list.items (stock_rows_of broker.now)) }
        ensures sold { IfOk result (λ s. HaveSold s.list.items (sales_of broker.now)) }
    {
        let mut list = shops_of(alloc, broker, books)?;
        stock_all(&places, &mut list, broker.stock())?;
        sell_all(&places, &mut list, broker.sales())?;
        Ok(Shops { list, places })
    }

    /// The shop of a vendor.
    pub(crate) fn find(&self, name: &Name) -> Option<&Shop>
        ensures { option_map (λ s. s.now) result ≡ shop_in self.now.list.items name.now }
    {
        match self.places.get(name.bytes()) {
            Some(place) => Some(&self.list[place]),
            None => None,
        }
    }
}

/// The shops of all vendors at a broker, in the order of their books, with nothing in stock and nothing sold yet.
fn shops_of(alloc: Global, broker: &BookSums, books: &[BookSums]) -> Result<Vec<Shop>, NoMemory>
    ensures shops { IfOk result (λ shops. AreShopsOf broker.now (vendors_among books.now) shops.items) }
    ensures stocked { IfOk result (λ shops. HaveStocked shops.items []) }
    ensures sold { IfOk result (λ shops. HaveSold shops.items []) }
{
    let mut shops = Vec::new(alloc);
    for book in books {
        if !is_desk(book) {
            shops.push(Shop::new(alloc, broker, book)?)?;
        }
    }
    Ok(shops)
}

/// Puts each piece that was put into stock into that of its vendor's shop, where none is there yet.
fn stock_all(places: &NamePlaces, shops: &mut Vec<Shop>, rows: &[Stocked]) -> Result<(), NoMemory>
    requires filed { AreFiled places.now shops.old.items }
    requires none { HaveStocked shops.old.items [] }
    requires unsold { HaveSold shops.old.items [] }
    ensures same { OnOk result (AllZip IsAsBefore shops.old.items shops.new.items) }
    ensures stocked { OnOk result (HaveStocked shops.new.items rows.now) }
    ensures unsold { OnOk result (HaveSold shops.new.items []) }
{
    for row in rows {
        match places.get(row.vendor.bytes()) {
            Some(place) => shops[place].put(row.part)?,
            None => (),
        }
    }
    Ok(())
}

/// Keeps the piece of each sale with the shop of its vendor, where none is kept yet.
fn sell_all(places: &NamePlaces, shops: &mut Vec<Shop>, sales: &[Sold]) -> Result<(), NoMemory>
    requires filed { AreFiled places.now shops.old.items }
    requires none { HaveSold shops.old.items [] }
    ensures same { OnOk result (AllZip IsAsBefore shops.old.items shops.new.items) }
    ensures stocked { (rows : Items Row) → HaveStocked shops.old.items rows
        → OnOk result (HaveStocked shops.new.items rows) }
    ensures sold { OnOk result (HaveSold shops.new.items sales.now) }
{
    for sale in sales {
        match places.get(sale.vendor.bytes()) {
            Some(place) => shops[place].sell(sale)?,
            None => (),
        }
    }
    Ok(())
}
