//! Which sales of a broker can't stand.

ghost use Rattle.std.specs.Prelude.{◌≡◌, ◌++◌, List, true, map, option_to_list, IfOk, OnOk};
ghost use Rattle.ledger_model.specs.Histories.{History};
ghost use Rattle.ledger_model.specs.Houses.{site_name};
ghost use Rattle.ledger_model.specs.Stock.{sales as sales_in};
ghost use Rattle.audit_model.specs.Sales.{sale_by};
ghost use Rattle.audit_model.specs.Strangers.{first_of};
ghost use Rattle.audit_search.specs.Audit.{has_book};
ghost use Rattle.audit_search.specs.Standing.{StandFor};
ghost use Rattle.relayed_books.specs.Tree.{Sold as Sale, sold_as, all_sold, sold_over, is_genuine as genuine_by, sold_stranger};
ghost use Rattle.tree_search.specs.Marks.{MarksShow, LicencesShow};
ghost use Rattle.tree_search.specs.Desks.{ArePlacesOf, KnowSales};
ghost use Rattle.tree_search.specs.Verdicts.{passes, verdict_on, verdicts};

use crate::licences::Licences;
use crate::marks::Marks;
use audit_model::{Part, Sold};
use audit_search::Shops;
use mc_base::NoMemory;
use name_places::NamePlaces;
use scrip_form::{Id, Name};
use std::alloc::Global;

/// The identity of a broker's next sale, where it is not genuine or can't stand with one before it; and keeps the sale.
fn judge(
    marks: &mut Marks,
    names: &NamePlaces,
    licences: &Licences,
    shops: &Shops,
    broker: &Name,
    sale: &Sold,
) -> Result<Option<Id>, NoMemory>
    ensures told { (bs vs : List History) (h : History) (earlier : List Sale) → site_name h ≡ broker.now → StandFor h vs shops.now
        → ArePlacesOf vs names.now → has_book vs sale.now.vendor ≡ true → LicencesShow licences.now names.now (sold_over bs)
        → MarksShow marks.old names.now earlier
        → IfOk result (λ o. o ≡ first_of (sold_stranger (genuine_by bs vs) earlier (sold_as h (sale_by sale.now)))) }
    ensures shows { (vs : List History) (h : History) (earlier : List Sale) → site_name h ≡ broker.now → StandFor h vs shops.now
        → ArePlacesOf vs names.now → has_book vs sale.now.vendor ≡ true → MarksShow marks.old names.now earlier
        → OnOk result (MarksShow marks.new names.now (earlier ++ option_to_list (sold_as h (sale_by sale.now)))) }
{
    let part = match shops.piece(sale) {
        Some(part) => part,
        None => return Ok(None),
    };
    let place = match names.get(sale.vendor.bytes()) {
        Some(place) => place,
        None => return Ok(None),
    };
    let real = is_genuine(licences, shops, place, &part, broker, sale);
    let barred = marks.see(place, part, sale.stock)?;
    Ok(verdict(real, barred, part.id))
}

/// Whether a piece of a vendor of this place that a broker sold may be sold: out of stock only where the vendor minted it, or
/// another broker sold it under a licence.
fn is_genuine(
    licences: &Licences,
    shops: &Shops,
    place: usize,
    part: &Part,
    broker: &Name,
    sale: &Sold,
) -> bool
    ensures { result ≡ passes shops.now licences.now place part.now broker.now sale.now }
{
    !sale.stock || shops.has_minted(&sale.vendor, part) || licences.beside(place, part, broker)
}

/// The identity of a sale that is not genuine, or that is barred by those before it.
fn verdict(real: bool, barred: bool, id: Id) -> Option<Id>
    ensures { result ≡ verdict_on real barred id }
{
    if real && !barred { None } else { Some(id) }
}

/// What is told of each of a broker's sales, in order; and keeps the sales.
pub(crate) fn judge_all(
    alloc: Global,
    marks: &mut Marks,
    names: &NamePlaces,
    licences: &Licences,
    shops: &Shops,
    broker: &Name,
    sales: &[Sold],
) -> Result<Vec<Option<Id>>, NoMemory>
    ensures told { (bs vs : List History) (h : History) (earlier : List Sale) → site_name h ≡ broker.now
        → map sale_by sales.now ≡ sales_in h → StandFor h vs shops.now → ArePlacesOf vs names.now → KnowSales vs h
        → LicencesShow licences.now names.now (sold_over bs) → MarksShow marks.old names.now earlier
        → IfOk result (λ v. v.items ≡ verdicts (genuine_by bs vs) earlier h (sales_in h)) }
    ensures shows { (vs : List History) (h : History) (earlier : List Sale) → site_name h ≡ broker.now
        → map sale_by sales.now ≡ sales_in h → StandFor h vs shops.now → ArePlacesOf vs names.now → KnowSales vs h
        → MarksShow marks.old names.now earlier
        → OnOk result (MarksShow marks.new names.now (earlier ++ all_sold h)) }
{
    let mut told = Vec::new(alloc);
    for sale in sales {
        let verdict = judge(marks, names, licences, shops, broker, sale)?;
        told.push(verdict)?;
    }
    Ok(told)
}
