//! Who sold what under a licence.

ghost use Rattle.std.specs.Prelude.{◌≡◌, ◌++◌, ◌∷◌, [], List, Some, true, false, map, option_map, option_to_list, length, IfOk, OnOk};
ghost use Rattle.std.specs.List.{AllByRecursion};
ghost use Rattle.mc_requests.specs.declared.limits.Limits.{Limits as Bounds};
ghost use Rattle.ledger_model.specs.Histories.{History};
ghost use Rattle.ledger_model.specs.Houses.{site_name};
ghost use Rattle.ledger_model.specs.Stock.{sales as sales_in};
ghost use Rattle.name_places.specs.NamePlaces.{NamePlacesView, place_of};
ghost use Rattle.audit_model.specs.Sales.{sale_by};
ghost use Rattle.audit_search.specs.Audit.{IsLearned, AreLearned, has_book};
ghost use Rattle.audit_search.specs.Standing.{StandFor};
ghost use Rattle.relayed_books.specs.Tree.{Sold as Sale, sold_as, all_sold, sold_over};
ghost use Rattle.tree_search.specs.Marks.{AreApart, IsSale, LicencesShow, sold_also, is_other, seller_view, seller_at};
ghost use Rattle.tree_search.specs.Desks.{StandsAt, AreDesks, ArePlacesOf, KnowSales, licensed_piece};

use audit_model::{Part, Sold};
use audit_search::Shops;
use audit_sums::BookSums;
use mc_base::NoMemory;
use name_places::NamePlaces;
use scrip_form::Name;
use std::alloc::Global;
use std::collections::HashMap;

/// Who sold a piece under a licence.
#[derive(Clone, Copy, Drop)]
pub(crate) struct Seller {
    /// The first broker.
    pub(crate) first: Name,
    /// Whether another did, too.
    pub(crate) other: bool,
}

/// The brokers that sold under a licence, by the place of the vendor, the identity and the value.
#[derive(Drop)]
pub(crate) struct Licences {
    pub(crate) sellers: HashMap<((usize, u64), u64), Seller>,
}

impl Licences {
    /// No sales. It takes no memory.
    pub(crate) fn new(alloc: Global) -> Licences
        ensures { (places : NamePlacesView) → LicencesShow result places [] }
    {
        Licences {
            sellers: HashMap::new(alloc),
        }
    }

    /// Keeps a sale under a licence.
    fn put(&mut self, place: usize, part: Part, broker: &Name) -> Result<(), NoMemory>
        ensures { (places : NamePlacesView) (sales : List Sale) (s : Sale) → AreApart places
            → LicencesShow self.old places sales → place_of places s.vendor ≡ Some place → IsSale part false s
            → s.broker ≡ broker.now → OnOk result (LicencesShow self.new places (sales ++ s ∷ [])) }
    {
        let id = part.id.number();
        let seller = also(
            self.sellers.get(&((place, id), part.value)).copied(),
            broker,
        );
        self.sellers.insert(((place, id), part.value), seller)?;
        Ok(())
    }

    /// Whether another broker than this one sold a piece under a licence, of a vendor of this place.
    pub(crate) fn beside(&self, place: usize, part: &Part, broker: &Name) -> bool
        ensures { result ≡ is_other (option_map seller_view (seller_at self.now place part.now.id part.now.value)) broker.now }
    {
        match self.sellers.get(&((place, part.id.number()), part.value)) {
            Some(seller) => seller.other || seller.first.bytes() != broker.bytes(),
            None => false,
        }
    }
}

/// Who sold a piece, with one more broker.
fn also(before: Option<Seller>, broker: &Name) -> Seller
    ensures { seller_view result ≡ sold_also (option_map seller_view before) broker.now }
{
    match before {
        Some(seller) => Seller {
            first: seller.first,
            other: seller.other || broker.bytes() != seller.first.bytes(),
        },
        None => Seller {
            first: *broker,
            other: false,
        },
    }
}

impl Licences {
    /// Keeps a sale of a broker's, where it was made under a licence.
    fn note(
        &mut self,
        names: &NamePlaces,
        shops: &Shops,
        broker: &Name,
        sale: &Sold,
    ) -> Result<(), NoMemory>
        ensures { (vs : List History) (h : History) (sales : List Sale) → site_name h ≡ broker.now → StandFor h vs shops.now
            → ArePlacesOf vs names.now → has_book vs sale.now.vendor ≡ true → LicencesShow self.old names.now sales
            → OnOk result (LicencesShow self.new names.now (sales ++ option_to_list (sold_as h (sale_by sale.now)))) }
    {
        let part = match licensed_piece(shops, sale) {
            Some(part) => part,
            None => return Ok(()),
        };
        let place = match names.get(sale.vendor.bytes()) {
            Some(place) => place,
            None => return Ok(()),
        };
        self.put(place, part, broker)?;
        Ok(())
    }

    /// Keeps those of a broker's sales that were made under a licence.
    fn note_all(
        &mut self,
        names: &NamePlaces,
        shops: &Shops,
        broker: &Name,
        sales: &[Sold],
    ) -> Result<(), NoMemory>
        ensures { (vs : List History) (h : History) (before : List Sale) → site_name h ≡ broker.now
            → map sale_by sales.now ≡ sales_in h → StandFor h vs shops.now → ArePlacesOf vs names.now → KnowSales vs h
            → LicencesShow self.old names.now before
            → OnOk result (LicencesShow self.new names.now (before ++ all_sold h)) }
    {
        for sale in sales {
            self.note(names, shops, broker, sale)?;
        }
        Ok(())
    }

    /// Keeps those of the sales of a book, of which these are the shops where it is a broker's.
    fn note_desk(
        &mut self,
        names: &NamePlaces,
        desk: &Option<Shops>,
        book: &BookSums,
    ) -> Result<(), NoMemory>
        ensures { (limits : Bounds) (vs : List History) (h : History) (before : List Sale) → IsLearned limits book.now h
            → StandsAt vs h desk.now → ArePlacesOf vs names.now → KnowSales vs h → LicencesShow self.old names.now before
            → OnOk result (LicencesShow self.new names.now (before ++ all_sold h)) }
    {
        match desk {
            Some(shops) => self.note_all(names, shops, book.name(), book.sales()),
            None => Ok(()),
        }
    }
}

/// The piece of a sale under a licence.
fn licensed_piece(shops: &Shops, sale: &Sold) -> Option<Part>
    ensures { result ≡ licensed_piece shops.now sale.now }
{
    if sale.stock { None } else { shops.piece(sale) }
}

/// The sales under licences of all brokers among some books, of which these are the shops.
pub(crate) fn licences_of(
    alloc: Global,
    names: &NamePlaces,
    desks: &[Option<Shops>],
    books: &[BookSums],
) -> Result<Licences, NoMemory>
    requires { length desks.now ≡ length books.now }
    ensures { (limits : Bounds) (hs vs : List History) → AreLearned limits books.now hs → AreDesks vs hs desks.now
        → ArePlacesOf vs names.now → AllByRecursion (KnowSales vs) hs
        → IfOk result (λ l. LicencesShow l names.now (sold_over hs)) }
{
    let mut licences = Licences::new(alloc);
    for n in 0..books.len() {
        licences.note_desk(names, &desks[n], &books[n])?;
    }
    Ok(licences)
}
