//! The audit of books of which all was learned.

ghost use Rattle.std.specs.Prelude.{◌≡◌, ◌≤◌, ◌^◌, true, List as Items, IfOk};
ghost use Rattle.std.specs.List.{AllByRecursion};
ghost use Rattle.mc_requests.specs.declared.limits.Limits.{Limits as Bounds};
ghost use Rattle.ledger_model.specs.Histories.{History};
ghost use Rattle.audit_search.specs.Audit.{AreLearned, NamesBook};
ghost use Rattle.audit_search.specs.Markets.{own_names};
ghost use Rattle.tree_search.specs.Desks.{ArePlacesOf, KnowSales};
ghost use Rattle.tree_search.specs.Totals.{vendors_among, IsFound, NamesAt};
ghost use Rattle.tree_search.specs.Audit.{TreeAudited, IsTreeOf};

use crate::desks::desks_of;
use crate::licences::licences_of;
use crate::names::{has_desk, lacking, names_differ};
use crate::rows::brokers_by_name;
use crate::totals::{Totals, totals_of};
use audit_search::{BooksFault, by_name, vendor_names};
use audit_sums::BookSums;
use mc_base::{List, NoMemory};
use name_places::NamePlaces;
use relay_core::Tree;
use std::alloc::Global;

/// Audits books of brokers and of vendors of which all was learned, in the order in which they were read: their sums, brokers and
/// vendors in the order of their names, and what was sold on; or why there are none. `BadBooks` comes exactly where there is no
/// broker's book or two books share a name, and then `MissingBook` exactly where a broker sold of a vendor whose book is not
/// there, with the least such name, and then `Stranger` exactly where one stands, with the first. Each book is gone over a few
/// times, and it takes memory for the sales and the stock of all brokers, and for the pieces of one book at a time.
pub fn audit_tree_books(alloc: Global, books: &[BookSums]) -> Result<Tree, BooksFault>
    ensures audited { (limits : Bounds) (hs : Items History) → limits.series ≤ 2 ^ 32
        → AreLearned limits books.now hs → TreeAudited limits hs result }
    ensures named { NamesBook books.now result }
{
    let own = match names_differ(alloc, books) {
        Ok(own) => own,
        Err(NoMemory) => return Err(BooksFault::NoMemory),
    };
    if !own {
        return Err(BooksFault::BadBooks);
    }
    if !has_desk(books) {
        return Err(BooksFault::BadBooks);
    }
    let names = match vendor_names(alloc, books) {
        Ok(Some(names)) => names,
        Ok(None) => return Err(BooksFault::BadBooks),
        Err(NoMemory) => return Err(BooksFault::NoMemory),
    };
    match lacking(&names, books) {
        Some(name) => return Err(BooksFault::MissingBook { name }),
        None => (),
    }
    let totals = match find(alloc, &names, books) {
        Ok(totals) => totals,
        Err(fault) => return Err(fault),
    };
    match tree_of(totals) {
        Ok(tree) => Ok(tree),
        Err(NoMemory) => Err(BooksFault::NoMemory),
    }
}

/// The sums of the books of a whole tree, or its first stranger.
fn find(alloc: Global, names: &NamePlaces, books: &[BookSums]) -> Result<Totals, BooksFault>
    requires { own_names books.now ≡ true }
    ensures found { (limits : Bounds) (hs : Items History) → AreLearned limits books.now hs
        → ArePlacesOf (vendors_among hs) names.now → AllByRecursion (KnowSales (vendors_among hs)) hs → IsFound hs result }
    ensures named { NamesAt books.now result }
{
    let desks = match desks_of(alloc, books) {
        Ok(desks) => desks,
        Err(NoMemory) => return Err(BooksFault::NoMemory),
    };
    let licences = match licences_of(alloc, names, &desks, books) {
        Ok(licences) => licences,
        Err(NoMemory) => return Err(BooksFault::NoMemory),
    };
    totals_of(alloc, names, &licences, &desks, books)
}

/// The tree of these sums, with brokers and vendors in the order of their names.
fn tree_of(totals: Totals) -> Result<Tree, NoMemory>
    ensures { IfOk result (IsTreeOf totals) }
{
    let Totals {
        brokers,
        vendors,
        relayed,
    } = totals;
    Ok(Tree {
        brokers: List::of(brokers_by_name(brokers)?),
        vendors: List::of(by_name(vendors)?),
        relayed,
    })
}
