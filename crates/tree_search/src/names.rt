//! Which books stand together: those of one or more brokers and of vendors, each with a name of its own.

ghost use Rattle.std.specs.Prelude.{◌≡◌, is_some, IfOk, MatchOption};
ghost use Rattle.std.specs.List.{list_any};
ghost use Rattle.name_places.specs.NamePlaces.{place_of};
ghost use Rattle.audit_search.specs.Checks.{is_desk};
ghost use Rattle.audit_search.specs.Markets.{IsLeast, HasAll};
ghost use Rattle.tree_search.specs.Names.{own_all, desk_sales};

use audit_search::{is_desk, least_beside};
use audit_sums::BookSums;
use mc_base::NoMemory;
use name_places::NamePlaces;
use scrip_form::Name;
use std::alloc::Global;

/// Whether one of some books is a broker's.
pub(crate) fn has_desk(books: &[BookSums]) -> bool
    ensures { result ≡ list_any is_desk books.now }
{
    for book in books {
        if is_desk(book) {
            return true;
        }
    }
    false
}

/// Whether the names of all books differ.
pub(crate) fn names_differ(alloc: Global, books: &[BookSums]) -> Result<bool, NoMemory>
    ensures { IfOk result (λ b. b ≡ own_all books.now) }
{
    let mut names = NamePlaces::new(alloc);
    for book in books {
        let name = book.name().bytes();
        if names.get(name).is_some() {
            return Ok(false);
        }
        names.reserve(name)?;
        names.put(0);
    }
    Ok(true)
}

/// The least name that is lacking of the vendors that the brokers sold of; None exactly where none is.
pub(crate) fn lacking(names: &NamePlaces, books: &[BookSums]) -> Option<Name>
    ensures { MatchOption result (HasAll (λ name. is_some (place_of names.now name)) (desk_sales books.now))
        (IsLeast (λ name. is_some (place_of names.now name)) (desk_sales books.now)) }
{
    let mut least = None;
    for book in books {
        if is_desk(book) {
            least = least_beside(names, least, book.sales());
        }
    }
    least
}
