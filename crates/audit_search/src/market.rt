//! Which books stand together: those of one broker and of vendors with names of their own.

ghost use Rattle.std.specs.Prelude.{◌≡◌, ◌++◌, map, List, ℕ, filter, option_map, is_some, IfOk, MatchOption, if◌then◌else◌};
ghost use Rattle.name_places.specs.NamePlaces.{place_of};
ghost use Rattle.audit_model.specs.declared.sold.Sold.{Sold as Row};
ghost use Rattle.audit_sums.specs.Learned.{name_of};
ghost use Rattle.audit_search.specs.Checks.{is_desk};
ghost use Rattle.audit_search.specs.Filed.{place_in};
ghost use Rattle.audit_search.specs.Findings.{vendors_among};
ghost use Rattle.audit_search.specs.Markets.{only, has_vendor, own_names, IsLeast, HasAll, comes_before};

use crate::check::is_desk;
use audit_model::Sold;
use audit_sums::BookSums;
use mc_base::NoMemory;
use name_places::NamePlaces;
use scrip_form::Name;
use std::alloc::Global;
use std::cmp::Ordering;

/// The one broker's book among some; None exactly where there is none or more than one.
pub(crate) fn only_broker(books: &[BookSums]) -> Option<&BookSums>
    ensures { option_map (λ s. s.now) result ≡ only (filter is_desk books.now) }
{
    let mut found = None;
    for book in books {
        if is_desk(book) {
            if found.is_some() {
                return None;
            }
            found = Some(book);
        }
    }
    found
}

/// The names of the vendors, each with the place of its book among theirs; None exactly where two share one.
pub fn vendor_names(alloc: Global, books: &[BookSums]) -> Result<Option<NamePlaces>, NoMemory>
    ensures own { IfOk result (λ names. is_some names ≡ own_names books.now) }
    ensures names { IfOk result (λ o. MatchOption o (Unit {0})
        (λ names. (name : List ℕ) → is_some (place_of names name) ≡ has_vendor books.now name)) }
    ensures places { IfOk result (λ o. MatchOption o (Unit {0}) (λ names. (name : List ℕ)
        → place_of names name ≡ place_in (map name_of (vendors_among books.now)) name)) }
{
    let mut names = NamePlaces::new(alloc);
    let mut count = 0;
    for book in books {
        if !is_desk(book) {
            let name = book.name().bytes();
            if names.get(name).is_some() {
                return Ok(None);
            }
            names.reserve(name)?;
            names.put(count);
            count += 1;
        }
    }
    Ok(Some(names))
}

/// The least name that is lacking of the vendors that a broker sold of; None exactly where none is.
pub(crate) fn least_lacking(names: &NamePlaces, sales: &[Sold]) -> Option<Name>
    ensures { MatchOption result (HasAll (λ name. is_some (place_of names.now name)) sales.now)
        (IsLeast (λ name. is_some (place_of names.now name)) sales.now) }
{
    least_beside(names, None, sales)
}

/// The least name that is lacking of the vendors that some sales are of, or of those of earlier sales, of which this is the least.
pub fn least_beside(names: &NamePlaces, earlier: Option<Name>, sales: &[Sold]) -> Option<Name>
    ensures { (rows : List Row) → MatchOption earlier (HasAll (λ name. is_some (place_of names.now name)) rows)
        (IsLeast (λ name. is_some (place_of names.now name)) rows)
        → MatchOption result (HasAll (λ name. is_some (place_of names.now name)) (rows ++ sales.now))
        (IsLeast (λ name. is_some (place_of names.now name)) (rows ++ sales.now)) }
{
    let mut least = earlier;
    for sale in sales {
        if names.get(sale.vendor.bytes()).is_none() {
            least = Some(lesser(least, sale.vendor));
        }
    }
    least
}

/// The lesser of two names by their bytes, where there is a first one.
fn lesser(least: Option<Name>, name: Name) -> Name
    ensures { MatchOption least (result ≡ name)
        (λ old. result ≡ (if comes_before name old then name else old)) }
{
    match least {
        Some(old) => match name.bytes().cmp(old.bytes()) {
            Ordering::Less => name,
            _ => old,
        },
        None => name,
    }
}
