//! The books of brokers with what they have of vendors to sell.

ghost use Rattle.std.specs.Prelude.{◌≡◌, ◌++◌, true, IfOk, OnOk};
ghost use Rattle.audit_search.specs.Markets.{own_names};
ghost use Rattle.tree_search.specs.Desks.{IsDeskOf, AreDesksOf, sold_in, sold_at_desks};

use audit_model::Part;
use audit_search::{Shops, is_desk};
use audit_sums::BookSums;
use mc_base::NoMemory;
use scrip_form::Name;
use std::alloc::Global;

/// The shops at each broker among some books whose vendors have names of their own, in the order of the books, with none for a
/// vendor's book.
pub(crate) fn desks_of(alloc: Global, books: &[BookSums]) -> Result<Vec<Option<Shops>>, NoMemory>
    requires { own_names books.now ≡ true }
    ensures { IfOk result (λ desks. AreDesksOf books.now books.now desks.items) }
{
    let mut desks = Vec::new(alloc);
    for book in books {
        let desk = desk_of(alloc, book, books)?;
        desks.push(desk)?;
    }
    Ok(desks)
}

/// The shops at the broker of a book among these, where it is a broker's.
fn desk_of(alloc: Global, book: &BookSums, books: &[BookSums]) -> Result<Option<Shops>, NoMemory>
    requires { own_names books.now ≡ true }
    ensures { IfOk result (IsDeskOf books.now book.now) }
{
    if !is_desk(book) {
        return Ok(None);
    }
    match Shops::at_broker(alloc, book, books)? {
        Some(shops) => Ok(Some(shops)),
        None => unreachable!(),
    }
}

/// Appends the pieces of a vendor that were sold at brokers, by broker and then in order.
pub(crate) fn append_sold(
    parts: &mut Vec<Part>,
    desks: &[Option<Shops>],
    name: &Name,
) -> Result<(), NoMemory>
    ensures { OnOk result (parts.new.items ≡ parts.old.items ++ sold_at_desks desks.now name.now) }
{
    for desk in desks {
        parts.extend_from_slice(sold_at(desk, name))?;
    }
    Ok(())
}

/// The pieces of a vendor that were sold at a broker, in order; none at a vendor.
fn sold_at<'a>(desk: &'a Option<Shops>, name: &Name) -> &'a [Part]
    ensures { result.now ≡ sold_in name.now desk.now }
{
    match desk {
        Some(shops) => shops.sold(name),
        None => &[],
    }
}
