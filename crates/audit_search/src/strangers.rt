//! The first stranger of a book.

ghost use Rattle.std.specs.Prelude.{◌≡◌, option_map};
ghost use Rattle.audit_sums.specs.Learned.{accepted_of, sales_of};
ghost use Rattle.audit_search.specs.Known.{knows};
ghost use Rattle.audit_search.specs.Strange.{not_in, not_minted, next_sale, later_sales, strange_of, first_in};

use crate::known::Known;
use crate::shops::Shops;
use audit_model::{Part, Sold};
use audit_sums::{Acceptance, BookSums};
use scrip_form::Id;

/// The identity of a piece, where there is one, that is not among those that are known.
pub fn unknown(known: &Known, piece: Option<Part>) -> Option<Id>
    ensures { result ≡ not_in (knows known.now) piece }
{
    match piece {
        Some(part) => if known.has(&part) {
            None
        } else {
            Some(part.id)
        },
        None => None,
    }
}

/// The identity of a sale out of stock whose piece its vendor did not mint.
fn sold_unminted(shops: &Shops, sale: &Sold) -> Option<Id>
    ensures { result ≡ not_minted shops.now.list.items sale.now }
{
    if !sale.stock {
        return None;
    }
    match shops.find(&sale.vendor) {
        Some(shop) => unknown(&shop.minted, shop.piece(sale)),
        None => None,
    }
}

/// The first stranger of an accepted piece with its sale: the piece comes before what was sold for it.
fn stranger_of(handed: &Known, shops: &Shops, row: &Acceptance, sale: Option<&Sold>) -> Option<Id>
    ensures { result ≡ strange_of (not_in (knows handed.now)) (not_minted shops.now.list.items) row.now (option_map (λ s. s.now) sale.entry) }
{
    match unknown(handed, row.piece) {
        Some(id) => return Some(id),
        None => (),
    }
    match sale {
        Some(sale) => sold_unminted(shops, sale),
        None => None,
    }
}

/// The sale that belongs to the next accepted piece, where something was sold for it, and the other sales.
fn split_sale<'a>(sales: &'a [Sold], sells: bool) -> (Option<&'a Sold>, &'a [Sold])
    ensures next { option_map (λ s. s.now) result.0 ≡ next_sale sells sales.now }
    ensures later { result.1.now ≡ later_sales sells sales.now }
{
    if sells {
        match sales.split_first() {
            Some((sale, rest)) => return (Some(sale), rest),
            None => (),
        }
    }
    (None, sales)
}

/// The first stranger of a book of which these pieces were handed out: of its accepted pieces, each before what was
/// sold for it.
pub(crate) fn first_stranger(handed: &Known, shops: &Shops, book: &BookSums) -> Option<Id>
    ensures { result ≡ first_in (not_in (knows handed.now)) (not_minted shops.now.list.items) (accepted_of book.now) (sales_of book.now) }
{
    let mut sales = book.sales();
    for row in book.accepted() {
        let (sale, rest) = split_sale(sales, row.sale);
        match stranger_of(handed, shops, row, sale) {
            Some(id) => return Some(id),
            None => (),
        }
        sales = rest;
    }
    None
}
