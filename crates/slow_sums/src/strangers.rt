//! Strangers: pieces that were accepted and not handed out, and stock that was sold and not minted.

ghost use Rattle.std.specs.Prelude.{◌≡◌, ◌<◌, List, map, find, Some, option_map, length, slice_get, IfOk, IfSome};
ghost use Rattle.scrip_form.specs.Scrip.{Scrip};
ghost use Rattle.ledger_model.specs.Histories.{History as Entries};
ghost use Rattle.ledger_model.specs.Houses.{is_broker};
ghost use Rattle.ledger_model.specs.Pieces.{accepted_piece};
ghost use Rattle.ledger_model.specs.Stock.{sale_of};
ghost use Rattle.audit_model.specs.Meets.{is_among as is_piece_among};
ghost use Rattle.audit_model.specs.Strangers.{AreOfMarket, first_stranger, strangers, handed_of, entry_strangers, stranger, sold_stranger, first_of};
ghost use Rattle.audit_model.specs.Parts.{part_of};
ghost use Rattle.slow_sums.specs.Parts.{sale_by};
ghost use Rattle.slow_sums.specs.Strangers.{vendors_of, place_of};

use crate::handed::with_own;
use crate::minted::is_minted;
use crate::parts::{accepted_at, is_among};
use crate::sold::{Sold, part_sold, sale_at};
use crate::vendor::handed_beside;
use audit_model::Part;
use ledger_model::History;
use mc_base::NoMemory;
use scrip_form::Id;
use slow_ledger::{Prefix, slow_is_broker};
use std::alloc::Global;

/// A piece that was accepted and not handed out, or that was sold out of stock and not minted.
#[derive(Clone, Copy, Drop)]
pub struct Stranger {
    /// The number of the book that it stands in, from 0.
    pub book: usize,
    /// Its identity.
    pub id: Id,
}

/// The pieces that were handed out of a house beside a broker: a broker's are its own.
fn handed_in(alloc: Global, broker: &Prefix<'_>, h: &Prefix<'_>) -> Result<Vec<Part>, NoMemory>
    ensures { IfOk result (λ parts. parts.items ≡ map part_of (handed_of broker.now h.now)) }
{
    if slow_is_broker(h) {
        return with_own(Vec::new(alloc), h);
    }
    handed_beside(alloc, broker, h)
}

/// The accepted piece of the entry of a number, where it was not handed out.
fn accepted_stranger(handed: &[Part], h: &Prefix<'_>, n: usize) -> Option<Id>
    requires { n < length h.now }
    ensures { (pieces : List Scrip) → handed.now ≡ map part_of pieces
        → IfSome (slice_get h.now n) (λ e. result ≡ first_of (stranger (is_piece_among pieces) (accepted_piece e))) }
{
    match accepted_at(h, n) {
        Some(part) => if is_among(handed, &part) {
            None
        } else {
            Some(part.id)
        },
        None => None,
    }
}

/// The piece of a sale out of stock, where it was not minted.
fn stranger_sold(books: &[History], h: &Prefix<'_>, sale: &Sold<'_>) -> Option<Id>
    ensures { result ≡ first_of (sold_stranger (vendors_of books.now) h.now (Some (sale_by sale.now))) }
{
    if !sale.stock {
        return None;
    }
    match part_sold(h, sale) {
        Some(part) => if is_minted(books, sale.vendor, &part) {
            None
        } else {
            Some(part.id)
        },
        None => None,
    }
}

fn sold_stranger_at(books: &[History], h: &Prefix<'_>, n: usize) -> Option<Id>
    requires { n < length h.now }
    ensures { IfSome (slice_get h.now n)
        (λ e. result ≡ first_of (sold_stranger (vendors_of books.now) h.now (sale_of e))) }
{
    match sale_at(h, n) {
        Some(sale) => stranger_sold(books, h, &sale),
        None => None,
    }
}

/// The first stranger of the entry of a number: its accepted piece comes before its sold piece.
fn stranger_at(books: &[History], handed: &[Part], h: &Prefix<'_>, n: usize) -> Option<Id>
    requires { n < length h.now }
    ensures { (b : Entries) → handed.now ≡ map part_of (handed_of b h.now)
        → IfSome (slice_get h.now n) (λ e. result ≡ first_of (entry_strangers b (vendors_of books.now) h.now e)) }
{
    match accepted_stranger(handed, h, n) {
        Some(id) => Some(id),
        None => sold_stranger_at(books, h, n),
    }
}

/// The first stranger of a book.
fn stranger_in(
    alloc: Global,
    books: &[History],
    broker: &Prefix<'_>,
    h: &Prefix<'_>,
) -> Result<Option<Id>, NoMemory>
    ensures { IfOk result (λ found. found ≡ first_of (strangers broker.now (vendors_of books.now) h.now)) }
{
    let handed = handed_in(alloc, broker, h)?;
    for n in 0..h.len() {
        match stranger_at(books, &handed, h, n) {
            Some(id) => return Ok(Some(id)),
            None => (),
        }
    }
    Ok(None)
}

/// The first stranger of some books, beside the broker's.
fn stranger_of_all(
    alloc: Global,
    books: &[History],
    broker: &Prefix<'_>,
) -> Result<Option<Stranger>, NoMemory>
    ensures { IfOk result (λ found. option_map place_of found
        ≡ first_stranger broker.now (vendors_of books.now) books.now) }
{
    for book in 0..books.len() {
        match stranger_in(alloc, books, broker, &Prefix::whole(&books[book]))? {
            Some(id) => return Ok(Some(Stranger { book, id })),
            None => (),
        }
    }
    Ok(None)
}

/// The first of some books that is a broker's.
fn broker_among(books: &[History]) -> Option<&History>
    ensures { option_map (λ h. h.now) result ≡ find is_broker books.now }
{
    books
        .iter()
        .find(|book| slow_is_broker(&Prefix::whole(book)))
}

/// The first stranger of the books of one broker and of vendors, in any order, by book and then by entry; an
/// accepted piece comes before what was sold for it. None exactly where there is none.
pub fn slow_first_stranger(alloc: Global, books: &[History]) -> Result<Option<Stranger>, NoMemory>
    ensures { (b : Entries) → (vs : List Entries) → AreOfMarket b vs books.now
        → IfOk result (λ found. option_map place_of found ≡ first_stranger b vs books.now) }
{
    match broker_among(books) {
        Some(broker) => stranger_of_all(alloc, books, &Prefix::whole(broker)),
        None => Ok(None),
    }
}
