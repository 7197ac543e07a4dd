//! The check of one book.

ghost use Rattle.std.specs.Prelude.{◌≡◌, IfOk};
ghost use Rattle.audit_search.specs.Checks.{is_desk, sold_from, handed_from, left_at, ChecksBook, fault_at};

use crate::fault::BooksFault;
use crate::known::Known;
use crate::shops::Shops;
use crate::spent::{Left, Spent};
use crate::strangers::first_stranger;
use audit_model::Part;
use audit_sums::BookSums;
use ledger_model::BROKER_KIND;
use mc_base::NoMemory;
use scrip_form::Id;
use std::alloc::Global;

/// Why a book does not pass.
#[derive(Clone, Copy, Drop)]
pub enum CheckFault {
    /// Its first stranger is the piece of this identity.
    Stranger(Id),
    /// Memory was refused.
    NoMemory,
}

impl CheckFault {
    /// The fault of an audit, where it is of the book at a place.
    pub fn of_book(self, place: usize, book: &BookSums) -> BooksFault
        ensures { result ≡ fault_at place book.now self }
    {
        match self {
            CheckFault::Stranger(id) => BooksFault::Stranger {
                book: place,
                name: *book.name(),
                id,
            },
            CheckFault::NoMemory => BooksFault::NoMemory,
        }
    }
}

/// Whether a book is a broker's.
pub fn is_desk(book: &BookSums) -> bool
    ensures { result ≡ is_desk book.now }
{
    book.kind() == BROKER_KIND
}

/// The pieces of a vendor's book that its broker sold; none of a broker's book.
fn sold_from<'a>(shops: &'a Shops, book: &BookSums) -> &'a [Part]
    ensures { result.now ≡ sold_from shops.now.list.items book.now }
{
    if is_desk(book) {
        return &[];
    }
    shops.sold(book.name())
}

/// The pieces that were handed out of a book.
fn handed_from(alloc: Global, shops: &Shops, book: &BookSums) -> Result<Vec<Part>, NoMemory>
    ensures { IfOk result (λ parts. parts.items ≡ handed_from shops.now.list.items book.now) }
{
    let mut parts = Vec::from_slice(alloc, sold_from(shops, book))?;
    parts.extend_from_slice(book.own_out())?;
    Ok(parts)
}

/// Checks a book, beside the shops of its broker: its first stranger, or what is left of the pieces that
/// were handed out of it. It takes memory for the pieces of this book alone.
pub(crate) fn check_book(alloc: Global, shops: &Shops, book: &BookSums) -> Result<Left, CheckFault>
    ensures { ChecksBook shops.now.list.items book.now result }
{
    let handed = match handed_from(alloc, shops, book) {
        Ok(handed) => handed,
        Err(NoMemory) => return Err(CheckFault::NoMemory),
    };
    let known = match Known::of_parts(alloc, &handed) {
        Ok(known) => known,
        Err(NoMemory) => return Err(CheckFault::NoMemory),
    };
    match first_stranger(&known, shops, book) {
        Some(id) => return Err(CheckFault::Stranger(id)),
        None => (),
    }
    match left_of(alloc, &handed, book) {
        Ok(left) => Ok(left),
        Err(NoMemory) => Err(CheckFault::NoMemory),
    }
}

/// What is left of the pieces that were handed out of a book. It takes memory for the pieces that the book accepted.
pub fn left_of(alloc: Global, handed: &[Part], book: &BookSums) -> Result<Left, NoMemory>
    ensures { IfOk result (λ left. left ≡ left_at handed.now book.now) }
{
    let spent = Spent::of(alloc, book.accepted())?;
    spent.left(handed, book.time())
}
