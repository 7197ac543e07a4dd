//! The sums of all books.

ghost use Rattle.std.specs.Prelude.{◌≡◌, ◌++◌, ◌∷◌, [], if◌then◌else◌, IfOk, OnOk};
ghost use Rattle.audit_search.specs.Checks.{is_desk, row_with};
ghost use Rattle.audit_search.specs.Findings.{FindsTotals, accounts_of};

use crate::check::{check_book, is_desk};
use crate::fault::BooksFault;
use crate::shops::Shops;
use crate::spent::Left;
use audit_model::VendorSums;
use audit_sums::{BookSums, Till};
use mc_base::NoMemory;
use std::alloc::Global;

/// What is left of a broker's pieces, and the sums of the vendors in the order of their books.
#[derive(Drop)]
pub(crate) struct Totals {
    pub(crate) desk: Left,
    pub(crate) vendors: Vec<VendorSums>,
}

/// The sums of all books beside the shops of their broker, or the first stranger by book and then by entry.
pub(crate) fn totals_of(
    alloc: Global,
    shops: &Shops,
    books: &[BookSums],
) -> Result<Totals, BooksFault>
    ensures { FindsTotals shops.now.list.items books.now result }
{
    let mut totals = Totals {
        desk: Left {
            outstanding: 0,
            lapsed: 0,
        },
        vendors: Vec::new(alloc),
    };
    for n in 0..books.len() {
        let book = &books[n];
        match check_book(alloc, shops, book) {
            Ok(left) => match add(&mut totals, book, left) {
                Ok(()) => (),
                Err(NoMemory) => return Err(BooksFault::NoMemory),
            },
            Err(fault) => return Err(fault.of_book(n, book)),
        }
    }
    Ok(totals)
}

/// Adds a book of whose pieces this is left.
fn add(totals: &mut Totals, book: &BookSums, left: Left) -> Result<(), NoMemory>
    ensures desk { OnOk result (totals.new.desk
        ≡ (if is_desk book.now then left else totals.old.desk)) }
    ensures vendors { OnOk result (totals.new.vendors.items
        ≡ (if is_desk book.now then totals.old.vendors.items
        else totals.old.vendors.items ++ row_with book.now left ∷ [])) }
{
    if is_desk(book) {
        totals.desk = left;
        return Ok(());
    }
    totals.vendors.push(VendorSums {
        name: *book.name(),
        takings: book.till().takings,
        outstanding: left.outstanding,
        lapsed: left.lapsed,
    })?;
    Ok(())
}

/// What stands in the accounts of a broker of this money: what came into them, less what went out.
pub fn accounts_of(till: &Till) -> Result<u128, NoMemory>
    ensures { IfOk result (λ all. all ≡ accounts_of till.now) }
{
    let Some(came) = till.paid_in.checked_add(till.credited) else {
        return Err(NoMemory);
    };
    let Some(went) = till.paid_out.checked_add(till.drawn) else {
        return Err(NoMemory);
    };
    Ok(came.saturating_sub(went))
}
