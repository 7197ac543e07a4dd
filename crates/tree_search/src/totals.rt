//! The sums of all books.

ghost use Rattle.std.specs.Prelude.{◌≡◌, ◌++◌, ◌∷◌, [], ◌+◌, List, length, if◌then◌else◌, OnOk};
ghost use Rattle.mc_requests.specs.declared.limits.Limits.{Limits as Bounds};
ghost use Rattle.ledger_model.specs.Histories.{History};
ghost use Rattle.audit_search.specs.Checks.{is_desk, row_with};
ghost use Rattle.tree_search.specs.Rows.{broker_row};
ghost use Rattle.tree_search.specs.Totals.{Premises, IsFound, NamesAt};

use crate::check::{Checked, check_book};
use crate::licences::Licences;
use crate::marks::Marks;
use crate::rows::broker_row;
use audit_model::VendorSums;
use audit_search::{BooksFault, Shops, is_desk};
use audit_sums::BookSums;
use mc_base::NoMemory;
use name_places::NamePlaces;
use relay_core::BrokerSums;
use std::alloc::Global;

/// The sums of brokers and of vendors in the order of their books, and what was sold on.
#[derive(Drop)]
pub(crate) struct Totals {
    pub(crate) brokers: Vec<BrokerSums>,
    pub(crate) vendors: Vec<VendorSums>,
    pub(crate) relayed: u128,
}

/// The sums of all books, of which these are the shops, or the first stranger by book and then by entry.
pub(crate) fn totals_of(
    alloc: Global,
    names: &NamePlaces,
    licences: &Licences,
    desks: &[Option<Shops>],
    books: &[BookSums],
) -> Result<Totals, BooksFault>
    requires { length desks.now ≡ length books.now }
    ensures found { (limits : Bounds) (hs : List History) → Premises limits books.now hs names.now licences.now desks.now
        → IsFound hs result }
    ensures named { NamesAt books.now result }
{
    let mut marks = Marks::new(alloc);
    let mut totals = Totals {
        brokers: Vec::new(alloc),
        vendors: Vec::new(alloc),
        relayed: 0,
    };
    for n in 0..books.len() {
        let book = &books[n];
        match check_book(alloc, &mut marks, names, licences, desks, &desks[n], book) {
            Ok(checked) => match totals.add(book, checked) {
                Ok(()) => (),
                Err(NoMemory) => return Err(BooksFault::NoMemory),
            },
            Err(fault) => return Err(fault.of_book(n, book)),
        }
    }
    Ok(totals)
}

impl Totals {
    /// Adds a book of which this was found. A sum of 2^128 or more is told as want of memory.
    fn add(&mut self, book: &BookSums, checked: Checked) -> Result<(), NoMemory>
        ensures brokers { OnOk result (self.new.brokers.items ≡ (if is_desk book.now
            then self.old.brokers.items ++ broker_row book.now checked.left ∷ [] else self.old.brokers.items)) }
        ensures vendors { OnOk result (self.new.vendors.items ≡ (if is_desk book.now then self.old.vendors.items
            else self.old.vendors.items ++ row_with book.now checked.left ∷ [])) }
        ensures relayed { OnOk result (self.new.relayed ≡ self.old.relayed + checked.again) }
    {
        let Some(relayed) = self.relayed.checked_add(checked.again) else {
            return Err(NoMemory);
        };
        self.relayed = relayed;
        if is_desk(book) {
            self.brokers.push(broker_row(book, checked.left)?)?;
        } else {
            self.vendors.push(VendorSums {
                name: *book.name(),
                takings: book.till().takings,
                outstanding: checked.left.outstanding,
                lapsed: checked.left.lapsed,
            })?;
        }
        Ok(())
    }
}
