//! The check of one book.

ghost use Rattle.std.specs.Prelude.{◌≡◌, ◌++◌, List, ℕ, Option as Maybe, false, true, filter, option_and_then, IfOk, OnOk};
ghost use Rattle.mc_requests.specs.declared.limits.Limits.{Limits as Bounds};
ghost use Rattle.ledger_model.specs.Histories.{History};
ghost use Rattle.ledger_model.specs.Houses.{site_name, is_broker};
ghost use Rattle.ledger_model.specs.Stock.{sales};
ghost use Rattle.audit_sums.specs.Learned.{accepted_of};
ghost use Rattle.audit_search.specs.Known.{knows};
ghost use Rattle.audit_search.specs.Strange.{not_in, next_sale, later_sales, first_in};
ghost use Rattle.audit_search.specs.Audit.{IsLearned, has_book};
ghost use Rattle.relayed_books.specs.Tree.{Sold as Sale, all_sold, sold_over, is_genuine};
ghost use Rattle.tree_search.specs.Marks.{MarksShow, LicencesShow};
ghost use Rattle.tree_search.specs.Desks.{StandsAt, AreDesks, ArePlacesOf, KnowSales};
ghost use Rattle.tree_search.specs.Verdicts.{verdicts};
ghost use Rattle.tree_search.specs.Checks.{FindsIn, IsChecked};

use crate::handed::handed_of;
use crate::judge::judge_all;
use crate::licences::Licences;
use crate::marks::Marks;
use audit_model::Part;
use audit_search::{CheckFault, Known, Left, Shops, left_of, unknown};
use audit_sums::BookSums;
use mc_base::NoMemory;
use name_places::NamePlaces;
use scrip_form::Id;
use std::alloc::Global;

/// What is left of the pieces that were handed out of a book, and what of them was sold again.
#[derive(Clone, Copy, Drop)]
pub(crate) struct Checked {
    pub(crate) left: Left,
    pub(crate) again: u128,
}

/// Checks the next book, of which these are the shops where it is a broker's: its first stranger, or what is left of the pieces
/// that were handed out of it. It keeps the sales of the book with those before.
pub(crate) fn check_book(
    alloc: Global,
    marks: &mut Marks,
    names: &NamePlaces,
    licences: &Licences,
    desks: &[Option<Shops>],
    desk: &Option<Shops>,
    book: &BookSums,
) -> Result<Checked, CheckFault>
    ensures checked { (limits : Bounds) (hs vs : List History) (h : History) (earlier : List Sale) → IsLearned limits book.now h
        → AreDesks vs hs desks.now → StandsAt vs h desk.now → ArePlacesOf vs names.now → KnowSales vs h
        → (is_broker h ≡ false → has_book vs (site_name h) ≡ true)
        → LicencesShow licences.now names.now (sold_over (filter is_broker hs)) → MarksShow marks.old names.now earlier
        → IsChecked (filter is_broker hs) vs earlier h result }
    ensures shows { (limits : Bounds) (vs : List History) (h : History) (earlier : List Sale) → IsLearned limits book.now h
        → StandsAt vs h desk.now → ArePlacesOf vs names.now → KnowSales vs h → MarksShow marks.old names.now earlier
        → OnOk result (MarksShow marks.new names.now (earlier ++ all_sold h)) }
{
    let told = match told_of(alloc, marks, names, licences, desk, book) {
        Ok(told) => told,
        Err(NoMemory) => return Err(CheckFault::NoMemory),
    };
    let handed = match handed_of(alloc, desks, book) {
        Ok(handed) => handed,
        Err(NoMemory) => return Err(CheckFault::NoMemory),
    };
    let left = match find_in(alloc, &handed.parts, &told, book) {
        Ok(left) => left,
        Err(fault) => return Err(fault),
    };
    Ok(Checked {
        left,
        again: handed.again,
    })
}

/// What is told of each sale of a book, which is none of a vendor's.
fn told_of(
    alloc: Global,
    marks: &mut Marks,
    names: &NamePlaces,
    licences: &Licences,
    desk: &Option<Shops>,
    book: &BookSums,
) -> Result<Vec<Option<Id>>, NoMemory>
    ensures told { (limits : Bounds) (bs vs : List History) (h : History) (earlier : List Sale) → IsLearned limits book.now h
        → StandsAt vs h desk.now → ArePlacesOf vs names.now → KnowSales vs h → LicencesShow licences.now names.now (sold_over bs)
        → MarksShow marks.old names.now earlier
        → IfOk result (λ v. v.items ≡ verdicts (is_genuine bs vs) earlier h (sales h)) }
    ensures shows { (limits : Bounds) (vs : List History) (h : History) (earlier : List Sale) → IsLearned limits book.now h
        → StandsAt vs h desk.now → ArePlacesOf vs names.now → KnowSales vs h → MarksShow marks.old names.now earlier
        → OnOk result (MarksShow marks.new names.now (earlier ++ all_sold h)) }
{
    match desk {
        Some(shops) => judge_all(
            alloc,
            marks,
            names,
            licences,
            shops,
            book.name(),
            book.sales(),
        ),
        None => Ok(Vec::new(alloc)),
    }
}

/// The first stranger of a book of which these pieces were handed out and of whose sales this is told, or what is left of the
/// pieces.
fn find_in(
    alloc: Global,
    handed: &[Part],
    told: &[Option<Id>],
    book: &BookSums,
) -> Result<Left, CheckFault>
    ensures { FindsIn handed.now told.now book.now result }
{
    let known = match Known::of_parts(alloc, handed) {
        Ok(known) => known,
        Err(NoMemory) => return Err(CheckFault::NoMemory),
    };
    match first_stranger(&known, told, book) {
        Some(id) => return Err(CheckFault::Stranger(id)),
        None => (),
    }
    match left_of(alloc, handed, book) {
        Ok(left) => Ok(left),
        Err(NoMemory) => Err(CheckFault::NoMemory),
    }
}

/// The first stranger of a book: of its accepted pieces, each before what is told of its sale.
fn first_stranger(known: &Known, told: &[Option<Id>], book: &BookSums) -> Option<Id>
    ensures { result ≡ first_in (not_in (knows known.now)) (λ (o : Maybe ℕ). o) (accepted_of book.now) told.now }
{
    let mut left = told;
    for row in book.accepted() {
        match unknown(known, row.piece) {
            Some(id) => return Some(id),
            None => (),
        }
        let (verdict, rest) = split(left, row.sale);
        match verdict {
            Some(id) => return Some(id),
            None => (),
        }
        left = rest;
    }
    None
}

/// What is told of the sale that belongs to the next accepted piece, where something was sold for it, and of the other sales.
fn split(told: &[Option<Id>], sells: bool) -> (Option<Id>, &[Option<Id>])
    ensures next { result.0 ≡ option_and_then (λ (o : Maybe ℕ). o) (next_sale sells told.now) }
    ensures later { result.1.now ≡ later_sales sells told.now }
{
    if sells {
        match told.split_first() {
            Some((verdict, rest)) => return (*verdict, rest),
            None => (),
        }
    }
    (None, told)
}
