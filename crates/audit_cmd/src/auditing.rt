//! The audit of books on disks.

ghost use Rattle.std.specs.Prelude.{◌<◌, List, ℕ, IfSome, length};
ghost use Rattle.std.specs.List.{AllZip, AllByRecursion};
ghost use Rattle.mc_outside.specs.DiskView.{OnlyRead};
ghost use Rattle.audit_cmd.specs.Books.{AreTold, counts, AuditDecides, IsLawfulBook, FindsOf, IsOfLawful, IsOfAll, told_book, CountsBy};
ghost use Rattle.audit_cmd.specs.Loops.{KeptOf};

use crate::books::{Kept, read_books};
use crate::fault::{AuditFault, of_books};
use audit_model::Report;
use audit_search::audit_books;
use mc_outside::Disk;
use std::alloc::Global;

/// Audits the books that the disks have: the report with the sums of a broker's book and of the vendors' beside it, which
/// balance, or why there is none. All disks come back, in their order.
///
/// The books are read one after another, and the first that is not read as a lawful one ends the audit: `NotJournal`
/// comes where its disk does not begin with the header of a journal, `BadRecord` where its bytes can't stand from the
/// place told on, `BadChain` where an entry's chain at the place told is another than the one computed, `Unlawful` with the place of the gate of its first entry that is not lawful after those before it, and
/// 8 where it has none, and `Disk` only where its disk failed. Where all are lawful, `BadBooks` comes exactly where
/// there is not one broker's, or a wallet's is among them, or two vendors share a name; then `MissingBook` exactly where
/// the broker sold of a vendor whose book is not there, with the least such name; then `Stranger` exactly where one
/// stands, with the first by book and then by entry. `NoMemory` may come at any point. Nothing is written.
///
/// The first book that is not read decides whatever other disks tell; what is found of all books holds where all tell their bytes.
pub fn audit<D: Disk>(alloc: Global, mut books: Vec<D>) -> (Vec<D>, Result<Report, AuditFault>)
    ensures read { AllZip (λ a b. OnlyRead (D.disk a) (D.disk b)) books.items result.0.items }
    ensures moved { AllZip D.disk_moved books.items result.0.items }
    ensures decides { AuditDecides D.disk books.items result.1 }
    ensures exact { (contents : List (List ℕ)) → AreTold D.disk books.items contents → FindsOf contents result.1 }
    ensures lawful { (contents : List (List ℕ)) → AreTold D.disk books.items contents
        → AllByRecursion IsLawfulBook contents → IsOfLawful result.1 }
    ensures fault { CountsBy result.1 (counts D.disk books.items) (counts D.disk result.0.items) }
    ensures place { IfSome (told_book result.1) (λ book. book < length books.items) }
{
    match read_books(alloc, &mut books) {
        Ok(kept) => (books, find(alloc, &kept)),
        Err(fault) => (books, Err(fault)),
    }
}

/// What is found of books that were all read, by what was kept of them.
fn find(alloc: Global, kept: &Kept) -> Result<Report, AuditFault>
    ensures found { (contents : List (List ℕ))
        → KeptOf contents kept.now.wallet kept.now.houses.items → FindsOf contents result }
    ensures calm { (before : List ℕ) → CountsBy result before before }
    ensures all { IsOfAll result }
    ensures place { IfSome (told_book result) (λ book. book < length kept.now.houses.items) }
{
    if kept.wallet {
        return Err(AuditFault::BadBooks);
    }
    match audit_books(alloc, &kept.houses) {
        Ok(report) => Ok(report),
        Err(fault) => Err(of_books(fault)),
    }
}
