//! The audit of the books of several brokers on disks.

ghost use Rattle.std.specs.Prelude.{◌<◌, List, ℕ, IfSome, length};
ghost use Rattle.std.specs.List.{AllZip, AllByRecursion};
ghost use Rattle.mc_outside.specs.DiskView.{OnlyRead};
ghost use Rattle.audit_cmd.specs.Books.{AreTold, counts, AuditDecides, IsLawfulBook, FindsTree, IsOfLawful, IsOfAll, told_book, CountsBy};
ghost use Rattle.audit_cmd.specs.Loops.{KeptOf};

use crate::books::{Kept, read_books};
use crate::fault::{AuditFault, of_books};
use mc_outside::Disk;
use relay_core::Tree;
use std::alloc::Global;
use tree_search::audit_tree_books;

/// Audits the books of brokers and of vendors that the disks have: the sums of each beside the others, which balance, and what
/// was sold on, or why there are none. All disks come back, in their order.
///
/// The books are read one after another, and the first that is not read as a lawful one ends the audit, with the faults of
/// [`crate::audit`] in their order. Where all are lawful, `BadBooks` comes exactly where there is no broker's, or a wallet's is
/// among them, or two share a name; then `MissingBook` exactly where a broker sold of a vendor whose book is not there, with
/// the least such name; then `Stranger` exactly where one stands, with the first by book and then by entry. `NoMemory` may come
/// at any point. Nothing is written.
///
/// The first book that is not read decides whatever other disks tell; what is found of all books holds where all tell their bytes.
pub fn audit_tree<D: Disk>(alloc: Global, mut books: Vec<D>) -> (Vec<D>, Result<Tree, AuditFault>)
    ensures read { AllZip (λ a b. OnlyRead (D.disk a) (D.disk b)) books.items result.0.items }
    ensures moved { AllZip D.disk_moved books.items result.0.items }
    ensures decides { AuditDecides D.disk books.items result.1 }
    ensures exact { (contents : List (List ℕ)) → AreTold D.disk books.items contents → FindsTree contents result.1 }
    ensures lawful { (contents : List (List ℕ)) → AreTold D.disk books.items contents
        → AllByRecursion IsLawfulBook contents → IsOfLawful result.1 }
    ensures fault { CountsBy result.1 (counts D.disk books.items) (counts D.disk result.0.items) }
    ensures place { IfSome (told_book result.1) (λ book. book < length books.items) }
{
    match read_books(alloc, &mut books) {
        Ok(kept) => (books, find(alloc, &kept)),
        Err(fault) => (books, Err(fault)),
    }
}

/// What is found of books that were all read, by what was kept of them.
fn find(alloc: Global, kept: &Kept) -> Result<Tree, AuditFault>
    ensures found { (contents : List (List ℕ))
        → KeptOf contents kept.now.wallet kept.now.houses.items → FindsTree contents result }
    ensures calm { (before : List ℕ) → CountsBy result before before }
    ensures all { IsOfAll result }
    ensures place { IfSome (told_book result) (λ book. book < length kept.now.houses.items) }
{
    if kept.wallet {
        return Err(AuditFault::BadBooks);
    }
    match audit_tree_books(alloc, &kept.houses) {
        Ok(tree) => Ok(tree),
        Err(fault) => Err(of_books(fault)),
    }
}
