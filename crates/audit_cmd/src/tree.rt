//! Reporting the books of several brokers.

ghost use Rattle.std.specs.Prelude.{◌≡◌};
ghost use Rattle.std.specs.List.{AllZip, AllByRecursion};
ghost use Rattle.mc_outside.specs.DiskView.{OnlyRead};
ghost use Rattle.audit_cmd.specs.Books.{IsLawfulBook};
ghost use Rattle.command_status.specs.Statuses.{number_of};
ghost use Rattle.relay_core.specs.Text.{tree_text};
ghost use Rattle.audit_cmd.specs.Reports.{IsReportStatus, TellsTree, IfTold, ReportsTree, ReportCauses, AreCalm, EndsReport};

use crate::report::of_fault;
use crate::{AuditFault, Tree, audit_tree};
use command_status::Status;
use mc_base::{List, NoMemory};
use mc_outside::Disk;
use relay_core::tree_text;
use std::alloc::Global;

/// Audits the books of brokers and of vendors that the disks have and tells how that ended: with the lines of their sums and of
/// what was sold on, where they are lawful, each with a name of its own, and no stranger stands in them, so that they balance. All
/// disks come back, in their order, and are only read.
pub fn report_tree<D: Disk>(alloc: Global, books: Vec<D>) -> (Vec<D>, Status)
    ensures read { AllZip (λ a b. OnlyRead (D.disk a) (D.disk b)) books.items result.0.items }
    ensures moved { AllZip D.disk_moved books.items result.0.items }
    ensures words { number_of result.1 ≡ 2 → ⊥ }
    ensures causes { ReportCauses D.disk books.items result.1 result.0.items }
    ensures reported { ReportsTree D.disk books.items result.1 }
    ensures ends { IfTold D.disk books.items (λ contents. AllByRecursion IsLawfulBook contents
        → AreCalm D.disk books.items result.0.items → EndsReport (number_of result.1)) }
{
    let (books, found) = audit_tree(alloc, books);
    let status = status_of(alloc, found);
    (books, status)
}

/// How a command ends by which this was found of books.
fn status_of(alloc: Global, found: Result<Tree, AuditFault>) -> Status
    ensures { TellsTree found result }
{
    match found {
        Ok(tree) => said(alloc, &tree),
        Err(fault) => of_fault(fault),
    }
}

/// The status of books that balance: their lines are said, unless memory is refused for them.
fn said(alloc: Global, tree: &Tree) -> Status
    ensures { IsReportStatus (tree_text tree.now) result }
{
    let mut lines = Vec::new(alloc);
    match tree_text(alloc, tree, &mut lines) {
        Ok(()) => Status::Did(List::of(lines)),
        Err(NoMemory) => Status::NoMemory,
    }
}
