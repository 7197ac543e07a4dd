//! Reporting books.

ghost use Rattle.std.specs.Prelude.{◌≡◌};
ghost use Rattle.std.specs.List.{AllZip, AllByRecursion};
ghost use Rattle.mc_outside.specs.DiskView.{OnlyRead};
ghost use Rattle.audit_cmd.specs.Books.{IsLawfulBook};
ghost use Rattle.command_status.specs.Statuses.{number_of};
ghost use Rattle.audit_cmd.specs.Reports.{report_lines, audit_status, IsReportStatus, TellsFound, IfTold, ReportsBooks, ReportCauses, AreCalm, EndsReport};

use crate::{AuditFault, audit};
use audit_model::Report;
use audit_report::{report_json, report_text};
use command_status::Status;
use mc_base::{List, NoMemory};
use mc_outside::Disk;
use mc_requests::Refusal;
use std::alloc::Global;

/// Audits the books that the disks have and tells how that ended: with the report, as one line of JSON or as lines of text,
/// where they are lawful, of one broker and of vendors, and no stranger stands in them, so that they balance. All disks come
/// back, in their order, and are only read.
pub fn report_books<D: Disk>(alloc: Global, books: Vec<D>, as_json: bool) -> (Vec<D>, Status)
    ensures read { AllZip (λ a b. OnlyRead (D.disk a) (D.disk b)) books.items result.0.items }
    ensures moved { AllZip D.disk_moved books.items result.0.items }
    ensures words { number_of result.1 ≡ 2 → ⊥ }
    ensures causes { ReportCauses D.disk books.items result.1 result.0.items }
    ensures reported { ReportsBooks D.disk as_json books.items result.1 }
    ensures ends { IfTold D.disk books.items (λ contents. AllByRecursion IsLawfulBook contents
        → AreCalm D.disk books.items result.0.items → EndsReport (number_of result.1)) }
{
    let (books, found) = audit(alloc, books);
    let status = status_of(alloc, found, as_json);
    (books, status)
}

/// How a command ends by which this was found of books.
fn status_of(alloc: Global, found: Result<Report, AuditFault>, as_json: bool) -> Status
    ensures { TellsFound as_json found result }
{
    match found {
        Ok(report) => said(alloc, &report, as_json),
        Err(fault) => of_fault(fault),
    }
}

/// The status of books that balance: their report is said, unless memory is refused for its lines.
fn said(alloc: Global, report: &Report, as_json: bool) -> Status
    ensures { IsReportStatus (report_lines as_json report.now) result }
{
    let mut lines = Vec::new(alloc);
    let written = if as_json {
        report_json(alloc, report, &mut lines)
    } else {
        report_text(alloc, report, &mut lines)
    };
    match written {
        Ok(()) => Status::Did(List::of(lines)),
        Err(NoMemory) => Status::NoMemory,
    }
}

/// The status of books that are not reported, or whose chains are not told.
pub(crate) fn of_fault(fault: AuditFault) -> Status
    ensures { result ≡ audit_status fault }
{
    match fault {
        AuditFault::NotJournal { .. } => Status::NotJournal,
        AuditFault::BadRecord { place, .. } => Status::BadEntry(place),
        AuditFault::BadChain { place, .. } => Status::BadChain(place),
        AuditFault::Unlawful { place, .. } => Status::UnlawfulEntry(place),
        AuditFault::Disk { .. } => Status::DiskFault,
        AuditFault::BadBooks => Status::Refused(Refusal::BadBooks),
        AuditFault::MissingBook { name } => Status::Refused(Refusal::MissingBook(name)),
        AuditFault::Stranger { name, id, .. } => Status::Stranger { name, id },
        AuditFault::NoMemory => Status::NoMemory,
    }
}
