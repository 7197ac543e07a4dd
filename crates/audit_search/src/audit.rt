//! The audit of books of which all was learned.

ghost use Rattle.std.specs.Prelude.{◌≤◌, ◌^◌, List as Items, IfOk};
ghost use Rattle.mc_requests.specs.declared.limits.Limits.{Limits as Bounds};
ghost use Rattle.ledger_model.specs.Histories.{History};
ghost use Rattle.audit_search.specs.Audit.{AreLearned, Audited, NamesBook};
ghost use Rattle.audit_search.specs.Findings.{Finds, IsReportOf};
ghost use Rattle.audit_search.specs.Markets.{AreInOrder};

use crate::fault::BooksFault;
use crate::market::{least_lacking, only_broker, vendor_names};
use crate::shops::Shops;
use crate::totals::{Totals, accounts_of, totals_of};
use audit_model::{Report, Sums, VendorSums};
use audit_sums::BookSums;
use mc_base::{List, NoMemory};
use std::alloc::Global;

/// Audits books of which all was learned, in the order in which they were read: the report, with the sums of the vendors
/// in the order of their names, or why there is none. `BadBooks` comes exactly where there is not one broker's book or two
/// vendors share a name, and then `MissingBook` exactly where the broker sold of a vendor whose book is not there, with the
/// least such name, and then `Stranger` exactly where one stands, with the first. It takes memory for the pieces of one
/// book at a time, beside what each vendor minted, and what the broker had in stock of it and sold of it.
pub fn audit_books(alloc: Global, books: &[BookSums]) -> Result<Report, BooksFault>
    ensures audited { (limits : Bounds) (hs : Items History) → limits.series ≤ 2 ^ 32
        → AreLearned limits books.now hs → Audited limits hs result }
    ensures named { NamesBook books.now result }
{
    find(alloc, books)
}

/// What is found of some books, by what was kept of them.
fn find(alloc: Global, books: &[BookSums]) -> Result<Report, BooksFault>
    ensures { Finds books.now result }
{
    let Some(broker) = only_broker(books) else {
        return Err(BooksFault::BadBooks);
    };
    let names = match vendor_names(alloc, books) {
        Ok(Some(names)) => names,
        Ok(None) => return Err(BooksFault::BadBooks),
        Err(NoMemory) => return Err(BooksFault::NoMemory),
    };
    match least_lacking(&names, broker.sales()) {
        Some(name) => return Err(BooksFault::MissingBook { name }),
        None => (),
    }
    let shops = match Shops::new(alloc, broker, books, names) {
        Ok(shops) => shops,
        Err(NoMemory) => return Err(BooksFault::NoMemory),
    };
    let totals = match totals_of(alloc, &shops, books) {
        Ok(totals) => totals,
        Err(fault) => return Err(fault),
    };
    match report(broker, totals) {
        Ok(report) => Ok(report),
        Err(NoMemory) => Err(BooksFault::NoMemory),
    }
}

/// The report of these sums, with the vendors in the order of their names.
fn report(broker: &BookSums, totals: Totals) -> Result<Report, NoMemory>
    ensures { IfOk result (IsReportOf broker.now totals) }
{
    let Totals { desk, vendors } = totals;
    let till = broker.till();
    Ok(Report {
        broker: *broker.name(),
        sums: Sums {
            paid_in: till.paid_in,
            paid_out: till.paid_out,
            accounts: accounts_of(&till)?,
            fees: till.fees,
            outstanding: desk.outstanding,
            lapsed: desk.lapsed,
            vendors: List::of(by_name(vendors)?),
        },
    })
}

/// The sums of vendors in the order of their names, by their bytes.
pub fn by_name(mut vendors: Vec<VendorSums>) -> Result<Vec<VendorSums>, NoMemory>
    ensures { IfOk result (λ ordered. AreInOrder vendors.items ordered.items) }
{
    vendors.sort_by(|a, b| a.name.bytes().cmp(b.name.bytes()))?;
    Ok(vendors)
}
