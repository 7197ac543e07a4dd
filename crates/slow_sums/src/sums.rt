//! The sums of the books of a broker and of vendors.

ghost use Rattle.std.specs.Prelude.{◌≡◌, IfOk, map};
ghost use Rattle.audit_model.specs.Sums.{vendor_sums, sums_of};

use crate::broker::slow_broker;
use crate::vendor::slow_vendor;
use audit_model::{Sums, VendorSums};
use ledger_model::History;
use mc_base::{List, NoMemory};
use slow_ledger::Prefix;
use std::alloc::Global;

fn slow_vendors(
    alloc: Global,
    broker: &Prefix<'_>,
    vendors: &[History],
) -> Result<Vec<VendorSums>, NoMemory>
    ensures { IfOk result (λ all. all.items ≡ map (vendor_sums broker.now) vendors.now) }
{
    let mut all = Vec::new(alloc);
    for vendor in vendors {
        all.push(slow_vendor(alloc, broker, &Prefix::whole(vendor))?)?;
    }
    Ok(all)
}

/// The sums of the books of a broker and of vendors, lawful or not. A sum that passes the range of its type is
/// told as want of memory, and so is a vendor's book without a site of a name, which no journal has.
pub fn slow_sums(alloc: Global, broker: &History, vendors: &[History]) -> Result<Sums, NoMemory>
    ensures { IfOk result (λ sums. sums ≡ sums_of broker.now vendors.now) }
{
    let book = Prefix::whole(broker);
    let sums = slow_broker(alloc, &book)?;
    let vendors = slow_vendors(alloc, &book, vendors)?;
    Ok(Sums {
        paid_in: sums.paid_in,
        paid_out: sums.paid_out,
        accounts: sums.accounts,
        fees: sums.fees,
        outstanding: sums.outstanding,
        lapsed: sums.lapsed,
        vendors: List::of(vendors),
    })
}
