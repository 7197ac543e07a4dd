//! The sums of a vendor's book beside a broker's.

ghost use Rattle.std.specs.Prelude.{◌≡◌, ◌<◌, length, slice_get, IfOk, IfSome, map};
ghost use Rattle.ledger_model.specs.Sums.{price_paid, takings, handed_out};
ghost use Rattle.audit_model.specs.Parts.{part_of};
ghost use Rattle.audit_model.specs.Sums.{vendor_sums};

use crate::handed::with_own;
use crate::left::{slow_lapsed, slow_outstanding, sum};
use crate::sold::with_sold;
use audit_model::{Part, VendorSums};
use mc_base::NoMemory;
use mc_records::Record;
use scrip_form::Name;
use slow_ledger::{Prefix, slow_name};
use std::alloc::Global;

fn price_at(h: &Prefix<'_>, n: usize) -> u64
    requires { n < length h.now }
    ensures { IfSome (slice_get h.now n) (λ e. result ≡ price_paid e) }
{
    match h.record(n) {
        Record::Accept { price, .. } => price,
        _ => 0,
    }
}

/// The prices of all that was accepted.
fn slow_takings(h: &Prefix<'_>) -> Result<u128, NoMemory>
    ensures { IfOk result (λ all. all ≡ takings h.now) }
{
    let mut all = 0;
    for n in 0..h.len() {
        all = sum(all, price_at(h, n))?;
    }
    Ok(all)
}

/// The pieces that were handed out of a vendor beside a broker.
pub(crate) fn handed_beside(
    alloc: Global,
    broker: &Prefix<'_>,
    h: &Prefix<'_>,
) -> Result<Vec<Part>, NoMemory>
    ensures { IfOk result (λ parts. parts.items ≡ map part_of (handed_out broker.now h.now)) }
{
    let sold = with_sold(Vec::new(alloc), broker, slow_name(h))?;
    with_own(sold, h)
}

/// The sums of a vendor's book beside a broker's. A book without a site of a name is told as want of memory.
pub(crate) fn slow_vendor(
    alloc: Global,
    broker: &Prefix<'_>,
    h: &Prefix<'_>,
) -> Result<VendorSums, NoMemory>
    ensures { IfOk result (λ sums. sums ≡ vendor_sums broker.now h.now) }
{
    let Some(name) = Name::new(slow_name(h)) else {
        return Err(NoMemory);
    };
    let parts = handed_beside(alloc, broker, h)?;
    Ok(VendorSums {
        name,
        takings: slow_takings(h)?,
        outstanding: slow_outstanding(&parts, h)?,
        lapsed: slow_lapsed(&parts, h)?,
    })
}
