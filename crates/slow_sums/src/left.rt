//! What is left of pieces that were handed out and did not come back.

ghost use Rattle.std.specs.Prelude.{◌≡◌, ◌+◌, IfOk, sum_by};
ghost use Rattle.audit_model.specs.Parts.{still_out, gone_by};

use audit_model::Part;
use mc_base::NoMemory;
use slow_ledger::{Prefix, slow_is_spent, slow_time};

/// The sum of two numbers. One of 2^128 or more is want of memory: no memory holds a history that has it.
pub(crate) fn sum(a: u128, b: u64) -> Result<u128, NoMemory>
    ensures { IfOk result (λ all. all ≡ a + b) }
{
    match a.checked_add(u128::from(b)) {
        Some(all) => Ok(all),
        None => Err(NoMemory),
    }
}

fn out_of(h: &Prefix<'_>, part: &Part) -> u64
    ensures { result ≡ still_out h.now part.now }
{
    if !slow_is_spent(h, part.id) && slow_time(h) < part.expires {
        part.value
    } else {
        0
    }
}

fn gone_of(h: &Prefix<'_>, part: &Part) -> u64
    ensures { result ≡ gone_by h.now part.now }
{
    if !slow_is_spent(h, part.id) && part.expires <= slow_time(h) {
        part.value
    } else {
        0
    }
}

/// What is outstanding of some pieces at a house.
pub(crate) fn slow_outstanding(parts: &[Part], h: &Prefix<'_>) -> Result<u128, NoMemory>
    ensures { IfOk result (λ all. all ≡ sum_by (still_out h.now) parts.now) }
{
    let mut all = 0;
    for part in parts {
        all = sum(all, out_of(h, part))?;
    }
    Ok(all)
}

/// What has lapsed of some pieces at a house.
pub(crate) fn slow_lapsed(parts: &[Part], h: &Prefix<'_>) -> Result<u128, NoMemory>
    ensures { IfOk result (λ all. all ≡ sum_by (gone_by h.now) parts.now) }
{
    let mut all = 0;
    for part in parts {
        all = sum(all, gone_of(h, part))?;
    }
    Ok(all)
}
