//! The money of a book.

ghost use Rattle.std.specs.Prelude.{◌≡◌, ◌+◌, IfOk, OnOk};
ghost use Rattle.mc_records.specs.Views.{entry};
ghost use Rattle.audit_sums.specs.Learned.{Counts};

use crate::readings::{credited, deposited, drawn, fee_taken, price, withdrawn};
use mc_base::NoMemory;
use mc_records::Record;

/// The money of a book, in units: what its entries add up to.
#[derive(Clone, Copy, Drop)]
pub struct Till {
    /// The amounts of the deposits.
    pub paid_in: u128,
    /// Those of the withdrawals.
    pub paid_out: u128,
    /// What was credited to accounts.
    pub credited: u128,
    /// What was drawn out of accounts.
    pub drawn: u128,
    /// The fees of the sales.
    pub fees: u128,
    /// The prices of what pieces were accepted for.
    pub takings: u128,
}

impl Till {
    /// No money.
    pub(crate) fn empty() -> Till
        ensures paid_in { result.paid_in ≡ 0 }
        ensures paid_out { result.paid_out ≡ 0 }
        ensures credited { result.credited ≡ 0 }
        ensures drawn { result.drawn ≡ 0 }
        ensures fees { result.fees ≡ 0 }
        ensures takings { result.takings ≡ 0 }
    {
        Till {
            paid_in: 0,
            paid_out: 0,
            credited: 0,
            drawn: 0,
            fees: 0,
            takings: 0,
        }
    }

    /// Counts the money of an entry, where a sale has this fee. It takes no memory: a sum of 2^128 or more, which no
    /// memory has the entries for, is told as want of it.
    pub(crate) fn count(&mut self, fee: u64, r: &Record<'_>) -> Result<(), NoMemory>
        ensures { OnOk result (Counts self.old self.new fee (entry r.now)) }
    {
        *self = Till {
            paid_in: sum(self.paid_in, deposited(r))?,
            paid_out: sum(self.paid_out, withdrawn(r))?,
            credited: sum(self.credited, credited(r))?,
            drawn: sum(self.drawn, drawn(r))?,
            fees: sum(self.fees, fee_taken(fee, r))?,
            takings: sum(self.takings, price(r))?,
        };
        Ok(())
    }
}

/// The sum of two numbers.
fn sum(a: u128, b: u64) -> Result<u128, NoMemory>
    ensures { IfOk result (λ all. all ≡ a + b) }
{
    match a.checked_add(u128::from(b)) {
        Some(all) => Ok(all),
        None => Err(NoMemory),
    }
}
