//! The identities that a house accepted, and what is left of the pieces that it handed out.

ghost use Rattle.std.specs.Prelude.{◌≡◌, ◌+◌, ℕ, sum_by, IfOk};
ghost use Rattle.audit_search.specs.Known.{has_id, was_accepted, out_at, gone_at};

use audit_model::Part;
use audit_sums::Acceptance;
use mc_base::{Moment, NoMemory};
use scrip_form::Id;
use std::alloc::Global;
use std::collections::HashSet;
use std::marker::Model;

/// The identities that a house accepted. Contracts see the list of them, in no order.
#[derive(Drop)]
pub(crate) struct Spent {
    ids: HashSet<u64>,
}

impl Model for Spent {
    ghost use Rattle.std.specs.Prelude.{ℕ, List};

    ghost Value = { List ℕ };

    ghost view = { λ s. s.ids.keys };
}

impl Spent {
    /// Those of what was kept of the accepted pieces.
    pub(crate) fn of(alloc: Global, accepted: &[Acceptance]) -> Result<Spent, NoMemory>
        ensures { IfOk result (λ s. (id : ℕ) → has_id s id ≡ was_accepted accepted.now id) }
    {
        let mut ids = HashSet::with_capacity(alloc, accepted.len())?;
        for row in accepted {
            match row.piece {
                Some(piece) => {
                    ids.insert(piece.id.number())?;
                }
                None => (),
            }
        }
        Ok(Spent { ids })
    }

    /// Whether an identity is among them.
    pub(crate) fn has(&self, id: Id) -> bool
        ensures { result ≡ has_id self.now id }
    {
        self.ids.contains(&id.number())
    }

    /// What is left at a time of pieces that were handed out: the values of those that are not spent, apart by whether
    /// they end later. A sum of 2^128 or more, which no memory has the pieces for, is told as want of it.
    pub(crate) fn left(&self, parts: &[Part], time: Moment) -> Result<Left, NoMemory>
        ensures { IfOk result (λ l. (l.outstanding ≡ sum_by (out_at (has_id self.now) time) parts.now)
            × (l.lapsed ≡ sum_by (gone_at (has_id self.now) time) parts.now)) }
    {
        let mut left = Left {
            outstanding: 0,
            lapsed: 0,
        };
        for part in parts {
            left = left.with(part, self.has(part.id), time)?;
        }
        Ok(left)
    }
}

/// The values of pieces that were handed out and did not come back, in units.
#[derive(Clone, Copy, Drop)]
pub struct Left {
    /// Of those whose end is after the time of the house.
    pub outstanding: u128,
    /// Of those that have ended.
    pub lapsed: u128,
}

impl Left {
    /// The values with one more piece.
    fn with(self, part: &Part, spent: bool, time: Moment) -> Result<Left, NoMemory>
        ensures { IfOk result (λ l. (l.outstanding ≡ self.outstanding + out_at (λ id. spent) time part.now)
            × (l.lapsed ≡ self.lapsed + gone_at (λ id. spent) time part.now)) }
    {
        let Left {
            mut outstanding,
            mut lapsed,
        } = self;
        if !spent {
            if time.seconds() < part.expires {
                outstanding = sum(outstanding, part.value)?;
            } else {
                lapsed = sum(lapsed, part.value)?;
            }
        }
        Ok(Left {
            outstanding,
            lapsed,
        })
    }
}

/// The sum of two numbers.
fn sum(a: u128, b: u64) -> Result<u128, NoMemory>
    ensures { IfOk result (λ all. all ≡ a + b) }
{
    match a.checked_add(u128::from(b)) {
        Some(all) => Ok(all),
        None => Err(NoMemory),
    }
}
