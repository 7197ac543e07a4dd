//! Pieces that are looked up by identity and value.

ghost use Rattle.std.specs.Prelude.{◌≡◌, ◌||◌, ℕ, IfOk, OnOk};
ghost use Rattle.std.specs.List.{list_any};
ghost use Rattle.audit_search.specs.Known.{knows, has_part, is_in_run};

use audit_model::Part;
use audit_sums::Run;
use mc_base::NoMemory;
use std::alloc::Global;
use std::collections::HashSet;
use std::marker::Model;

/// The identities of some pieces, each with its value. Contracts see the list of the pairs, in no order.
#[derive(Drop)]
pub struct Known {
    keys: HashSet<(u64, u64)>,
}

impl Model for Known {
    ghost use Rattle.std.specs.Prelude.{ℕ, List};

    ghost Value = { List (ℕ × ℕ) };

    ghost view = { λ k. k.keys.keys };
}

impl Known {
    /// Those of some pieces.
    pub fn of_parts(alloc: Global, parts: &[Part]) -> Result<Known, NoMemory>
        ensures { IfOk result (λ k. (id value : ℕ) → knows k id value ≡ has_part parts.now id value) }
    {
        let mut keys = HashSet::with_capacity(alloc, parts.len())?;
        for part in parts {
            keys.insert((part.id.number(), part.value))?;
        }
        Ok(Known { keys })
    }

    /// Those of some runs. A run past the last identity, which no lawful book has, is told as want of memory.
    pub(crate) fn of_runs(alloc: Global, runs: &[Run]) -> Result<Known, NoMemory>
        ensures { IfOk result (λ k. (id value : ℕ)
            → knows k id value ≡ list_any (is_in_run id value) runs.now) }
    {
        let mut keys = HashSet::new(alloc);
        for run in runs {
            put_run(&mut keys, run)?;
        }
        Ok(Known { keys })
    }

    /// Whether a piece of this identity and this value is among them.
    pub fn has(&self, part: &Part) -> bool
        ensures { result ≡ knows self.now part.now.id part.now.value }
    {
        self.keys.contains(&(part.id.number(), part.value))
    }
}

/// Puts the pieces of a run in.
fn put_run(keys: &mut HashSet<(u64, u64)>, run: &Run) -> Result<(), NoMemory>
    ensures { OnOk result ((id value : ℕ) → knows keys.new.keys id value
        ≡ (knows keys.old.keys id value || is_in_run id value run.now)) }
{
    for k in 0..run.count {
        match run.first.number().checked_add(u64::from(k)) {
            Some(id) => keys.insert((id, run.value))?,
            None => return Err(NoMemory),
        };
    }
    Ok(())
}
