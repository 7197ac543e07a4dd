ghost use Rattle.std.specs.Prelude.{◌≡◌, ◌<◌, ◌≤◌, ◌+◌, ◌==◌, ◌||◌, ◌↔◌, ℕ, length, false, IsTrue, OnOk};
ghost use Rattle.broker_stalls.specs.Stalls.{has_id};

use mc_base::NoMemory;
use std::alloc::Global;
use std::collections::HashSet;
use std::marker::Model;

/// The identities of all pieces that were put into one vendor's stock, the sold ones too. Contracts see them as the
/// record `StockIdsView`, and ask `has_id` of an identity.
#[derive(Drop)]
pub(crate) struct StockIds {
    ids: HashSet<u64>,
}

impl Model for StockIds {
    ghost use Rattle.std.specs.HashSet.{spare};
    ghost use Rattle.broker_stalls.specs.Stalls.{StockIdsView};

    ghost Value = { StockIdsView };

    ghost view = { λ s. record { ids = s.ids.keys; room = spare s.ids } };
}

impl StockIds {
    /// No identities. It takes no memory.
    #[tactic(auto, unfolding(crate::specs::Stalls::has_id))]
    pub(crate) fn new(alloc: Global) -> StockIds
        ensures ids { (q : ℕ) → has_id result q ≡ false }
        ensures none { length result.ids ≡ 0 }
    {
        StockIds {
            ids: HashSet::new(alloc),
        }
    }

    /// Makes room for so many more identities.
    pub(crate) fn reserve(&mut self, count: usize) -> Result<(), NoMemory>
        ensures room { OnOk result (count ≤ self.new.room) }
        ensures ids { (q : ℕ) → has_id self.new q ≡ has_id self.old q }
        ensures count { length self.new.ids ≡ length self.old.ids }
    {
        self.ids.reserve(count)?;
        Ok(())
    }

    /// Whether an identity is there.
    #[tactic(auto, unfolding(crate::specs::Stalls::has_id))]
    pub(crate) fn has(&self, id: u64) -> bool
        ensures { result ≡ has_id self.now id }
    {
        self.ids.contains(&id)
    }

    /// Whether there are none.
    pub(crate) fn is_empty(&self) -> bool
        ensures { IsTrue result ↔ (length self.now.ids ≡ 0) }
    {
        self.ids.is_empty()
    }

    /// Puts in an identity, for which there is room. It takes no memory.
    pub(crate) fn put(&mut self, id: u64)
        requires { 0 < self.old.room }
        ensures ids { (q : ℕ) → has_id self.new q ≡ (id == q || has_id self.old q) }
        ensures room { self.old.room ≤ self.new.room + 1 }
        ensures some { 0 < length self.new.ids }
    {
        match self.ids.insert(id) {
            Ok(_) => (),
            Err(_) => unreachable!(),
        }
    }
}
