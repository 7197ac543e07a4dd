//! Writing a Switch, which tells the chain of the entries before it.

ghost use Rattle.std.specs.Prelude.{◌≡◌, ◌+◌, ◌∷◌, ◌++◌, [], List, length, IfOk, IfErr, OnOk, IsSome};
ghost use Rattle.mc_outside.specs.Bytes.{Rose};
ghost use Rattle.mc_outside.specs.DiskView.{Ran};
ghost use Rattle.mc_records.specs.Chains as chains;
ghost use Rattle.mc_records.specs.Chains.{has_switch};
ghost use Rattle.mc_records.specs.Entry.{Entry, Switch};
ghost use Rattle.mc_records.specs.Sizes.{size, entry_size};
ghost use Rattle.scrip_journal.specs.States.{IsJournal};
ghost use Rattle.scrip_journal.specs.Exits.{RoomBy, MatchStageFault, EitherNoOutput, IsUncut};
ghost use Rattle.scrip_journal.specs.Switching.{switched_disk};

use crate::journal::{Journal, Receipt, StageFault};
use mc_base::Moment;
use mc_outside::Disk;
use mc_records::Record;

/// How many bytes the payload of a Switch has: its kind, its moment and a chain.
pub const SWITCH_PAYLOAD: u64 = 41;

impl<D: Disk> Journal<D> {
    /// Writes a Switch of this moment behind the closed gate, which tells the chain of the entries before it, and opens
    /// the gate: it lasts then. Answers that chain, too. Where it is not known, the entries are read from the disk once
    /// more. It takes no memory.
    ///
    /// A crash in this call leaves the entries with the Switch or without it. `Full` comes exactly where the journal
    /// would pass its limit, and hands it back unchanged, before anything is read; `Disk` only where the disk failed.
    pub fn append_switch(
        self,
        moment: Moment,
    ) -> Result<(Journal<D>, Receipt, [u8; 32]), StageFault<D>>
        ensures moved { D.disk_moved self.disk (switched_disk result) }
        ensures written { IfOk result (λ w. (h : List Entry) → IsJournal D.disk self h
            → IsJournal D.disk w.0 (h ++ Switch moment (chains.chain h) ∷ []) × (w.1 ≡ length h) × (w.2 ≡ chains.chain h)) }
        ensures limit { IfOk result (λ w. w.0.limit ≡ self.limit) }
        ensures known { IfOk result (λ w. IsSome w.0.chain) }
        // Each crash pair of the call encodes the entries with the Switch or without it, and nothing is sent.
        ensures ran { (h : List Entry) → IsJournal D.disk self h
            → Ran (D.disk self.disk) (D.disk (switched_disk result)) (EitherNoOutput h (Switch moment (chains.chain h)) (D.disk self.disk).aside) }
        ensures full { (h : List Entry) → self.size ≡ size h → self.switched ≡ has_switch h
            → RoomBy result self.limit (size h + entry_size h (Switch moment (chains.chain h))) }
        ensures fault { IfErr result (λ f. MatchStageFault f
            (λ j. j ≡ self)
            (λ d. Rose (D.disk self.disk).faults (D.disk d).faults)) }
        ensures same_count { OnOk result ((D.disk (switched_disk result)).faults ≡ (D.disk self.disk).faults) }
        ensures uncut { IsUncut (D.disk self.disk) (D.disk (switched_disk result)) }
    {
        if self.is_full(SWITCH_PAYLOAD) {
            return Err(StageFault::Full(self));
        }
        let (journal, chain) = match self.find_chain() {
            Ok(found) => found,
            Err(halted) => return Err(StageFault::Disk(halted)),
        };
        let _seconds = moment.seconds();
        match journal.append(&Record::Switch { moment, chain }) {
            Ok((journal, receipt)) => Ok((journal, receipt, chain)),
            Err(StageFault::Full(_journal)) => unreachable!(),
            Err(StageFault::Disk(halted)) => Err(StageFault::Disk(halted)),
        }
    }
}
