//! Switching a book to chains.

ghost use Rattle.std.specs.Prelude.{◌≡◌, ◌∷◌, [], IsSome};
ghost use Rattle.ledger_model.specs.Histories.{History};
ghost use Rattle.house_core.specs.Bench.{house_time, limits_of};
ghost use Rattle.house_core.specs.House.{HouseRepresents, HandsBack, IfDone, IfRefused, KeepsTime};
ghost use Rattle.house_core.specs.Refusing.{IsAmong};
ghost use Rattle.house_core.specs.Tasks.{Performs, TellsAdded, switch_task};

use crate::house::House;
use crate::outcome::Outcome;
use house_state::{Trade, fitted};
use mc_outside::Disk;
use mc_records::Record;
use mc_requests::Refusal;
use scrip_journal::{Receipt, SWITCH_PAYLOAD, StageFault};

impl<D: Disk, T: Trade> House<D, T> {
    /// Switches the book, where it was not: a Switch is entered of the house time, which tells the chain of the
    /// entries before it, and those behind it carry theirs. None where one stands; refused only where the journal has no
    /// room for it, with 33 JournalFull. The entries are read once more for their chain, where it is not known, but not
    /// where it is refused. The chain is known where it is done.
    pub fn switch(self) -> Outcome<D, T, Option<Receipt>>
        ensures back { HandsBack D.disk D.disk_moved (KeepsTime self) self.journal.disk result }
        ensures exact { (h : History) → HouseRepresents D.disk T.trade self h
            → Performs D.disk T.trade (λ t. t ≡ switch_task h (house_time self.bench)) TellsAdded (limits_of self.bench) self.journal.disk h result }
        ensures refusals { IfRefused (IsAmong (33 ∷ [])) result }
        ensures known { IfDone (λ x told. IsSome x.journal.chain) result }
    {
        if self.journal.is_switched() {
            return Outcome::Done(self, None);
        }
        let House { journal, mut bench } = self;
        match fitted(&bench.state, bench.state.limits().journal, SWITCH_PAYLOAD) {
            Ok(()) => (),
            Err(refusal) => return Outcome::Refused(House { journal, bench }, refusal),
        }
        // One stands only where the house represents no history.
        if bench.state.is_switched() {
            return Outcome::NoMemory(House { journal, bench });
        }
        let moment = bench.state.time();
        let (journal, receipt, chain) = match journal.append_switch(moment) {
            Ok(switched) => switched,
            // It fits, so this comes only where the house represents no history.
            Err(StageFault::Full(journal)) => {
                let full = Refusal::JournalFull(bench.state.size(), SWITCH_PAYLOAD);
                return Outcome::Refused(House { journal, bench }, full);
            }
            Err(StageFault::Disk(halted)) => return Outcome::Halted(halted),
        };
        // It may follow, so an `Err` comes only where the house represents no history.
        let _applied = bench.apply_entry(&Record::Switch { moment, chain }, SWITCH_PAYLOAD);
        Outcome::Done(House { journal, bench }, Some(receipt))
    }
}
