//! The chain of a journal's entries. It takes half of the time that reading them takes, so it is computed behind a
//! Switch, whose entries carry it, and for who asks: the entries are then read from the disk once more.

ghost use Rattle.std.specs.Prelude.{◌≡◌, ◌+◌, IfOk, OnOk, IsSome, None, Some, false, List};
ghost use Rattle.mc_outside.specs.Bytes.{HasCause};
ghost use Rattle.mc_outside.specs.DiskView.{OnlyRead};
ghost use Rattle.mc_records.specs.Chains as chains;
ghost use Rattle.mc_records.specs.Entry.{Entry};
ghost use Rattle.mc_records.specs.Sizes.{size};
ghost use Rattle.scrip_journal.specs.States.{chain_with, known_chain};
ghost use Rattle.scrip_journal.specs.Replays.{LookedOn, Passes};

use crate::cursor::FIRST_GATE;
use crate::ending::Ending;
use crate::replay::Replay;
use mc_outside::{Disk, DiskFault};
use mc_records::{FIRST_CHAIN, chain_after};

/// The chain, or that of no entries where it is not known.
pub(crate) fn known_chain(chain: Option<[u8; 32]>) -> [u8; 32]
    ensures { result ≡ known_chain chain }
{
    chain.unwrap_or(FIRST_CHAIN)
}

/// The chain with one entry more of this payload, where it is known.
pub(crate) fn chain_with(before: Option<[u8; 32]>, payload: &[u8]) -> Option<[u8; 32]>
    ensures { result ≡ chain_with before payload.now }
{
    match before {
        Some(before) => Some(chain_after(&before, payload)),
        None => None,
    }
}

impl<D: Disk> Replay<D> {
    /// Finds the chain of the entries before the gate: they are read once more, from the first gate on. What was read
    /// ahead is not held any more.
    ///
    /// Where the disk gives other bytes than before, the chain is that of entries that it gave now.
    pub(crate) fn find_chain(&mut self) -> Result<[u8; 32], DiskFault>
        requires going { self.old.ended ≡ None }
        requires unswitched { self.old.switched ≡ false }
        ensures moved { D.disk_moved self.old.disk self.new.disk }
        ensures looked { LookedOn D.disk self.old self.new }
        ensures cause { HasCause (D.disk self.old.disk).faults (D.disk self.new.disk).faults result }
        ensures known { IfOk result (λ c. self.new.chain ≡ Some c) }
    {
        let gate = self.gate;
        let entries = self.entries;
        self.stand_at(FIRST_GATE, 0, Some(FIRST_CHAIN));
        match self.pass_to(gate) {
            Ok(()) => {
                let chain = known_chain(self.chain);
                self.stand_at(gate, entries, Some(chain));
                Ok(chain)
            }
            Err(DiskFault) => {
                self.stand_at(gate, entries, None);
                Err(DiskFault)
            }
        }
    }

    /// Passes the entries up to the gate at this place. It ends before, or behind it, where the disk gives other bytes
    /// than when they were read first.
    fn pass_to(&mut self, gate: u64) -> Result<(), DiskFault>
        requires going { self.old.ended ≡ None }
        requires known { IsSome self.old.chain }
        ensures moved { D.disk_moved self.old.disk self.new.disk }
        ensures only_read { OnlyRead (D.disk self.old.disk) (D.disk self.new.disk) }
        ensures cause { HasCause (D.disk self.old.disk).faults (D.disk self.new.disk).faults result }
        ensures limit { self.new.limit ≡ self.old.limit }
        ensures going { self.new.ended ≡ None }
        ensures passed { OnOk result ((h : List Entry) → Passes D.disk self.old h → gate + 1 ≡ size h
            → known_chain self.new.chain ≡ chains.chain h) }
    {
        'entries: while self.gate < gate {
            match self.look() {
                Ok(found) => {
                    self.advance(&found);
                }
                Err(Ending::Failed) => return Err(DiskFault),
                Err(Ending::Closed) => return Ok(()),
                Err(Ending::Spoiled(_)) => return Ok(()),
                Err(Ending::Unchained { .. }) => return Ok(()),
            }
        }
        Ok(())
    }
}
