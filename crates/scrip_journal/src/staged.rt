//! A journal with a next entry behind its closed gate.

ghost use Rattle.std.specs.Prelude.{◌≡◌, ◌+◌, ◌∷◌, ◌++◌, [], List, IfOk, OnOk, OnErr};
ghost use Rattle.mc_outside.specs.Bytes.{Rose};
ghost use Rattle.mc_outside.specs.DiskView.{Ran};
ghost use Rattle.mc_records.specs.Entry.{Entry};
ghost use Rattle.scrip_journal.specs.States.{IsJournal, IsStaged};
ghost use Rattle.scrip_journal.specs.Exits.{opened_disk, EitherNoOutput, IsUncut};

use crate::cursor::Cursor;
use crate::journal::{Halted, Journal, Receipt};
use mc_outside::Disk;
use std::marker::Model;

/// What a journal will be with the next entry: the place of the gate behind it, whether a Switch is then among the
/// entries, and their chain, where it is known.
#[derive(Drop)]
pub(crate) struct Next {
    pub(crate) gate: u64,
    pub(crate) switched: bool,
    pub(crate) chain: Option<[u8; 32]>,
}

/// A journal with a next entry on the disk, behind the gate that is still closed.
pub struct Staged<D> {
    pub(crate) disk: D,
    pub(crate) at: Cursor,
    pub(crate) next: Next,
}

impl<D> Model for Staged<D> {
    ghost use Rattle.std.specs.Prelude.{◌≡◌, ◌+◌, ◌<◌, ◌≤◌, length};
    ghost use Rattle.scrip_journal.specs.States.{WithNext, IsKnown};
    ghost use Rattle.scrip_journal.specs.declared.cursor.TheConstants.{BUFFER};
    ghost use Rattle.mc_requests.specs.declared.limits.TheConstants.Limits.{MOST_JOURNAL};

    ghost Value = { WithNext D };

    ghost view = { λ s. record { disk = s.disk; gate = s.at.gate; size = s.next.gate + 1; entries = s.at.entries; limit = s.at.limit; switched = s.next.switched; chain = s.next.chain } };

    ghost invariant = { λ s. ((s.at.gate < s.next.gate) × (s.next.gate < MOST_JOURNAL) × (s.at.entries ≤ s.at.gate) × (s.at.limit ≤ MOST_JOURNAL) × (length s.at.buf.items ≡ BUFFER)) × IsKnown s.next.switched s.next.chain };
}

impl<D: Disk> Staged<D> {
    /// Opens the gate before the entry, and waits until that lasts. It takes no memory.
    ///
    /// A crash in this call leaves the entries with the new one or without it; after an `Ok` it leaves
    /// them with it. `Err` comes only where the disk failed.
    pub fn open_gate(self) -> Result<(Journal<D>, Receipt), Halted<D>>
        ensures moved { D.disk_moved self.disk (opened_disk result) }
        ensures opened { IfOk result (λ r. (h : List Entry) (e : Entry) → IsStaged D.disk self h e
            → IsJournal D.disk r.0 (h ++ e ∷ [])) }
        ensures number { IfOk result (λ r. (r.1 ≡ self.entries)
            × (r.0.entries ≡ self.entries + 1)) }
        ensures limit { IfOk result (λ r. r.0.limit ≡ self.limit) }
        ensures known { IfOk result (λ r. r.0.chain ≡ self.chain) }
        // Each crash pair of the call encodes the entries with the new one or without it, and nothing is
        // sent.
        ensures ran { (h : List Entry) (e : Entry) → IsStaged D.disk self h e
            → Ran (D.disk self.disk) (D.disk (opened_disk result)) (EitherNoOutput h e (D.disk self.disk).aside) }
        ensures fault { OnErr result (Rose (D.disk self.disk).faults (D.disk (opened_disk result)).faults) }
        ensures same_count { OnOk result ((D.disk (opened_disk result)).faults ≡ (D.disk self.disk).faults) }
        ensures uncut { IsUncut (D.disk self.disk) (D.disk (opened_disk result)) }
    {
        let Staged { disk, at, next } = self;
        let (mut disk, mut at) = (disk, at);
        if disk.write_at(at.gate, &[1]).is_err() {
            return Err(Halted { disk });
        }
        if disk.sync().is_err() {
            return Err(Halted { disk });
        }
        let Next {
            gate,
            switched,
            chain,
        } = next;
        let number = at.entries;
        at.gate = gate;
        at.switched = switched;
        at.chain = chain;
        at.entries = number + 1;
        Ok((Journal { disk, at }, Receipt { number }))
    }
}
