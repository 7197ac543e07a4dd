//! A journal at rest, and what its calls end as.

ghost use Rattle.std.specs.Prelude.{◌≡◌, ◌<◌, ◌+◌, ◌∷◌, ◌++◌, ◌↔◌, [], List, length, IfOk, IfErr, OnOk, OnErr, IsSome, IsTrue, Some, true};
ghost use Rattle.mc_outside.specs.Bytes.{Rose};
ghost use Rattle.mc_outside.specs.DiskView.{Ran, OnlyRead};
ghost use Rattle.mc_records.specs.Entry.{Entry, Fits};
ghost use Rattle.mc_records.specs.Chains.{has_switch, is_switch};
ghost use Rattle.mc_records.specs.Sizes.{size, entry_size, framed_size, tail_bytes};
ghost use Rattle.mc_records.specs.declared.sizes.TheConstants.{PAYLOAD_BOUND};
ghost use Rattle.mc_records.specs.Views.{entry};
ghost use Rattle.scrip_journal.specs.States.{IsJournal, IsStaged};
ghost use Rattle.scrip_journal.specs.Exits.{staged_disk, opened_disk, written_disk, size_with, RoomBy, MatchStageFault, EncodesNoOutput, EitherNoOutput, IsUncut};

use crate::cursor::{Cursor, put_block, stands_with};
use crate::replay::Replay;
use crate::staged::{Next, Staged};
use mc_outside::{Disk, DiskFault};
use mc_records::{FRAME, Record, payloads_are_short, tail_len};
use std::marker::Model;

/// A journal at rest, which owns its disk and never lends it. Contracts see the disk, the place after
/// the closed gate as its size, how many entries there are, how many bytes it may have, whether a Switch is among
/// the entries, and their chain, where it is known: behind a Switch, or to who asked for it.
pub struct Journal<D> {
    pub(crate) disk: D,
    pub(crate) at: Cursor,
}

impl<D> Model for Journal<D> {
    ghost use Rattle.std.specs.Prelude.{◌≡◌, ◌+◌, ◌<◌, ◌≤◌, length};
    ghost use Rattle.scrip_journal.specs.States.{AtRest, IsKnown};
    ghost use Rattle.scrip_journal.specs.declared.cursor.TheConstants.{BUFFER};
    ghost use Rattle.mc_requests.specs.declared.limits.TheConstants.Limits.{MOST_JOURNAL};

    ghost Value = { AtRest D };

    ghost view = { λ j. record { disk = j.disk; size = j.at.gate + 1; entries = j.at.entries; limit = j.at.limit; switched = j.at.switched; chain = j.at.chain } };

    ghost invariant = { λ j. ((j.at.gate < MOST_JOURNAL) × (j.at.entries ≤ j.at.gate) × (j.at.limit ≤ MOST_JOURNAL) × (length j.at.buf.items ≡ BUFFER)) × IsKnown j.at.switched j.at.chain };
}

/// A journal whose disk failed while an entry was written. The entry is in doubt: from here on only
/// opening the journal again tells whether it stands. Contracts see the disk.
pub struct Halted<D> {
    pub(crate) disk: D,
}

impl<D> Model for Halted<D> {
    ghost use Rattle.std.specs.Prelude.{◌≡◌};

    ghost Value = { D };

    ghost view = { λ h. h.disk };
}

/// What says that an entry is on the disk behind an open gate: its number, from 0. Only
/// [`Staged::open_gate`] makes one.
#[derive(Debug, Drop)]
pub struct Receipt {
    pub(crate) number: u64,
}

impl Model for Receipt {
    ghost use Rattle.std.specs.Prelude.{ℕ};

    ghost Value = { ℕ };

    ghost view = { λ r. r.number };
}

/// Why an entry was not staged.
pub enum StageFault<D> {
    /// The entry would pass the journal's limit. Nothing is changed.
    Full(Journal<D>),
    /// The disk failed.
    Disk(Halted<D>),
}

impl<D: Disk> Journal<D> {
    /// Writes an entry behind the closed gate, and waits until it lasts. It takes no memory. For a Switch the chain
    /// of the entries is found first, where it is not known.
    ///
    /// A crash in this call leaves the entries as they were. `Full` comes exactly where the journal
    /// would pass its limit, and hands it back unchanged; `Disk` only where the disk failed.
    pub fn stage(self, r: &Record<'_>) -> Result<Staged<D>, StageFault<D>>
        requires { Fits (entry r.now) }
        ensures moved { D.disk_moved self.disk (staged_disk result) }
        ensures staged { IfOk result (λ s. (h : List Entry) → IsJournal D.disk self h
            → IsStaged D.disk s h (entry r.now)) }
        ensures limit { IfOk result (λ s. (s.limit ≡ self.limit) × (s.entries ≡ self.entries)) }
        // Each crash pair of the call encodes the entries as they were, and nothing is sent.
        ensures ran { (h : List Entry) → IsJournal D.disk self h
            → Ran (D.disk self.disk) (D.disk (staged_disk result)) (EncodesNoOutput h (D.disk self.disk).aside) }
        ensures room { RoomBy result self.limit (size_with self (entry r.now)) }
        ensures full { (h : List Entry) → self.size ≡ size h → self.switched ≡ has_switch h
            → RoomBy result self.limit (size h + entry_size h (entry r.now)) }
        ensures fault { IfErr result (λ f. MatchStageFault f
            (λ j. j ≡ self)
            (λ d. Rose (D.disk self.disk).faults (D.disk d).faults)) }
        ensures same_count { OnOk result ((D.disk (staged_disk result)).faults ≡ (D.disk self.disk).faults) }
        ensures uncut { IsUncut (D.disk self.disk) (D.disk (staged_disk result)) }
        ensures known { IfOk result (λ s. is_switch (entry r.now) ≡ true → IsSome s.chain) }
        ensures keeps { IsSome self.chain → IfOk result (λ s. IsSome s.chain) }
    {
        if r.is_switch() && self.chain().is_none() {
            self.stage_first(r)
        } else {
            self.stage_next(r)
        }
    }

    /// Stages the first Switch, or any entry, with the chain of the entries, which is found first.
    fn stage_first(self, r: &Record<'_>) -> Result<Staged<D>, StageFault<D>>
        requires { Fits (entry r.now) }
        ensures moved { D.disk_moved self.disk (staged_disk result) }
        ensures staged { IfOk result (λ s. (h : List Entry) → IsJournal D.disk self h
            → IsStaged D.disk s h (entry r.now)) }
        ensures limit { IfOk result (λ s. (s.limit ≡ self.limit) × (s.entries ≡ self.entries)) }
        ensures ran { (h : List Entry) → IsJournal D.disk self h
            → Ran (D.disk self.disk) (D.disk (staged_disk result)) (EncodesNoOutput h (D.disk self.disk).aside) }
        ensures room { RoomBy result self.limit (size_with self (entry r.now)) }
        ensures fault { IfErr result (λ f. MatchStageFault f
            (λ j. j ≡ self)
            (λ d. Rose (D.disk self.disk).faults (D.disk d).faults)) }
        ensures same_count { OnOk result ((D.disk (staged_disk result)).faults ≡ (D.disk self.disk).faults) }
        ensures uncut { IsUncut (D.disk self.disk) (D.disk (staged_disk result)) }
        ensures known { IfOk result (λ s. IsSome s.chain) }
    {
        payloads_are_short();
        if self.is_full(r.payload_len()) {
            return Err(StageFault::Full(self));
        }
        let journal = match self.find_chain() {
            Ok((journal, _)) => journal,
            Err(halted) => return Err(StageFault::Disk(halted)),
        };
        match journal.stage_next(r) {
            Ok(staged) => Ok(staged),
            Err(StageFault::Full(_journal)) => unreachable!(),
            Err(StageFault::Disk(halted)) => Err(StageFault::Disk(halted)),
        }
    }

    /// Whether the journal would pass its limit with one entry more, with a payload of so many bytes.
    pub(crate) fn is_full(&self, payload: u64) -> bool
        requires { payload < PAYLOAD_BOUND }
        ensures { IsTrue result ↔ (self.now.limit < self.now.size + framed_size payload (tail_bytes self.now.switched)) }
    {
        self.at.limit <= self.at.gate + payload + tail_len(self.at.switched) + FRAME
    }

    /// Stages an entry; where it is a Switch, the chain of the entries is known.
    fn stage_next(self, r: &Record<'_>) -> Result<Staged<D>, StageFault<D>>
        requires fits { Fits (entry r.now) }
        requires known { is_switch (entry r.now) ≡ true → IsSome self.chain }
        ensures moved { D.disk_moved self.disk (staged_disk result) }
        ensures staged { IfOk result (λ s. (h : List Entry) → IsJournal D.disk self h
            → IsStaged D.disk s h (entry r.now)) }
        ensures limit { IfOk result (λ s. (s.limit ≡ self.limit) × (s.entries ≡ self.entries)) }
        ensures ran { (h : List Entry) → IsJournal D.disk self h
            → Ran (D.disk self.disk) (D.disk (staged_disk result)) (EncodesNoOutput h (D.disk self.disk).aside) }
        ensures room { RoomBy result self.limit (size_with self (entry r.now)) }
        ensures fault { IfErr result (λ f. MatchStageFault f
            (λ j. j ≡ self)
            (λ d. Rose (D.disk self.disk).faults (D.disk d).faults)) }
        ensures same_count { OnOk result ((D.disk (staged_disk result)).faults ≡ (D.disk self.disk).faults) }
        ensures uncut { IsUncut (D.disk self.disk) (D.disk (staged_disk result)) }
        ensures keeps { IsSome self.chain → IfOk result (λ s. IsSome s.chain) }
    {
        let Journal { disk, at } = self;
        let (mut disk, mut at) = (disk, at);
        let (block, chain) = put_block(&mut at.buf, r, at.switched, at.chain);
        if at.limit <= at.gate + block as u64 {
            return Err(StageFault::Full(Journal { disk, at }));
        }
        if disk.write_at(at.gate + 1, &at.buf[..block]).is_err() {
            return Err(StageFault::Disk(Halted { disk }));
        }
        if disk.sync().is_err() {
            return Err(StageFault::Disk(Halted { disk }));
        }
        let switched = stands_with(at.switched, r.is_switch());
        let next = Next {
            gate: at.gate + block as u64,
            switched,
            chain,
        };
        Ok(Staged { disk, at, next })
    }

    /// Writes an entry behind the closed gate, and opens the gate: it lasts then. It takes no memory.
    ///
    /// A crash in this call leaves the entries with the new one or without it. `Full` comes exactly where
    /// the journal would pass its limit, and hands it back unchanged; `Disk` only where the disk failed.
    pub fn append(self, r: &Record<'_>) -> Result<(Journal<D>, Receipt), StageFault<D>>
        requires { Fits (entry r.now) }
        ensures moved { D.disk_moved self.disk (written_disk result) }
        ensures written { IfOk result (λ w. (h : List Entry) → IsJournal D.disk self h
            → IsJournal D.disk w.0 (h ++ entry r.now ∷ []) × (w.1 ≡ length h)) }
        ensures limit { IfOk result (λ w. w.0.limit ≡ self.limit) }
        // Each crash pair of the call encodes the entries with the new one or without it, and nothing is
        // sent.
        ensures ran { (h : List Entry) → IsJournal D.disk self h
            → Ran (D.disk self.disk) (D.disk (written_disk result)) (EitherNoOutput h (entry r.now) (D.disk self.disk).aside) }
        ensures room { RoomBy result self.limit (size_with self (entry r.now)) }
        ensures full { (h : List Entry) → self.size ≡ size h → self.switched ≡ has_switch h
            → RoomBy result self.limit (size h + entry_size h (entry r.now)) }
        ensures fault { IfErr result (λ f. MatchStageFault f
            (λ j. j ≡ self)
            (λ d. Rose (D.disk self.disk).faults (D.disk d).faults)) }
        ensures same_count { OnOk result ((D.disk (written_disk result)).faults ≡ (D.disk self.disk).faults) }
        ensures uncut { IsUncut (D.disk self.disk) (D.disk (written_disk result)) }
        ensures known { IfOk result (λ w. is_switch (entry r.now) ≡ true → IsSome w.0.chain) }
        ensures keeps { IsSome self.chain → IfOk result (λ w. IsSome w.0.chain) }
    {
        let staged = match self.stage(r) {
            Ok(staged) => staged,
            Err(fault) => return Err(fault),
        };
        match staged.open_gate() {
            Ok(opened) => Ok(opened),
            Err(halted) => Err(StageFault::Disk(halted)),
        }
    }

    /// The place after the closed gate: how many bytes of the disk mean something.
    pub fn size(&self) -> u64
        ensures { result ≡ self.now.size }
    {
        self.at.gate + 1
    }

    /// How many entries there are.
    pub fn entries(&self) -> u64
        ensures { result ≡ self.now.entries }
    {
        self.at.entries
    }

    /// Whether a Switch is among the entries, so that the next one has its chain behind it.
    pub fn is_switched(&self) -> bool
        ensures value { result ≡ self.now.switched }
        ensures known { result ≡ true → IsSome self.now.chain }
    {
        self.at.switched
    }

    /// The chain of the entries, where it is known.
    pub fn chain(&self) -> Option<[u8; 32]>
        ensures { result ≡ self.now.chain }
    {
        self.at.chain
    }

    /// The chain of the entries: where it is not known, the entries are read from the disk once more. Nothing is
    /// written, and it takes no memory.
    pub fn find_chain(self) -> Result<(Journal<D>, [u8; 32]), Halted<D>>
        ensures moved { D.disk_moved self.disk (opened_disk result) }
        ensures read { OnlyRead (D.disk self.disk) (D.disk (opened_disk result)) }
        ensures stands { IfOk result (λ r. (h : List Entry) → IsJournal D.disk self h
            → IsJournal D.disk r.0 h) }
        ensures known { IfOk result (λ r. r.0.chain ≡ Some r.1) }
        ensures same { IfOk result (λ r. (r.0.size ≡ self.size) × (r.0.entries ≡ self.entries)
            × (r.0.limit ≡ self.limit) × (r.0.switched ≡ self.switched)) }
        ensures fault { OnErr result (Rose (D.disk self.disk).faults (D.disk (opened_disk result)).faults) }
        ensures same_count { OnOk result ((D.disk (opened_disk result)).faults ≡ (D.disk self.disk).faults) }
    {
        if let Some(chain) = self.chain() {
            return Ok((self, chain));
        }
        let mut replay = Replay::behind(self);
        match replay.find_chain() {
            Ok(chain) => Ok((replay.rest(), chain)),
            Err(DiskFault) => Err(Halted {
                disk: replay.close(),
            }),
        }
    }

    /// The disk, as it is.
    pub fn close(self) -> D
        ensures { result ≡ self.disk }
    {
        let Journal { disk, at: _ } = self;
        disk
    }
}

impl<D> Halted<D> {
    /// The disk, as it is.
    pub fn close(self) -> D
        ensures { result ≡ self }
    {
        let Halted { disk } = self;
        disk
    }
}

impl Receipt {
    /// The number of the entry, from 0.
    pub fn number(&self) -> u64
        ensures { result ≡ self.now }
    {
        self.number
    }
}
