//! Entries that are gathered in memory and written together, behind one gate.

ghost use Rattle.std.specs.Prelude.{◌≡◌, ◌⊎◌, ◌+◌, ◌≤◌, ◌<◌, ◌++◌, ◌∷◌, ◌↔◌, [], List, length, take, IfOk, OnOk, OnErr, IfSome, IfNone, IsSome, IsTrue, None, true};
ghost use Rattle.mc_outside.specs.Bytes.{Rose};
ghost use Rattle.mc_outside.specs.DiskView.{Ran};
ghost use Rattle.mc_records.specs.Entry.{Entry, Fits};
ghost use Rattle.mc_records.specs.Chains.{is_switch};
ghost use Rattle.mc_records.specs.Sizes.{framed_size, tail_bytes};
ghost use Rattle.mc_records.specs.Views.{entry};
ghost use Rattle.scrip_journal.specs.States.{IsJournal};
ghost use Rattle.scrip_journal.specs.Exits.{EncodesNoOutput};
ghost use Rattle.scrip_journal.specs.Batches.{IsBatch, IsBatchWritten, AllOrNone, batch_disk, committed_disk, with_entry, block_with};
ghost use Rattle.scrip_journal.specs.declared.cursor.TheConstants.{BUFFER};
ghost use Rattle.mc_records.specs.declared.sizes.TheConstants.{PAYLOAD_BOUND};

use crate::cursor::{BUFFER, Cursor, put_block_at, stands_with};
use crate::journal::{Halted, Journal};
use mc_outside::Disk;
use mc_records::{FRAME, Record, payloads_are_short, tail_len};
use std::marker::Model;

/// A journal at rest, and entries behind it that are only in memory yet. [`Batch::commit`] writes them all together: a
/// crash leaves all of them or none. Contracts see the disk, the place of its closed gate, the bytes of the entries
/// gathered, each behind an open gate, how many entries the disk has, and of all entries how many there are, whether a
/// Switch is among them and their chain, where it is known.
pub struct Batch<D> {
    pub(crate) disk: D,
    // the gate is the closed one on the disk, and the buffer begins with it; the rest is of all entries
    at: Cursor,
    // how many bytes the entries gathered have
    bytes: usize,
    // how many entries the disk has
    first: u64,
}

impl<D> Model for Batch<D> {
    ghost use Rattle.std.specs.Prelude.{◌≡◌, ◌+◌, ◌<◌, ◌≤◌, ◌++◌, ◌∷◌, [], length, take};
    ghost use Rattle.scrip_journal.specs.Batches.{InBatch};
    ghost use Rattle.scrip_journal.specs.States.{IsKnown};
    ghost use Rattle.scrip_journal.specs.declared.cursor.TheConstants.{BUFFER};
    ghost use Rattle.mc_requests.specs.declared.limits.TheConstants.Limits.{MOST_JOURNAL};

    ghost Value = { InBatch D };

    ghost view = { λ b. record { disk = b.disk; gate = b.at.gate; block = take b.bytes b.at.buf.items; first = b.first; entries = b.at.entries; limit = b.at.limit; switched = b.at.switched; chain = b.at.chain } };

    ghost invariant = { λ b. ((b.at.gate + b.bytes < MOST_JOURNAL) × (b.at.entries ≤ b.at.gate + b.bytes) × (b.first ≤ b.at.entries) × (b.at.limit ≤ MOST_JOURNAL) × (length b.at.buf.items ≡ BUFFER) × (b.bytes < BUFFER)) × ((take (b.bytes + 1) b.at.buf.items ≡ take b.bytes b.at.buf.items ++ 0 ∷ []) × IsKnown b.at.switched b.at.chain) };
}

/// What says that the entries of these numbers are on the disk, each behind an open gate: so many, from the first one on.
/// Only [`Batch::commit`] makes one.
#[derive(Debug, Drop)]
pub struct Receipts {
    first: u64,
    count: u64,
}

impl Model for Receipts {
    ghost use Rattle.scrip_journal.specs.Batches.{ReceiptsView};

    ghost Value = { ReceiptsView };

    ghost view = { λ r. record { first = r.first; count = r.count } };
}

impl Receipts {
    /// The number of the first of the entries, from 0.
    pub fn first(&self) -> u64
        ensures { result ≡ self.now.first }
    {
        self.first
    }

    /// How many entries they are.
    pub fn count(&self) -> u64
        ensures { result ≡ self.now.count }
    {
        self.count
    }
}

impl<D: Disk> Journal<D> {
    /// The journal, with nothing gathered behind it. It takes no memory.
    pub fn gather(self) -> Batch<D>
        ensures same { (result.disk ≡ self.disk) × (result.limit ≡ self.limit) × (result.entries ≡ self.entries)
            × (result.first ≡ self.entries) × (result.block ≡ []) × (result.chain ≡ self.chain) }
        ensures gathers { (h : List Entry) → IsJournal D.disk self h
            → IsBatch D.disk result h [] }
    {
        let Journal { disk, at } = self;
        let (disk, mut at) = (disk, at);
        close_front(&mut at.buf);
        let first = at.entries;
        Batch {
            disk,
            at,
            bytes: 0,
            first,
        }
    }
}

/// Closes the gate at the front of the buffer.
fn close_front(buf: &mut Vec<u8>)
    requires { length buf.old.items ≡ BUFFER }
    ensures len { length buf.new.items ≡ BUFFER }
    ensures closed { take 1 buf.new.items ≡ 0 ∷ [] }
{
    buf[0] = 0;
}

impl<D: Disk> Batch<D> {
    /// Gathers one entry more, in memory alone, and answers its number, from 0. It takes no memory.
    ///
    /// None comes exactly where it does not fit: the journal would pass its limit, or the buffer has no room for it. Nothing
    /// is then changed. Where nothing is gathered the buffer has room for every entry.
    pub fn put(&mut self, r: &Record<'_>) -> Option<u64>
        requires fits { Fits (entry r.now) }
        requires known { is_switch (entry r.now) ≡ true → IsSome self.old.chain }
        ensures disk { self.new.disk ≡ self.old.disk }
        ensures same { (self.new.gate ≡ self.old.gate) × (self.new.first ≡ self.old.first) × (self.new.limit ≡ self.old.limit) }
        ensures none { IfNone result (self.new ≡ self.old) }
        ensures number { IfSome result (λ n. (n ≡ self.old.entries) × (self.new.entries ≡ n + 1)) }
        ensures room { (result ≡ None) ↔ ((self.old.limit < with_entry self.old (entry r.now)) ⊎ (BUFFER < block_with self.old (entry r.now))) }
        ensures gathered { IfSome result (λ n. (h es : List Entry) → IsBatch D.disk self.old h es
            → IsBatch D.disk self.new h (es ++ entry r.now ∷ [])) }
    {
        payloads_are_short();
        if !self.has_room(r.payload_len()) {
            return None;
        }
        let switched = self.at.switched;
        let (bytes, chain) = put_block_at(&mut self.at.buf, self.bytes, r, switched, self.at.chain);
        self.bytes += bytes;
        self.at.switched = stands_with(switched, r.is_switch());
        self.at.chain = chain;
        let number = self.at.entries;
        self.at.entries = number + 1;
        Some(number)
    }

    /// Whether an entry with a payload of so many bytes fits the limit and the buffer.
    fn has_room(&self, payload: u64) -> bool
        requires { payload < PAYLOAD_BOUND }
        ensures { IsTrue result ↔ ((self.now.gate + 1 + length self.now.block + framed_size payload (tail_bytes self.now.switched) ≤ self.now.limit)
            × (length self.now.block + 1 + framed_size payload (tail_bytes self.now.switched) ≤ BUFFER)) }
    {
        let framed = payload + tail_len(self.at.switched) + FRAME;
        let size = self.at.gate + self.bytes as u64 + framed;
        size < self.at.limit && self.bytes as u64 + framed < BUFFER as u64
    }

    /// Writes the entries gathered behind the closed gate, all together, waits until they last, and opens the gate: they
    /// all stand then. Where nothing is gathered nothing is done. It takes no memory.
    ///
    /// A crash in this call leaves the entries with all of those gathered or with none of them. `Err` comes only where the
    /// disk failed.
    pub fn commit(self) -> Result<(Batch<D>, Receipts), Halted<D>>
        ensures moved { D.disk_moved self.disk (committed_disk result) }
        ensures committed { IfOk result (λ r. (h es : List Entry) → IsBatch D.disk self h es
            → IsBatch D.disk r.0 (h ++ es) []) }
        ensures receipts { IfOk result (λ r. (r.1.first ≡ self.first) × (r.1.first + r.1.count ≡ self.entries)) }
        ensures same { IfOk result (λ r. (r.0.limit ≡ self.limit) × (r.0.entries ≡ self.entries) × (r.0.block ≡ [])) }
        // Each crash pair of the call encodes the entries with all of those gathered or with none, and nothing is sent.
        ensures ran { (h es : List Entry) → IsBatch D.disk self h es
            → Ran (D.disk self.disk) (D.disk (committed_disk result)) (AllOrNone h es (D.disk self.disk).aside) }
        ensures fault { OnErr result (Rose (D.disk self.disk).faults (D.disk (committed_disk result)).faults) }
        ensures same_count { OnOk result ((D.disk (committed_disk result)).faults ≡ (D.disk self.disk).faults) }
    {
        let first = self.first;
        let count = self.at.entries - first;
        let receipts = Receipts { first, count };
        if self.bytes == 0 {
            return Ok((self, receipts));
        }
        match self.write() {
            Ok(written) => match written.open() {
                Ok(opened) => Ok((opened, receipts)),
                Err(halted) => Err(halted),
            },
            Err(halted) => Err(halted),
        }
    }

    /// Writes the entries gathered behind the closed gate, and waits until they last.
    fn write(self) -> Result<Batch<D>, Halted<D>>
        requires some { 0 < length self.block }
        ensures moved { D.disk_moved self.disk (batch_disk result) }
        ensures written { IfOk result (λ b. (h es : List Entry) → IsBatch D.disk self h es
            → IsBatchWritten D.disk b h es) }
        ensures same { IfOk result (λ b. b ≡ record self { disk = b.disk }) }
        ensures ran { (h es : List Entry) → IsBatch D.disk self h es
            → Ran (D.disk self.disk) (D.disk (batch_disk result)) (EncodesNoOutput h (D.disk self.disk).aside) }
        ensures fault { OnErr result (Rose (D.disk self.disk).faults (D.disk (batch_disk result)).faults) }
        ensures same_count { OnOk result ((D.disk (batch_disk result)).faults ≡ (D.disk self.disk).faults) }
    {
        let Batch {
            disk,
            at,
            bytes,
            first,
        } = self;
        let (mut disk, at) = (disk, at);
        if disk.write_at(at.gate + 1, &at.buf[1..bytes + 1]).is_err() {
            return Err(Halted { disk });
        }
        if disk.sync().is_err() {
            return Err(Halted { disk });
        }
        Ok(Batch {
            disk,
            at,
            bytes,
            first,
        })
    }

    /// Opens the gate before them, and waits until that lasts.
    fn open(self) -> Result<Batch<D>, Halted<D>>
        requires some { 0 < length self.block }
        ensures moved { D.disk_moved self.disk (batch_disk result) }
        ensures opened { IfOk result (λ b. (h es : List Entry) → IsBatchWritten D.disk self h es
            → IsBatch D.disk b (h ++ es) []) }
        ensures same { IfOk result (λ b. (b.limit ≡ self.limit) × (b.entries ≡ self.entries) × (b.first ≡ self.entries)
            × (b.block ≡ [])) }
        ensures ran { (h es : List Entry) → IsBatchWritten D.disk self h es
            → Ran (D.disk self.disk) (D.disk (batch_disk result)) (AllOrNone h es (D.disk self.disk).aside) }
        ensures fault { OnErr result (Rose (D.disk self.disk).faults (D.disk (batch_disk result)).faults) }
        ensures same_count { OnOk result ((D.disk (batch_disk result)).faults ≡ (D.disk self.disk).faults) }
    {
        let Batch {
            disk,
            at,
            bytes,
            first: _,
        } = self;
        let (mut disk, mut at) = (disk, at);
        if disk.write_at(at.gate, &[1]).is_err() {
            return Err(Halted { disk });
        }
        if disk.sync().is_err() {
            return Err(Halted { disk });
        }
        close_front(&mut at.buf);
        at.gate += bytes as u64;
        let first = at.entries;
        Ok(Batch {
            disk,
            at,
            bytes: 0,
            first,
        })
    }

    /// The journal, where nothing is gathered behind it.
    pub fn rest(self) -> Journal<D>
        requires none { self.block ≡ [] }
        ensures same { (result.disk ≡ self.disk) × (result.limit ≡ self.limit) × (result.entries ≡ self.entries)
            × (result.chain ≡ self.chain) }
        ensures rests { (h : List Entry) → IsBatch D.disk self h [] → IsJournal D.disk result h }
    {
        let Batch {
            disk,
            at,
            bytes: _,
            first: _,
        } = self;
        Journal { disk, at }
    }

    /// How many entries there are, with those gathered.
    pub fn entries(&self) -> u64
        ensures { result ≡ self.now.entries }
    {
        self.at.entries
    }

    /// How many bytes the buffer has room for.
    pub fn room(&self) -> usize
        ensures { result + (length self.now.block + 1) ≡ BUFFER }
    {
        BUFFER - (self.bytes + 1)
    }
}
