//! Reading a journal from its first entry on.

ghost use Rattle.std.specs.Prelude.{◌≡◌, ◌≢◌, ◌↔◌, ◌⊎◌, ◌+◌, ◌-◌, ◌^◌, ◌≤◌, ◌<◌, ◌++◌, [], ◌∷◌, List, ℕ, length, take, drop, slice_range, vec_len, option_map, IfOk, IfErr, OnOk, IfSome, IsSome, Err, Some, None, IsTrue, true, false};
ghost use Rattle.std.specs.Int.{w32, to_be_bytes, from_be_bytes};
ghost use Rattle.mc_outside.specs.Bytes.{BeginsWith, HasCause};
ghost use Rattle.mc_outside.specs.DiskView.{OnlyRead};
ghost use Rattle.mc_records.specs.Chains.{first_chain};
ghost use Rattle.mc_records.specs.Entry.{Entry, Fits, payload};
ghost use Rattle.mc_records.specs.Sizes.{tail_bytes};
ghost use Rattle.mc_records.specs.Views.{entry};
ghost use Rattle.scrip_journal.specs.States.{IsReading, IsJournal, MayGoOn, chain_with};
ghost use Rattle.scrip_journal.specs.Layout.{header};
ghost use Rattle.scrip_journal.specs.Replays.{Advanced, ReadAhead, LookedOn, FaultsBy, IsMalformed, IsPayload, IsFrame, IsTold, EndsHere, EndsBehind, EndsReading, IsCut, AllHeld, TookEntry, FoundHeader, RestsBehind};
ghost use Rattle.mc_records.specs.declared.sizes.TheConstants.{PAYLOAD_BOUND};
ghost use Rattle.scrip_journal.specs.declared.ending.Ending.TheVariants.{Closed};

use crate::chain::{chain_with, known_chain};
use crate::cursor::{BUFFER, Cursor, FIRST_GATE, stands_with};
use crate::ending::{Ending, ReplayFault};
use crate::journal::Journal;
use mc_outside::{Disk, DiskFault};
use mc_records::{FIRST_CHAIN, PAYLOAD_BOUND, Record, begins_switch, read_record, tail_len};
use mc_requests::Limits;
use std::marker::Model;

/// What a journal begins with.
const HEADER: [u8; 8] = *b"MCJRNL1\n";

/// No journal goes past this place.
const LAST_PLACE: u64 = Limits::MOST_JOURNAL;

/// A journal that is read, entry by entry, from its first on. It owns its disk and never lends it.
/// Contracts see the disk, the place of the next gate, how many entries stand before it, whether a Switch is among
/// them, their chain, where it is known, the chain of those before the one found last, where that is a Switch, the bytes
/// from the gate on that were read ahead, the payload found last and the place of its first byte, and how the reading ended.
///
/// The disk is read once, in large pieces, and where an entry may be a Switch what is before the first such once more, for
/// its chain: of a book without one no chain is computed.
pub struct Replay<D> {
    disk: D,
    pub(crate) gate: u64,
    pub(crate) entries: u64,
    limit: u64,
    switched: bool,
    pub(crate) chain: Option<[u8; 32]>,
    before: [u8; 32],
    buf: Vec<u8>,
    // the bytes read ahead lie in `start..end` of the buffer, and the payload found last before, in `from..to`
    start: usize,
    end: usize,
    from: usize,
    to: usize,
    // the place of that payload's first byte
    at: u64,
    ended: Option<Ending>,
}

/// An entry that was looked at: the length of its payload, whether that can only be a Switch's, and the chain of the entries
/// up to and with it, where it is known. Its payload was not read, and may be malformed.
#[derive(Clone, Copy)]
pub(crate) struct Found {
    bytes: usize,
    switches: bool,
    chain: Option<[u8; 32]>,
}

impl<D> Model for Replay<D> {
    ghost use Rattle.std.specs.Prelude.{◌≡◌, ◌+◌, ◌-◌, ◌<◌, ◌≤◌, ◌^◌, length, slice_range};
    ghost use Rattle.scrip_journal.specs.States.{Reading, IsKnown};
    ghost use Rattle.scrip_journal.specs.declared.cursor.TheConstants.{BUFFER};
    ghost use Rattle.mc_requests.specs.declared.limits.TheConstants.Limits.{MOST_JOURNAL};

    ghost Value = { Reading D };

    ghost view = { λ r. record { disk = r.disk; gate = r.gate; entries = r.entries; limit = r.limit; switched = r.switched; chain = r.chain; before = r.before; held = slice_range r.buf.items r.start r.end; last = slice_range r.buf.items r.from r.to; at = r.at; ended = r.ended } };

    ghost invariant = { λ r. ((r.gate < MOST_JOURNAL) × (r.entries ≤ r.gate) × (r.limit ≤ MOST_JOURNAL) × (length r.buf.items ≡ BUFFER) × (r.start ≤ r.end) × (r.end ≤ BUFFER) × (r.from ≤ r.to) × (r.to ≤ r.start) × (r.at + (r.to - r.from) ≤ MOST_JOURNAL)) × IsKnown r.switched r.chain };
}

impl<D: Disk> Replay<D> {
    /// Finds the next entry and answers the place of its gate; `None` exactly at a closed gate.
    /// [`Replay::record`] then reads the entry, and says where its payload is malformed. It takes no memory.
    ///
    /// `BadRecord` comes where the bytes can't stand, with the least of these places that applies: the
    /// disk's end where a gate, a length, a payload or a chain should go on; a length of 131,066 or more, and one
    /// with which the entry, its chain and its closed gate would go past 2^40 bytes, each at its first byte; before
    /// a chain that is cut or another, and before one that has yet to be found, in a payload the place that
    /// [`read_record`] gives. `BadChain` comes where 32 whole bytes of a chain are another than that of the entries.
    /// `Disk` comes only where the disk failed. After `None` or a fault the same answer comes again. After a fault of
    /// [`Replay::record`] this can't be called: only that call's Ok says that the next entry may be looked for.
    pub fn next_record(&mut self) -> Result<Option<u64>, ReplayFault>
        requires goes_on { MayGoOn self.old }
        ensures { Advanced D.disk D.disk_moved self.old result self.new }
    {
        if let Some(ending) = self.ended {
            return ending.answer();
        }
        self.from = 0;
        self.to = 0;
        match self.look_known() {
            Ok(found) => Ok(Some(self.advance(&found))),
            Err(ending) => {
                self.ended = Some(ending);
                ending.answer()
            }
        }
    }

    /// The entry that was found last, which lies in the buffer up to the next call of
    /// [`Replay::next_record`]. Its values are in the ranges of its kind. `BadRecord` comes exactly where its payload is
    /// malformed, with the place that [`read_record`] gives, and comes again as long as nothing else is looked for; the bytes
    /// then encode no entries, and [`Replay::next_record`] can't be called.
    pub fn record(&self) -> Result<Record<'_>, ReplayFault>
        ensures read { IfOk result (λ r. Fits (entry r) × (self.now.last ≡ payload (entry r))) }
        ensures fault { IfErr result (IsMalformed self.now) }
        ensures goes_on { OnOk result (MayGoOn self.now) }
    {
        match read_record(&self.buf[self.from..self.to]) {
            Ok(record) => Ok(record),
            Err(fault) => Err(ReplayFault::BadRecord {
                place: self.at + fault.place as u64,
            }),
        }
    }

    /// The chain of the entries before the one that was found last, where that is a Switch; else any 32 bytes.
    pub fn chain_before(&self) -> [u8; 32]
        ensures { result ≡ self.now.before }
    {
        self.before
    }

    /// A reading from the front of the disk on.
    pub(crate) fn at_front(disk: D, limit: u64, buf: Vec<u8>) -> Replay<D>
        requires limit { limit ≤ Limits.MOST_JOURNAL }
        requires buffer { length buf.items ≡ BUFFER }
        ensures { result ≡ record { disk = disk; gate = 0; entries = 0; limit = limit; switched = false; chain = None; before = first_chain; held = []; last = []; at = 0; ended = None } }
    {
        Replay {
            disk,
            gate: 0,
            entries: 0,
            limit,
            switched: false,
            chain: None,
            before: FIRST_CHAIN,
            buf,
            start: 0,
            end: 0,
            from: 0,
            to: 0,
            at: 0,
            ended: None,
        }
    }

    /// Reads the header at the front of the disk. False where another eight bytes, or fewer, stand there.
    pub(crate) fn read_header(&mut self) -> Result<bool, DiskFault>
        requires { self.old ≡ record { disk = self.old.disk; gate = 0; entries = 0; limit = self.old.limit; switched = false; chain = None; before = first_chain; held = []; last = []; at = 0; ended = None } }
        ensures moved { D.disk_moved self.old.disk self.new.disk }
        ensures only_read { OnlyRead (D.disk self.old.disk) (D.disk self.new.disk) }
        ensures cause { HasCause (D.disk self.old.disk).faults (D.disk self.new.disk).faults result }
        ensures found { IfOk result (λ found. found ≡ true → FoundHeader self.old self.new) }
        ensures begins { IfOk result (λ found. found ≡ true → (x : List ℕ)
            → (D.disk self.old.disk).contents ≡ Some x
            → BeginsWith (header ++ self.new.held) x) }
        ensures other { IfOk result (λ found. found ≡ false → (x : List ℕ)
            → (D.disk self.old.disk).contents ≡ Some x
            → BeginsWith header x → ⊥) }
    {
        match self.hold(8) {
            Ok(()) => {}
            Err(Ending::Failed) => return Err(DiskFault),
            Err(Ending::Closed) => return Ok(false),
            Err(Ending::Spoiled(_)) => return Ok(false),
            Err(Ending::Unchained { .. }) => return Ok(false),
        }
        if !self.holds_header() {
            return Ok(false);
        }
        self.start += 8;
        self.gate = FIRST_GATE;
        Ok(true)
    }

    /// Whether the bytes held begin with the header.
    fn holds_header(&self) -> bool
        requires { 8 ≤ length self.now.held }
        ensures { IsTrue result ↔ (take 8 self.now.held ≡ header) }
    {
        &self.buf[self.start..self.start + 8] == HEADER.as_slice()
    }

    /// The journal at rest, behind its last entry.
    pub fn finish(self) -> Journal<D>
        requires { self.ended ≡ Some Closed }
        ensures disk { (result.disk ≡ self.disk) × (result.limit ≡ self.limit)
            × (result.entries ≡ self.entries) × (result.switched ≡ self.switched)
            × (result.chain ≡ self.chain) }
        ensures size { result.size ≡ self.gate + 1 }
        ensures journal { (h : List Entry) → IsReading D.disk self h → IsJournal D.disk result h }
    {
        self.rest()
    }

    /// A journal that rests behind the last entry that was read.
    pub(crate) fn rest(self) -> Journal<D>
        ensures { RestsBehind self result }
    {
        let Replay {
            disk,
            gate,
            entries,
            limit,
            switched,
            chain,
            before: _,
            buf,
            start: _,
            end: _,
            from: _,
            to: _,
            at: _,
            ended: _,
        } = self;
        let at = Cursor {
            gate,
            entries,
            limit,
            switched,
            chain,
            buf,
        };
        Journal { disk, at }
    }

    /// A reading that stands behind the last entry of a journal.
    pub(crate) fn behind(journal: Journal<D>) -> Replay<D>
        ensures rests { RestsBehind result journal }
        ensures going { (result.held ≡ []) × (result.ended ≡ None) }
    {
        let Journal { disk, at } = journal;
        let Cursor {
            gate,
            entries,
            limit,
            switched,
            chain,
            buf,
        } = at;
        Replay {
            disk,
            gate,
            entries,
            limit,
            switched,
            chain,
            before: FIRST_CHAIN,
            buf,
            start: 0,
            end: 0,
            from: 0,
            to: 0,
            at: 0,
            ended: None,
        }
    }

    /// Stands at the gate at this place, behind so many entries, none of which is a Switch, with nothing held.
    pub(crate) fn stand_at(&mut self, gate: u64, entries: u64, chain: Option<[u8; 32]>)
        requires gate { gate < Limits.MOST_JOURNAL }
        requires entries { entries ≤ gate }
        ensures { self.new ≡ record self.old { gate = gate; entries = entries; switched = false; chain = chain; held = []; last = []; at = 0 } }
    {
        self.gate = gate;
        self.entries = entries;
        self.switched = false;
        self.chain = chain;
        self.start = 0;
        self.end = 0;
        self.from = 0;
        self.to = 0;
        self.at = 0;
    }

    /// The disk, as it is.
    pub fn close(self) -> D
        ensures { result ≡ self.disk }
    {
        let Replay {
            disk,
            gate: _,
            entries: _,
            limit: _,
            switched: _,
            chain: _,
            before: _,
            buf: _,
            start: _,
            end: _,
            from: _,
            to: _,
            at: _,
            ended: _,
        } = self;
        disk
    }

    /// Looks for an entry behind the next gate. Where it may be a Switch the chain of the entries before it is known then:
    /// before the first Switch it is found now, unless the payload is malformed, and what is behind the gate is read anew.
    fn look_known(&mut self) -> Result<Found, Ending>
        requires going { self.old.ended ≡ None }
        ensures moved { D.disk_moved self.old.disk self.new.disk }
        ensures looked { LookedOn D.disk self.old self.new }
        ensures cause { FaultsBy result (D.disk self.old.disk).faults (D.disk self.new.disk).faults }
        ensures frame { IfOk result
            (λ f. IsFrame f self.new.switched self.new.chain self.new.gate self.new.held) }
        ensures known { IfOk result (λ f. f.switches ≡ true → IsSome self.new.chain) }
        ensures ends { IfErr result (EndsReading D.disk self.old) }
    {
        let found = match self.look() {
            Ok(found) => found,
            Err(ending) => return Err(ending),
        };
        if !found.switches || self.chain.is_some() {
            return Ok(found);
        }
        if let Err(fault) = read_record(self.payload(found.bytes)) {
            return Err(Ending::Spoiled(self.gate + 5 + fault.place as u64));
        }
        if self.find_chain().is_err() {
            return Err(Ending::Failed);
        }
        self.look()
    }

    /// Looks for an entry behind the next gate. It is then wholly in the buffer, with its chain where it has one;
    /// or the reading ends here.
    pub(crate) fn look(&mut self) -> Result<Found, Ending>
        ensures moved { D.disk_moved self.old.disk self.new.disk }
        ensures ahead { ReadAhead D.disk self.old self.new }
        ensures cause { FaultsBy result (D.disk self.old.disk).faults (D.disk self.new.disk).faults }
        ensures frame { IfOk result
            (λ f. IsFrame f self.new.switched self.new.chain self.new.gate self.new.held) }
        ensures ends { IfErr result (EndsHere D.disk self.old) }
    {
        let bytes = match self.look_payload() {
            Ok(bytes) => bytes,
            Err(ending) => return Err(ending),
        };
        match self.look_chain(bytes) {
            Ok(chain) => Ok(Found {
                bytes,
                switches: begins_switch(self.payload(bytes)),
                chain,
            }),
            Err(ending) => Err(ending),
        }
    }

    /// Looks for a payload behind the next gate, and answers its length. It is then wholly in the buffer, and may be
    /// malformed.
    fn look_payload(&mut self) -> Result<usize, Ending>
        ensures moved { D.disk_moved self.old.disk self.new.disk }
        ensures ahead { ReadAhead D.disk self.old self.new }
        ensures cause { FaultsBy result (D.disk self.old.disk).faults (D.disk self.new.disk).faults }
        ensures payload { IfOk result
            (λ n. IsPayload n self.new.switched self.new.gate self.new.held) }
        ensures ends { IfErr result (EndsHere D.disk self.old) }
    {
        if let Err(ending) = self.hold(1) {
            return Err(ending);
        }
        if !self.is_open() {
            return Err(Ending::Closed);
        }
        if let Err(ending) = self.hold(5) {
            return Err(ending);
        }
        let length = self.payload_length();
        if self.is_far(length) {
            return Err(Ending::Spoiled(self.gate + 1));
        }
        let length = length as usize;
        if let Err(ending) = self.hold(length + 5) {
            return Err(ending);
        }
        Ok(length)
    }

    /// Looks for the chain behind a payload of this length, where a Switch stands, and answers the one that is
    /// computed, where that before it is known. Where it does not stand there, a malformed payload is told first.
    fn look_chain(&mut self, bytes: usize) -> Result<Option<[u8; 32]>, Ending>
        requires payload { IsPayload bytes self.old.switched self.old.gate self.old.held }
        ensures moved { D.disk_moved self.old.disk self.new.disk }
        ensures ahead { ReadAhead D.disk self.old self.new }
        ensures cause { FaultsBy result (D.disk self.old.disk).faults (D.disk self.new.disk).faults }
        ensures chained { IfOk result (IsTold bytes self.new) }
        ensures ends { IfErr result (EndsHere D.disk self.old) }
    {
        let count = bytes + 5 + tail_len(self.switched) as usize;
        if let Err(ending) = self.hold(count) {
            return Err(self.ends_behind(bytes, ending));
        }
        let computed = chain_with(self.chain, self.payload(bytes));
        if !self.switched {
            return Ok(computed);
        }
        let stood = self.chain_behind(bytes);
        let chain = known_chain(computed);
        if !is_same(&stood, &chain) {
            let ending = Ending::Unchained {
                place: self.gate + 5 + bytes as u64,
                stood,
                computed: chain,
            };
            return Err(self.ends_behind(bytes, ending));
        }
        Ok(computed)
    }

    /// The payload of this length that is held behind the gate.
    fn payload(&self, bytes: usize) -> &[u8]
        requires { bytes + 5 ≤ length self.now.held }
        ensures { result.now ≡ take bytes (drop 5 self.now.held) }
    {
        let from = self.start + 5;
        &self.buf[from..from + bytes]
    }

    /// How a reading ends that ends so behind a payload of this length: where that is malformed, there, unless the disk
    /// failed.
    fn ends_behind(&self, bytes: usize, ending: Ending) -> Ending
        requires { bytes + 5 ≤ length self.now.held }
        ensures { EndsBehind (take bytes (drop 5 self.now.held)) (self.now.gate + 5) ending result }
    {
        match read_record(self.payload(bytes)) {
            Ok(_) => ending,
            Err(fault) => ending.unless_failed(self.gate + 5 + fault.place as u64),
        }
    }

    /// The chain that stands behind a payload of this length.
    fn chain_behind(&self, bytes: usize) -> [u8; 32]
        requires { bytes + 37 ≤ length self.now.held }
        ensures { result ≡ take 32 (drop (bytes + 5) self.now.held) }
    {
        let from = self.start + 5 + bytes;
        let mut chain = [0; 32];
        chain.copy_from_slice(&self.buf[from..from + 32]);
        chain
    }

    /// Whether the gate is open.
    fn is_open(&self) -> bool
        requires { 1 ≤ length self.now.held }
        ensures opened { result ≡ true → BeginsWith (1 ∷ []) self.now.held }
        ensures closed { result ≡ false → (byte : ℕ) × BeginsWith (byte ∷ []) self.now.held
            × (byte ≢ 1) }
    {
        self.buf[self.start] == 1
    }

    /// The length that stands behind the gate.
    fn payload_length(&self) -> u64
        requires { 5 ≤ length self.now.held }
        ensures value { result ≡ from_be_bytes w32 (take 4 (drop 1 self.now.held)) }
        ensures bytes { take 4 (drop 1 self.now.held) ≡ to_be_bytes w32 result }
        ensures gate { self.now.gate < Limits.MOST_JOURNAL }
    {
        let from = self.start + 1;
        length_at(&self.buf[from..from + 4])
    }

    /// Whether a payload of this length can't stand behind the gate: no payload is so long, or its entry would go
    /// past the last place.
    fn is_far(&self, length: u64) -> bool
        ensures wrong { result ≡ true → (PAYLOAD_BOUND ≤ length)
            ⊎ (Limits.MOST_JOURNAL < self.now.gate + length + tail_bytes self.now.switched + 6) }
        ensures right { result ≡ false → (length < PAYLOAD_BOUND)
            × (self.now.gate + length + tail_bytes self.now.switched + 6 ≤ Limits.MOST_JOURNAL) }
    {
        if length >= PAYLOAD_BOUND {
            return true;
        }
        LAST_PLACE < self.gate + length + tail_len(self.switched) + 6
    }

    /// Reads on until so many bytes are held, from the gate on; where the disk ends before, its end is the
    /// place from which on the bytes can't stand.
    fn hold(&mut self, count: usize) -> Result<(), Ending>
        requires { count ≤ BUFFER }
        ensures moved { D.disk_moved self.old.disk self.new.disk }
        ensures ahead { ReadAhead D.disk self.old self.new }
        ensures cause { FaultsBy result (D.disk self.old.disk).faults (D.disk self.new.disk).faults }
        ensures enough { OnOk result (count ≤ length self.new.held) }
        ensures short { IfErr result (IsCut D.disk self.old self.new count) }
    {
        'pieces: while self.end - self.start < count {
            match self.read_piece() {
                Ok(0) => return Err(Ending::Spoiled(self.disk_end())),
                Ok(_) => {}
                Err(DiskFault) => return Err(Ending::Failed),
            }
        }
        Ok(())
    }

    /// The place behind the bytes held.
    fn disk_end(&self) -> u64
        ensures { result ≡ self.now.gate + length self.now.held }
    {
        self.gate + (self.end - self.start) as u64
    }

    /// Reads a piece behind the bytes held. Answers how many bytes that are: 0 at the disk's end.
    fn read_piece(&mut self) -> Result<usize, DiskFault>
        requires room { length self.old.held < BUFFER }
        ensures moved { D.disk_moved self.old.disk self.new.disk }
        ensures ahead { ReadAhead D.disk self.old self.new }
        ensures cause { HasCause (D.disk self.old.disk).faults (D.disk self.new.disk).faults result }
        ensures more { IfOk result (λ n. length self.new.held ≡ length self.old.held + n) }
        ensures end { IfOk result (λ n. n ≡ 0 → AllHeld D.disk self.old self.new) }
    {
        move_to_front(&mut self.buf, self.start, self.end);
        self.end -= self.start;
        self.start = 0;
        self.from = 0;
        self.to = 0;
        let place = self.gate + self.end as u64;
        let read = read_behind(&mut self.disk, place, &mut self.buf, self.end)?;
        self.end += read;
        Ok(read)
    }

    /// Takes the entry that was looked at. Answers the place of its gate.
    pub(crate) fn advance(&mut self, found: &Found) -> u64
        requires frame { IsFrame found.now self.old.switched self.old.chain self.old.gate self.old.held }
        requires known { found.now.switches ≡ true → IsSome self.old.chain }
        ensures { TookEntry self.old found.now result self.new }
    {
        let gate = self.gate;
        let bytes = found.bytes;
        let chain = found.chain;
        let size = bytes + 5 + tail_len(self.switched) as usize;
        self.from = self.start + 5;
        self.to = self.from + bytes;
        self.at = gate + 5;
        self.start += size;
        self.gate = gate + size as u64;
        self.entries += 1;
        self.switched = stands_with(self.switched, found.switches);
        self.before = known_chain(self.chain);
        self.chain = chain;
        gate
    }
}

/// Whether two chains are the same.
fn is_same(a: &[u8; 32], b: &[u8; 32]) -> bool
    ensures { IsTrue result ↔ (a.now ≡ b.now) }
{
    a.as_slice() == b.as_slice()
}

/// The number that four bytes spell, the high one first.
fn length_at(bytes: &[u8]) -> u64
    requires { length bytes.now ≡ 4 }
    ensures value { result ≡ from_be_bytes w32 bytes.now }
    ensures bytes { bytes.now ≡ to_be_bytes w32 result }
{
    u64::from(u32::from_be_bytes([bytes[0], bytes[1], bytes[2], bytes[3]]))
}

/// Moves the bytes from `start` to `end` to the front.
fn move_to_front(buf: &mut Vec<u8>, start: usize, end: usize)
    requires order { start ≤ end }
    requires within { end ≤ vec_len buf.old }
    ensures len { length buf.new.items ≡ length buf.old.items }
    ensures moved { take (end - start) buf.new.items ≡ slice_range buf.old.items start end }
{
    if start > 0 {
        buf.copy_within(start..end, 0);
    }
}

/// Reads a piece of the disk, from this place on, behind the front of the buffer.
fn read_behind<D: Disk>(
    disk: &mut D,
    place: u64,
    buf: &mut Vec<u8>,
    at: usize,
) -> Result<usize, DiskFault>
    requires room { at < vec_len buf.old }
    ensures moved { D.disk_moved disk.old disk.new }
    ensures only_read { OnlyRead (D.disk disk.old) (D.disk disk.new) }
    ensures cause { HasCause (D.disk disk.old).faults (D.disk disk.new).faults result }
    ensures len { length buf.new.items ≡ length buf.old.items }
    ensures front { take at buf.new.items ≡ take at buf.old.items }
    ensures within { IfOk result (λ n. at + n ≤ length buf.new.items) }
    ensures piece { IfOk result (λ n. (x : List ℕ) → (D.disk disk.old).contents ≡ Some x
        → slice_range buf.new.items at (at + n) ≡ take n (drop place x)) }
    ensures end { IfOk result (λ n. n ≡ 0 → (x : List ℕ) → (D.disk disk.old).contents ≡ Some x
        → length x ≤ place) }
{
    disk.read(place, &mut buf[at..])
}
