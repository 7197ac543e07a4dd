//! Founding a book by its first entry.

ghost use Rattle.std.specs.Prelude.{◌≡◌, ◌+◌, ◌≤◌, [], ◌∷◌, List, ℕ, IfOk, Some, false};
ghost use Rattle.mc_outside.specs.DiskView.{Ran, IsSynced};
ghost use Rattle.mc_records.specs.Entry.{Fits};
ghost use Rattle.mc_requests.specs.Limits.{AreInRange};
ghost use Rattle.mc_records.specs.Sizes.{entry_size};
ghost use Rattle.mc_records.specs.Views.{entry};
ghost use Rattle.scrip_journal.specs.Layout.{Encodes};
ghost use Rattle.scrip_journal.specs.States.{IsJournal};
ghost use Rattle.scrip_journal.specs.Exits.{EitherNoOutput, IsUncut};
ghost use Rattle.scrip_journal.specs.Founds.{FoundsBookBy, CountsBy, ReadsOnly, ShortNoOutput, FoundNoOutput, book_disk, ClearsSmall, EntersFirst, IsOfWriting};

use crate::ending::ReplayFault;
use crate::fault::{HouseFault, OpenFault};
use crate::found::found_journal;
use crate::journal::{Journal, StageFault};
use crate::open::open_journal;
use mc_outside::{Disk, DiskFault};
use mc_records::{EMPTY_JOURNAL, Record};
use mc_requests::Limits;
use std::alloc::Global;

/// Founds a book by its first entry; it may grow to `limits.journal` bytes, for which the entry has room.
///
/// A disk that encodes the empty history is used as it is and not cut, and any other of at most nine bytes is written
/// anew. Any other is left as it is, also where the disk fails: `NotEmpty` has its size. `Disk` comes only where the
/// disk failed, `NoMemory` with nothing written, and no other fault does. A crash in this call leaves what encodes no
/// entries or this one, or what a crash before could have left, and at most nine bytes where the disk is
/// written anew; of any other disk, what a crash before could have left alone.
pub fn found_book<D: Disk>(
    alloc: Global,
    disk: D,
    limits: Limits,
    first: &Record<'_>,
) -> Result<Journal<D>, HouseFault<D>>
    requires limits { AreInRange limits }
    requires fits { Fits (entry first.now) }
    requires room { EMPTY_JOURNAL + entry_size [] (entry first.now) ≤ limits.journal }
    ensures moved { D.disk_moved disk (book_disk result) }
    ensures exact { (x : List ℕ) → (D.disk disk).contents ≡ Some x
        → FoundsBookBy D.disk (entry first.now ∷ []) x result }
    ensures limit { IfOk result (λ j. j.limit ≡ limits.journal) }
    ensures ran { (x : List ℕ) → (D.disk disk).contents ≡ Some x
        → Ran (D.disk disk) (D.disk (book_disk result)) (FoundNoOutput (D.disk disk) (entry first.now)) }
    ensures read { ReadsOnly D.disk disk result }
    ensures fault { CountsBy result (D.disk disk).faults (D.disk (book_disk result)).faults }
    ensures uncut { (x : List ℕ) → (D.disk disk).contents ≡ Some x → Encodes [] x
        → IsUncut (D.disk disk) (D.disk (book_disk result)) }
{
    match empty_book(alloc, disk, limits) {
        Ok(journal) => enter_first(journal, first),
        Err(fault) => Err(fault),
    }
}

/// A journal without entries: what the disk has, where that encodes none, else a new one.
fn empty_book<D: Disk>(alloc: Global, disk: D, limits: Limits) -> Result<Journal<D>, HouseFault<D>>
    requires limits { AreInRange limits }
    ensures moved { D.disk_moved disk (book_disk result) }
    ensures exact { (x : List ℕ) → (D.disk disk).contents ≡ Some x
        → FoundsBookBy D.disk [] x result }
    ensures fresh { IfOk result (λ j. (j.size ≡ EMPTY_JOURNAL) × (j.limit ≡ limits.journal)
        × (j.switched ≡ false)) }
    ensures ran { (x : List ℕ) → (D.disk disk).contents ≡ Some x
        → Ran (D.disk disk) (D.disk (book_disk result)) (ShortNoOutput (D.disk disk)) }
    ensures read { ReadsOnly D.disk disk result }
    ensures fault { CountsBy result (D.disk disk).faults (D.disk (book_disk result)).faults }
    ensures uncut { (x : List ℕ) → (D.disk disk).contents ≡ Some x → Encodes [] x
        → IsUncut (D.disk disk) (D.disk (book_disk result)) }
{
    let mut replay = match open_journal(alloc, disk, limits) {
        Ok(replay) => replay,
        Err(OpenFault::NotJournal(disk)) => return empty_small(alloc, disk, limits),
        Err(OpenFault::Disk(disk)) => return Err(HouseFault::Disk(disk)),
        Err(OpenFault::NoMemory(disk)) => return Err(HouseFault::NoMemory(disk)),
    };
    match replay.next_record() {
        Ok(None) => Ok(replay.finish()),
        Ok(Some(_)) => empty_small(alloc, replay.close(), limits),
        Err(ReplayFault::BadRecord { .. }) => empty_small(alloc, replay.close(), limits),
        Err(ReplayFault::BadChain { .. }) => empty_small(alloc, replay.close(), limits),
        Err(ReplayFault::Disk) => Err(HouseFault::Disk(replay.close())),
    }
}

/// A journal without entries in place of what the disk has, where that is nine bytes at most. The disk was
/// synced, and does not encode the empty history.
fn empty_small<D: Disk>(
    alloc: Global,
    mut disk: D,
    limits: Limits,
) -> Result<Journal<D>, HouseFault<D>>
    requires limits { AreInRange limits }
    ensures moved { D.disk_moved disk (book_disk result) }
    ensures exact { (x : List ℕ) → (D.disk disk).contents ≡ Some x → ClearsSmall D.disk x result }
    ensures fresh { IfOk result (λ j. (j.size ≡ EMPTY_JOURNAL) × (j.limit ≡ limits.journal)
        × (j.switched ≡ false)) }
    ensures ran { (x : List ℕ) → (D.disk disk).contents ≡ Some x → (Encodes [] x → ⊥)
        → IsSynced (D.disk disk) → Ran (D.disk disk) (D.disk (book_disk result)) (ShortNoOutput (D.disk disk)) }
    ensures read { ReadsOnly D.disk disk result }
    ensures fault { CountsBy result (D.disk disk).faults (D.disk (book_disk result)).faults }
{
    let size = match disk.size() {
        Ok(size) => size,
        Err(DiskFault) => return Err(HouseFault::Disk(disk)),
    };
    if size > EMPTY_JOURNAL {
        return Err(HouseFault::NotEmpty(disk, size));
    }
    match found_journal(alloc, disk, limits) {
        Ok(journal) => Ok(journal),
        Err(OpenFault::NotJournal(_disk)) => unreachable!(),
        Err(OpenFault::Disk(disk)) => Err(HouseFault::Disk(disk)),
        Err(OpenFault::NoMemory(disk)) => Err(HouseFault::NoMemory(disk)),
    }
}

/// Writes the first entry, for which the journal has room.
fn enter_first<D: Disk>(
    journal: Journal<D>,
    first: &Record<'_>,
) -> Result<Journal<D>, HouseFault<D>>
    requires fits { Fits (entry first.now) }
    requires empty { (journal.size ≡ EMPTY_JOURNAL) × (journal.switched ≡ false) }
    requires room { EMPTY_JOURNAL + entry_size [] (entry first.now) ≤ journal.limit }
    ensures moved { D.disk_moved journal.disk (book_disk result) }
    ensures exact { IsJournal D.disk journal [] → EntersFirst D.disk (entry first.now) result }
    ensures wrote { IsOfWriting result }
    ensures limit { IfOk result (λ j. j.limit ≡ journal.limit) }
    ensures ran { IsJournal D.disk journal []
        → Ran (D.disk journal.disk) (D.disk (book_disk result)) (EitherNoOutput [] (entry first.now) (D.disk journal.disk).aside) }
    ensures fault { CountsBy result (D.disk journal.disk).faults (D.disk (book_disk result)).faults }
    ensures uncut { IsUncut (D.disk journal.disk) (D.disk (book_disk result)) }
{
    match journal.append(first) {
        Ok((journal, _)) => Ok(journal),
        Err(StageFault::Full(_journal)) => unreachable!(),
        Err(StageFault::Disk(halted)) => Err(HouseFault::Disk(halted.close())),
    }
}
