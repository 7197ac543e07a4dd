//! Opening a book: its entries are read and learned, one by one.

ghost use Rattle.std.specs.Prelude.{◌≡◌, [], List, ℕ, IfOk, OnOk, None, Some, MatchResult};
ghost use Rattle.mc_outside.specs.DiskView.{OnlyRead};
ghost use Rattle.mc_records.specs.Entry.{Fits};
ghost use Rattle.mc_requests.specs.Limits.{AreInRange};
ghost use Rattle.mc_records.specs.Views.{entry};
ghost use Rattle.scrip_journal.specs.States.{IsReading, MayGoOn};
ghost use Rattle.scrip_journal.specs.declared.cursor.TheConstants.{FIRST_GATE};
ghost use Rattle.scrip_journal.specs.declared.ending.Ending.TheVariants.{Closed};
ghost use Rattle.book_opening.specs.Opening.{opened_disk, CountedBy, OpensBook, ReadOn, LearnedSome, LearnedAll, HaltsBy, HaltCounts, BeginsBy, LearnsNext, GoesFurther, fault_with};

use crate::opener::Opener;
use mc_outside::Disk;
use mc_records::Record;
use mc_requests::Limits;
use scrip_journal::{
    FIRST_GATE, HouseFault, Journal, LearnFault, OpenFault, Replay, ReplayFault, open_journal,
};
use std::alloc::Global;

/// Why a book was not learned.
#[derive(Clone, Copy)]
pub(crate) enum Halt {
    /// No entry was read.
    Reading(ReplayFault),
    /// The entry behind the gate at this place isn't lawful after those before it.
    Unlawful(u64),
    /// The book is that of a site of another kind.
    WrongKind,
    /// Memory was refused.
    NoMemory,
}

impl Halt {
    /// The fault that hands the disk back.
    fn with_disk<D>(self, disk: D) -> HouseFault<D>
        ensures { result ≡ fault_with disk self }
    {
        match self {
            Halt::Reading(ReplayFault::BadRecord { place }) => HouseFault::BadRecord(disk, place),
            Halt::Reading(
                ReplayFault::BadChain {
                    place,
                    stood,
                    computed,
                },
            ) => HouseFault::BadChain(disk, place, stood, computed),
            Halt::Reading(ReplayFault::Disk) => HouseFault::Disk(disk),
            Halt::Unlawful(place) => HouseFault::Unlawful(disk, place),
            Halt::WrongKind => HouseFault::WrongKind(disk),
            Halt::NoMemory => HouseFault::NoMemory(disk),
        }
    }
}

/// Opens the book that the disk has: the opener's learner learns its entries from the first to the last, and
/// the journal may grow to `limits.journal` bytes.
///
/// `NotJournal` comes where the disk does not begin with the header of a journal, and `BadRecord` where
/// its bytes can't stand, from the place told on; `BadChain` where an entry's chain at the place told is another than
/// the one computed. `Unlawful` tells the place of the gate of the first
/// entry that may not follow those before it, and 8 where there is no entry at all. `WrongKind` comes
/// where the book is of a site of a kind that the opener doesn't open. `Disk` comes only where the disk
/// failed, and `NoMemory` where memory was refused, to the learner too. Nothing is written, and each fault
/// hands the disk back.
pub fn open_book<D: Disk, O: Opener>(
    alloc: Global,
    disk: D,
    limits: Limits,
    opener: O,
) -> Result<(Journal<D>, O::Learner), HouseFault<D>>
    requires limits { AreInRange limits }
    requires ready { (O.opener opener).ready }
    ensures moved { D.disk_moved disk (opened_disk result) }
    ensures read { OnlyRead (D.disk disk) (D.disk (opened_disk result)) }
    ensures exact { (x : List ℕ) → (D.disk disk).contents ≡ Some x
        → OpensBook D.disk (O.opener opener) x result }
    ensures limit { IfOk result (λ b. b.0.limit ≡ limits.journal) }
    ensures belongs { IfOk result (λ b. (O.opener opener).belongs b.1) }
    ensures fault { CountedBy result (D.disk disk).faults (D.disk (opened_disk result)).faults }
{
    let mut replay = match open_journal(alloc, disk, limits) {
        Ok(replay) => replay,
        Err(OpenFault::NotJournal(disk)) => return Err(HouseFault::NotJournal(disk)),
        Err(OpenFault::Disk(disk)) => return Err(HouseFault::Disk(disk)),
        Err(OpenFault::NoMemory(disk)) => return Err(HouseFault::NoMemory(disk)),
    };
    match learn_book(alloc, &mut replay, opener) {
        Ok(learner) => Ok((replay.finish(), learner)),
        Err(halt) => Err(halt.with_disk(replay.close())),
    }
}

/// Learns the entries of a journal, from the first to the last.
fn learn_book<D: Disk, O: Opener>(
    alloc: Global,
    replay: &mut Replay<D>,
    opener: O,
) -> Result<O::Learner, Halt>
    requires ready { (O.opener opener).ready }
    requires going { replay.old.ended ≡ None }
    requires goes_on { MayGoOn replay.old }
    requires front { replay.old.gate ≡ FIRST_GATE }
    ensures read { ReadOn D.disk D.disk_moved replay.old replay.new }
    ensures closed { OnOk result (replay.new.ended ≡ Some Closed) }
    ensures belongs { IfOk result (O.opener opener).belongs }
    ensures counts { HaltCounts result (D.disk replay.old.disk).faults
        (D.disk replay.new.disk).faults }
    ensures exact { (x : List ℕ) → (D.disk replay.old.disk).contents ≡ Some x
        → IsReading D.disk replay.old []
        → MatchResult result (LearnedAll D.disk (O.opener opener) x replay.new)
        (HaltsBy (O.opener opener) x) }
{
    let mut learner = match learn_first(alloc, replay, opener) {
        Ok(learner) => learner,
        Err(halt) => return Err(halt),
    };
    match learn_rest::<D, O>(replay, &mut learner) {
        Ok(()) => Ok(learner),
        Err(halt) => Err(halt),
    }
}

/// Reads the first entry, and begins with it.
fn learn_first<D: Disk, O: Opener>(
    alloc: Global,
    replay: &mut Replay<D>,
    opener: O,
) -> Result<O::Learner, Halt>
    requires ready { (O.opener opener).ready }
    requires going { replay.old.ended ≡ None }
    requires goes_on { MayGoOn replay.old }
    requires front { replay.old.gate ≡ FIRST_GATE }
    ensures read { ReadOn D.disk D.disk_moved replay.old replay.new }
    ensures going { OnOk result (replay.new.ended ≡ None) }
    ensures goes_on { OnOk result (MayGoOn replay.new) }
    ensures belongs { IfOk result (O.opener opener).belongs }
    ensures counts { HaltCounts result (D.disk replay.old.disk).faults
        (D.disk replay.new.disk).faults }
    ensures exact { (x : List ℕ) → (D.disk replay.old.disk).contents ≡ Some x
        → IsReading D.disk replay.old []
        → MatchResult result (LearnedSome D.disk (O.opener opener) replay.new)
        (HaltsBy (O.opener opener) x) }
{
    match replay.next_record() {
        Ok(Some(_)) => {}
        Ok(None) => return Err(Halt::Unlawful(FIRST_GATE)),
        Err(fault) => return Err(Halt::Reading(fault)),
    }
    match replay.record() {
        Ok(first) => begin_with(alloc, &first, opener),
        Err(fault) => Err(Halt::Reading(fault)),
    }
}

/// Begins with an entry, where it is the first one of a book.
fn begin_with<O: Opener>(alloc: Global, first: &Record<'_>, opener: O) -> Result<O::Learner, Halt>
    requires ready { (O.opener opener).ready }
    requires fits { Fits (entry first.now) }
    ensures belongs { IfOk result (O.opener opener).belongs }
    ensures exact { BeginsBy (O.opener opener) (entry first.now) result }
{
    let kind = match first {
        Record::Site { kind, .. } => *kind,
        _ => return Err(Halt::Unlawful(FIRST_GATE)),
    };
    if !opener.opens(kind) {
        return Err(Halt::WrongKind);
    }
    match opener.begin(alloc, first) {
        Ok(learner) => Ok(learner),
        Err(LearnFault::Unlawful) => Err(Halt::Unlawful(FIRST_GATE)),
        Err(LearnFault::NoMemory) => Err(Halt::NoMemory),
    }
}

/// Learns the entries behind those that were learned, to the last.
fn learn_rest<D: Disk, O: Opener>(
    replay: &mut Replay<D>,
    learner: &mut O::Learner,
) -> Result<(), Halt>
    requires going { replay.old.ended ≡ None }
    requires goes_on { MayGoOn replay.old }
    ensures read { ReadOn D.disk D.disk_moved replay.old replay.new }
    ensures closed { OnOk result (replay.new.ended ≡ Some Closed) }
    ensures belongs { (o : O) → (O.opener o).belongs learner.old
        → OnOk result ((O.opener o).belongs learner.new) }
    ensures counts { HaltCounts result (D.disk replay.old.disk).faults
        (D.disk replay.new.disk).faults }
    ensures exact { (o : O) (x : List ℕ) → (D.disk replay.old.disk).contents ≡ Some x
        → (O.opener o).belongs learner.old → LearnedSome D.disk (O.opener o) replay.old learner.old
        → MatchResult result (λ u. LearnedAll D.disk (O.opener o) x replay.new learner.new)
        (HaltsBy (O.opener o) x) }
{
    'entries: loop {
        match learn_next::<D, O>(replay, learner) {
            Ok(true) => {}
            Ok(false) => return Ok(()),
            Err(halt) => return Err(halt),
        }
    }
}

/// Learns the next entry. False where there is none.
fn learn_next<D: Disk, O: Opener>(
    replay: &mut Replay<D>,
    learner: &mut O::Learner,
) -> Result<bool, Halt>
    requires going { replay.old.ended ≡ None }
    requires goes_on { MayGoOn replay.old }
    ensures read { ReadOn D.disk D.disk_moved replay.old replay.new }
    ensures further { GoesFurther replay.old result replay.new }
    ensures belongs { (o : O) → (O.opener o).belongs learner.old
        → OnOk result ((O.opener o).belongs learner.new) }
    ensures counts { HaltCounts result (D.disk replay.old.disk).faults
        (D.disk replay.new.disk).faults }
    ensures exact { (o : O) (x : List ℕ) → (D.disk replay.old.disk).contents ≡ Some x
        → (O.opener o).belongs learner.old → LearnedSome D.disk (O.opener o) replay.old learner.old
        → LearnsNext D.disk (O.opener o) x replay.new learner.new result }
{
    let gate = match replay.next_record() {
        Ok(Some(gate)) => gate,
        Ok(None) => return Ok(false),
        Err(fault) => return Err(Halt::Reading(fault)),
    };
    let record = match replay.record() {
        Ok(record) => record,
        Err(fault) => return Err(Halt::Reading(fault)),
    };
    if !O::is_told(&record, &replay.chain_before()) {
        return Err(Halt::Unlawful(gate));
    }
    match O::learn(learner, &record) {
        Ok(()) => Ok(true),
        Err(LearnFault::Unlawful) => Err(Halt::Unlawful(gate)),
        Err(LearnFault::NoMemory) => Err(Halt::NoMemory),
    }
}
