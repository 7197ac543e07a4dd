//! Opening a journal: a sync, and then its header.

ghost use Rattle.std.specs.Prelude.{◌≡◌, [], List, ℕ, IfOk, IfErr, OnOk, Some, None, false};
ghost use Rattle.mc_outside.specs.Bytes.{Rose};
ghost use Rattle.mc_outside.specs.DiskView.{OnlyRead, IsSynced};
ghost use Rattle.mc_requests.specs.Limits.{AreInRange};
ghost use Rattle.scrip_journal.specs.States.{IsReading, MayGoOn};
ghost use Rattle.scrip_journal.specs.declared.cursor.TheConstants.{FIRST_GATE};
ghost use Rattle.scrip_journal.specs.Opens.{open_disk, MatchOpenFault, OpensBy};

use crate::cursor::new_buffer;
use crate::fault::OpenFault;
use crate::replay::Replay;
use mc_base::NoMemory;
use mc_outside::{Disk, DiskFault};
use mc_requests::Limits;
use std::alloc::Global;

/// Opens the journal that the disk has, to be read from its first entry on; it may grow to
/// `limits.journal` bytes. The buffer that later calls need is taken here. The disk is synced first, so
/// that what is read will last.
///
/// `NotJournal` comes exactly where the disk's first eight bytes aren't the header, `Disk` only where
/// the disk failed. Nothing is written. A disk that is no journal is synced, too.
pub fn open_journal<D: Disk>(
    alloc: Global,
    mut disk: D,
    limits: Limits,
) -> Result<Replay<D>, OpenFault<D>>
    requires { AreInRange limits }
    ensures moved { D.disk_moved disk (open_disk result) }
    ensures read { OnlyRead (D.disk disk) (D.disk (open_disk result)) }
    ensures opened { IfOk result (λ r. (x : List ℕ) → (D.disk disk).contents ≡ Some x
        → IsReading D.disk r []) }
    ensures fresh { IfOk result (λ r. (r.gate ≡ FIRST_GATE) × (r.entries ≡ 0) × (r.limit ≡ limits.journal)
        × (r.ended ≡ None) × (r.switched ≡ false)) }
    ensures goes_on { IfOk result (λ r. MayGoOn r) }
    ensures exact { (x : List ℕ) → (D.disk disk).contents ≡ Some x → OpensBy x result }
    ensures fault { IfErr result (λ f. MatchOpenFault f
        (λ d. (D.disk d).faults ≡ (D.disk disk).faults)
        (λ d. Rose (D.disk disk).faults (D.disk d).faults)
        (λ d. d ≡ disk)) }
    ensures synced { IfErr result
        (λ f. MatchOpenFault f (λ d. IsSynced (D.disk d)) (λ d. Unit {0}) (λ d. Unit {0})) }
    ensures same_count { OnOk result ((D.disk (open_disk result)).faults ≡ (D.disk disk).faults) }
{
    let buf = match new_buffer(alloc) {
        Ok(buf) => buf,
        Err(NoMemory) => return Err(OpenFault::NoMemory(disk)),
    };
    if disk.sync().is_err() {
        return Err(OpenFault::Disk(disk));
    }
    let mut replay = Replay::at_front(disk, limits.journal, buf);
    match replay.read_header() {
        Ok(true) => Ok(replay),
        Ok(false) => Err(OpenFault::NotJournal(replay.close())),
        Err(DiskFault) => Err(OpenFault::Disk(replay.close())),
    }
}
