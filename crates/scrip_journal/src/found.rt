//! Founding a journal.

ghost use Rattle.std.specs.Prelude.{◌≡◌, [], List, ℕ, IfOk, IfErr, OnOk, Some, false};
ghost use Rattle.mc_outside.specs.Bytes.{Rose};
ghost use Rattle.mc_outside.specs.DiskView.{Ran};
ghost use Rattle.mc_requests.specs.Limits.{AreInRange};
ghost use Rattle.mc_records.specs.declared.sizes.TheConstants.{EMPTY_JOURNAL};
ghost use Rattle.scrip_journal.specs.States.{IsJournal};
ghost use Rattle.scrip_journal.specs.Opens.{found_disk, MatchOpenFault, NoLonger};

use crate::cursor::{Cursor, FIRST_GATE, new_buffer};
use crate::fault::OpenFault;
use crate::journal::Journal;
use mc_base::NoMemory;
use mc_outside::Disk;
use mc_requests::Limits;
use std::alloc::Global;

/// The header, and the closed gate of a journal without entries.
const EMPTY: [u8; 9] = *b"MCJRNL1\n\0";

/// A journal without entries, in place of what the disk had; it may grow to `limits.journal` bytes. The
/// buffer that later calls need is taken here.
///
/// `Disk` comes only where the disk failed, `NoMemory` with nothing written, and `NotJournal` never. A
/// crash in this call leaves at most nine bytes, or no more than a crash before it could have left;
/// which bytes, nobody can say.
pub fn found_journal<D: Disk>(
    alloc: Global,
    mut disk: D,
    limits: Limits,
) -> Result<Journal<D>, OpenFault<D>>
    requires { AreInRange limits }
    ensures moved { D.disk_moved disk (found_disk result) }
    ensures founded { IfOk result (λ j. (x : List ℕ) → (D.disk disk).contents ≡ Some x
        → IsJournal D.disk j []) }
    ensures fresh { IfOk result (λ j. (j.size ≡ EMPTY_JOURNAL) × (j.entries ≡ 0) × (j.limit ≡ limits.journal)
        × (j.switched ≡ false)) }
    ensures ran { Ran (D.disk disk) (D.disk (found_disk result)) (NoLonger (D.disk disk)) }
    ensures fault { IfErr result (λ f. MatchOpenFault f
        (λ d. ⊥)
        (λ d. Rose (D.disk disk).faults (D.disk d).faults)
        (λ d. d ≡ disk)) }
    ensures same_count { OnOk result ((D.disk (found_disk result)).faults ≡ (D.disk disk).faults) }
{
    let buf = match new_buffer(alloc) {
        Ok(buf) => buf,
        Err(NoMemory) => return Err(OpenFault::NoMemory(disk)),
    };
    if disk.cut(0).is_err() {
        return Err(OpenFault::Disk(disk));
    }
    if disk.write_at(0, &EMPTY).is_err() {
        return Err(OpenFault::Disk(disk));
    }
    if disk.sync().is_err() {
        return Err(OpenFault::Disk(disk));
    }
    let at = Cursor {
        gate: FIRST_GATE,
        entries: 0,
        limit: limits.journal,
        switched: false,
        chain: None,
        buf,
    };
    Ok(Journal { disk, at })
}
