//! The status of a book that is not opened or founded.

ghost use Rattle.std.specs.Prelude.{◌≡◌};
ghost use Rattle.scrip_journal.specs.Founds.{fault_disk};
ghost use Rattle.command_status.specs.Faults.{fault_status};
ghost use Rattle.command_status.specs.Statuses.{number_of};

use crate::status::Status;
use mc_requests::Refusal;
use scrip_journal::HouseFault;

/// The disk of a book that is not opened or founded, and why.
pub fn not_opened<D>(fault: HouseFault<D>) -> (D, Status)
    ensures disk { result.0 ≡ fault_disk fault }
    ensures status { result.1 ≡ fault_status fault }
    ensures words { number_of result.1 ≡ 2 → ⊥ }
{
    match fault {
        HouseFault::NotJournal(disk) => (disk, Status::NotJournal),
        HouseFault::BadRecord(disk, place) => (disk, Status::BadEntry(place)),
        HouseFault::BadChain(disk, place, _, _) => (disk, Status::BadChain(place)),
        HouseFault::Unlawful(disk, place) => (disk, Status::UnlawfulEntry(place)),
        HouseFault::WrongKind(disk) => (disk, Status::Refused(Refusal::WrongKind)),
        HouseFault::NotEmpty(disk, size) => (disk, Status::Refused(Refusal::NotEmpty(size))),
        HouseFault::Disk(disk) => (disk, Status::DiskFault),
        HouseFault::NoMemory(disk) => (disk, Status::NoMemory),
    }
}
