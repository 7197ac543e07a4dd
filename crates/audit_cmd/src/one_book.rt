//! What an audit says of one book.

ghost use Rattle.std.specs.Prelude.{◌≡◌};
ghost use Rattle.audit_cmd.specs.OneBook as model;
ghost use Rattle.audit_cmd.specs.OneBook.{read_disk};

use crate::fault::AuditFault;
use scrip_journal::{FIRST_GATE, HouseFault};

/// The disk of a book that was read, and what is said of the book, which stands at this place of a list.
pub(crate) fn said_of<D, X>(
    read: Result<(D, X), HouseFault<D>>,
    book: usize,
) -> (D, Result<X, AuditFault>)
    ensures disk { result.0 ≡ read_disk read }
    ensures said { result.1 ≡ model.said_of book read }
{
    match read {
        Ok((disk, kept)) => (disk, Ok(kept)),
        Err(HouseFault::NotJournal(disk)) => (disk, Err(AuditFault::NotJournal { book })),
        Err(HouseFault::BadRecord(disk, place)) => {
            (disk, Err(AuditFault::BadRecord { book, place }))
        }
        Err(HouseFault::BadChain(disk, place, stood, computed)) => (
            disk,
            Err(AuditFault::BadChain {
                book,
                place,
                stood,
                computed,
            }),
        ),
        Err(HouseFault::Unlawful(disk, place)) => {
            (disk, Err(AuditFault::Unlawful { book, place }))
        }
        // The books of all sites are read. A disk that does not tell its bytes may have shown another book the second
        // time that it was asked.
        Err(HouseFault::WrongKind(disk) | HouseFault::NotEmpty(disk, _)) => (
            disk,
            Err(AuditFault::Unlawful {
                book,
                place: FIRST_GATE,
            }),
        ),
        Err(HouseFault::Disk(disk)) => (disk, Err(AuditFault::Disk { book })),
        Err(HouseFault::NoMemory(disk)) => (disk, Err(AuditFault::NoMemory)),
    }
}
