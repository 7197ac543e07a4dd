//! Why books on disks are not reported.

ghost use Rattle.std.specs.Prelude.{◌≡◌};
ghost use Rattle.audit_cmd.specs.Books.{fault_of};

use audit_search::BooksFault;
use scrip_form::{Id, Name};

/// Why books on disks are not reported. A book is told by its place in the list, from 0.
#[derive(Clone, Copy, Drop)]
pub enum AuditFault {
    /// The book is no journal.
    NotJournal {
        book: usize,
    },
    /// The bytes from this place on can't stand in a journal.
    BadRecord {
        book: usize,
        place: u64,
    },
    /// The chain of an entry, which begins at this place, is another than the one computed.
    BadChain {
        book: usize,
        place: u64,
        stood: [u8; 32],
        computed: [u8; 32],
    },
    /// The entry behind the gate at this place isn't lawful after those before it; 8 where there is no entry.
    Unlawful {
        book: usize,
        place: u64,
    },
    /// The disk of the book failed.
    Disk {
        book: usize,
    },
    /// There is not one broker's book, there is a wallet's, or two vendors share a name; of several brokers, there is none, or
    /// two books share a name.
    BadBooks,
    /// A broker sold of this vendor, whose book is not there: of several the least name.
    MissingBook {
        name: Name,
    },
    /// A piece of this identity was accepted and not handed out with its value, or was sold out of stock and not minted by
    /// its vendor: the first by book, then by entry. The name is that of the book's site.
    Stranger {
        book: usize,
        name: Name,
        id: Id,
    },
    /// Memory was refused.
    NoMemory,
}

/// Why books that are all lawful, and none a wallet's, are not reported.
pub(crate) fn of_books(fault: BooksFault) -> AuditFault
    ensures { result ≡ fault_of fault }
{
    match fault {
        BooksFault::BadBooks => AuditFault::BadBooks,
        BooksFault::MissingBook { name } => AuditFault::MissingBook { name },
        BooksFault::Stranger { book, name, id } => AuditFault::Stranger { book, name, id },
        BooksFault::NoMemory => AuditFault::NoMemory,
    }
}
