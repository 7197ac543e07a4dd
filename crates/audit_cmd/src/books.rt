//! Reading books one after another.

ghost use Rattle.std.specs.Prelude.{◌≡◌, ◌<◌, ◌≤◌, ◌+◌, ◌++◌, ◌∷◌, [], List, ℕ, Some, IfOk, IfErr, OnOk, length};
ghost use Rattle.std.specs.List.{AllZip};
ghost use Rattle.mc_outside.specs.DiskView.{OnlyRead};
ghost use Rattle.audit_cmd.specs.Books.{AreTold, counts, AuditDecides, EndsReading, CountsBy};
ghost use Rattle.audit_cmd.specs.Places.{ReadsAt};
ghost use Rattle.audit_cmd.specs.Reading.{audit_causes, IsKeptOf};
ghost use Rattle.audit_cmd.specs.Loops.{KeptOf, KeptAll};

use crate::fault::AuditFault;
use crate::one_book::said_of;
use crate::reading::read_book;
use audit_sums::BookSums;
use mc_base::NoMemory;
use mc_outside::Disk;
use std::alloc::Global;

/// What was kept of the books that were read.
#[derive(Drop)]
pub(crate) struct Kept {
    /// What an audit needs of each house's, in their order.
    pub(crate) houses: Vec<BookSums>,
    /// Whether a wallet's is among them.
    pub(crate) wallet: bool,
}

impl Kept {
    /// Keeps what was read of one more book: nothing where it is a wallet's, but that it is there.
    fn keep(&mut self, book: Option<BookSums>) -> Result<(), NoMemory>
        ensures few { OnOk result (length self.new.houses.items ≤ length self.old.houses.items + 1) }
        ensures kept { OnOk result ((contents : List (List ℕ)) (bytes : List ℕ)
            → KeptOf contents self.old.wallet self.old.houses.items → IsKeptOf bytes book
            → KeptOf (contents ++ bytes ∷ []) self.new.wallet self.new.houses.items) }
    {
        match book {
            Some(sums) => self.houses.push(sums)?,
            None => self.wallet = true,
        }
        Ok(())
    }
}

/// Reads the books one after another. The first that is not read as a lawful one ends it.
pub(crate) fn read_books<D: Disk>(alloc: Global, books: &mut Vec<D>) -> Result<Kept, AuditFault>
    ensures read { AllZip (λ a b. OnlyRead (D.disk a) (D.disk b)) books.old.items books.new.items }
    ensures moved { AllZip D.disk_moved books.old.items books.new.items }
    ensures decides { AuditDecides D.disk books.old.items result }
    ensures exact { IfOk result (λ kept. (contents : List (List ℕ))
        → AreTold D.disk books.old.items contents → KeptAll contents kept) }
    ensures fault { CountsBy result (counts D.disk books.old.items)
        (counts D.disk books.new.items) }
    ensures place { IfErr result (EndsReading (λ book. book < length books.old.items)) }
    ensures few { IfOk result (λ kept. length kept.houses.items ≤ length books.old.items) }
{
    let mut kept = Kept {
        houses: Vec::new(alloc),
        wallet: false,
    };
    for place in 0..books.len() {
        match read_at(alloc, books, place) {
            Ok(book) => match kept.keep(book) {
                Ok(()) => (),
                Err(NoMemory) => return Err(AuditFault::NoMemory),
            },
            Err(fault) => return Err(fault),
        }
    }
    Ok(kept)
}

/// Reads the book at a place of the list, whose disk stays there.
fn read_at<D: Disk>(
    alloc: Global,
    books: &mut Vec<D>,
    place: usize,
) -> Result<Option<BookSums>, AuditFault>
    requires there { place < length books.old.items }
    ensures { ReadsAt D.disk D.disk_moved audit_causes IsKeptOf place books.old.items books.new.items result }
{
    let disk = books.remove(place);
    let (disk, found) = said_of(read_book(alloc, disk), place);
    match books.insert(place, disk) {
        Ok(()) => found,
        // There was room for it before.
        Err(_) => unreachable!(),
    }
}
