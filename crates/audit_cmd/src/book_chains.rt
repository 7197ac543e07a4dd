//! The chains of books on disks.

ghost use Rattle.std.specs.Prelude.{◌≡◌, ◌<◌, List, ℕ, Some, IfOk, IfErr, length};
ghost use Rattle.std.specs.List.{AllZip, AllByRecursion};
ghost use Rattle.mc_outside.specs.DiskView.{OnlyRead};
ghost use Rattle.audit_cmd.specs.Books.{AreTold, counts, EndsReading, IsOfLawful, CountsBy};
ghost use Rattle.audit_cmd.specs.Places.{ReadsAt};
ghost use Rattle.audit_cmd.specs.Chains.{IsLineOf, HasLine, chain_causes, ChainsDecide};

use crate::chain_reading::{ChainLine, read_chain};
use crate::fault::AuditFault;
use crate::one_book::said_of;
use mc_outside::Disk;
use std::alloc::Global;

/// Says of each of the books that the disks have whose it is, how many entries it has and their chain, in their order.
/// All disks come back, in their order too.
///
/// The books are read one after another, and the first fault ends it: `NotJournal` comes where its disk does not begin
/// with the header of a journal, `BadRecord` where its bytes can't stand from the place told on, `BadChain` where an
/// entry's chain at the place told is another than the one computed, `Unlawful` with the place 8 where no Site entry is
/// its first, and `Disk` only where its disk failed. `NoMemory` may come at any point. No other fault comes: of entries
/// behind the first nothing else is asked. Nothing is written.
///
/// The first book that has no line decides whatever other disks tell; of the lines of all something holds where all tell their bytes.
pub fn chains<D: Disk>(
    alloc: Global,
    mut books: Vec<D>,
) -> (Vec<D>, Result<Vec<ChainLine>, AuditFault>)
    ensures read { AllZip (λ a b. OnlyRead (D.disk a) (D.disk b)) books.items result.0.items }
    ensures moved { AllZip D.disk_moved books.items result.0.items }
    ensures decides { ChainsDecide D.disk books.items result.1 }
    ensures exact { IfOk result.1 (λ lines. (contents : List (List ℕ))
        → AreTold D.disk books.items contents → AllZip IsLineOf contents lines.items) }
    ensures lined { (contents : List (List ℕ)) → AreTold D.disk books.items contents
        → AllByRecursion HasLine contents → IsOfLawful result.1 }
    ensures fault { CountsBy result.1 (counts D.disk books.items) (counts D.disk result.0.items) }
    ensures place { IfErr result.1 (EndsReading (λ book. book < length books.items)) }
{
    match read_chains(alloc, &mut books) {
        Ok(lines) => (books, Ok(lines)),
        Err(fault) => (books, Err(fault)),
    }
}

/// Reads the books one after another. The first fault ends it.
fn read_chains<D: Disk>(alloc: Global, books: &mut Vec<D>) -> Result<Vec<ChainLine>, AuditFault>
    ensures read { AllZip (λ a b. OnlyRead (D.disk a) (D.disk b)) books.old.items books.new.items }
    ensures moved { AllZip D.disk_moved books.old.items books.new.items }
    ensures decides { ChainsDecide D.disk books.old.items result }
    ensures exact { IfOk result (λ lines. (contents : List (List ℕ))
        → AreTold D.disk books.old.items contents → AllZip IsLineOf contents lines.items) }
    ensures fault { CountsBy result (counts D.disk books.old.items)
        (counts D.disk books.new.items) }
    ensures place { IfErr result (EndsReading (λ book. book < length books.old.items)) }
{
    let mut lines = Vec::new(alloc);
    for place in 0..books.len() {
        match line_at(alloc, books, place) {
            Ok(line) => match lines.push(line) {
                Ok(()) => (),
                Err(_) => return Err(AuditFault::NoMemory),
            },
            Err(fault) => return Err(fault),
        }
    }
    Ok(lines)
}

/// Reads the book at a place of the list, whose disk stays there.
fn line_at<D: Disk>(
    alloc: Global,
    books: &mut Vec<D>,
    place: usize,
) -> Result<ChainLine, AuditFault>
    requires there { place < length books.old.items }
    ensures { ReadsAt D.disk D.disk_moved chain_causes IsLineOf place books.old.items books.new.items result }
{
    let disk = books.remove(place);
    let (disk, found) = said_of(read_chain(alloc, disk), place);
    match books.insert(place, disk) {
        Ok(()) => found,
        // There was room for it before.
        Err(_) => unreachable!(),
    }
}
