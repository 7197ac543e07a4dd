//! Reading the chain of one book.

ghost use Rattle.std.specs.Prelude.{◌≡◌, List, ℕ, Some};
ghost use Rattle.mc_outside.specs.DiskView.{OnlyRead};
ghost use Rattle.book_opening.specs.Opening.{CountedBy};
ghost use Rattle.audit_cmd.specs.OneBook.{read_disk};
ghost use Rattle.audit_cmd.specs.Chains.{ReadsChain};

use book_opening::{Opener, open_book};
use mc_outside::Disk;
use mc_records::{PieceList, Record};
use mc_requests::Limits;
use scrip_form::Name;
use scrip_journal::{HouseFault, LearnFault};
use std::alloc::Global;

/// What two people compare who have a copy of a book each: whose it is, how many entries it has, and their chain.
#[derive(Clone, Copy, Drop)]
pub struct ChainLine {
    /// The name of its site.
    pub name: Name,
    /// How many entries it has.
    pub entries: u64,
    /// The chain of all of them: a digest that no other list of entries is known to have.
    pub chain: [u8; 32],
}

/// Who reads a book for its chain: that of any site, of whose entries only the first is asked about.
#[derive(Clone, Copy, Drop)]
pub(crate) struct ChainReader;

impl Opener for ChainReader {
    ghost use Rattle.audit_cmd.specs.Chains.{chain_reader};

    type Learner = Name;

    ghost opener = { λ o. chain_reader };

    fn opens(&self, kind: u8) -> bool {
        true
    }

    fn begin(self, alloc: Global, first: &Record<'_>) -> Result<Name, LearnFault> {
        let _parts: Option<PieceList<'_>> = None;
        match first {
            Record::Site { name, .. } => Ok(Name::new(name).unwrap()),
            _ => unreachable!(),
        }
    }

    fn is_told(r: &Record<'_>, before: &[u8; 32]) -> bool {
        true
    }

    fn learn(name: &mut Name, r: &Record<'_>) -> Result<(), LearnFault> {
        Ok(())
    }

    ghost site_first = { λ o e may. may };

    ghost told_first = { λ o h e may. tt };
}

/// Reads the book that the disk has, of any site, and says its chain: a book without a Switch is read twice. Nothing is
/// written, and the disk comes back.
///
/// `NotJournal` comes where the disk does not begin with the header of a journal, `BadRecord` where its bytes can't
/// stand, from the place told on, and `BadChain` where an entry's chain at the place told is another than the one computed.
/// `Unlawful` with the place 8 comes where no Site entry is first. `Disk` comes only where the disk failed. No other
/// fault comes but `NoMemory`.
pub(crate) fn read_chain<D: Disk>(alloc: Global, disk: D) -> Result<(D, ChainLine), HouseFault<D>>
    ensures moved { D.disk_moved disk (read_disk result) }
    ensures read { OnlyRead (D.disk disk) (D.disk (read_disk result)) }
    ensures exact { (x : List ℕ) → (D.disk disk).contents ≡ Some x → ReadsChain x result }
    ensures fault { CountedBy result (D.disk disk).faults (D.disk (read_disk result)).faults }
{
    let (journal, name) = match open_book(alloc, disk, Limits::FULL, ChainReader) {
        Ok(opened) => opened,
        Err(fault) => return Err(fault),
    };
    let (journal, chain) = match journal.find_chain() {
        Ok(found) => found,
        Err(halted) => return Err(HouseFault::Disk(halted.close())),
    };
    let line = ChainLine {
        name,
        entries: journal.entries(),
        chain,
    };
    Ok((journal.close(), line))
}
