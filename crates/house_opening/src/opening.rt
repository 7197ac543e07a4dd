//! Opening a book as a house.

ghost use Rattle.std.specs.Prelude.{◌≡◌, [], List, ℕ, IfOk, Some};
ghost use Rattle.mc_outside.specs.DiskView.{OnlyRead};
ghost use Rattle.mc_requests.specs.Limits.{AreInRange};
ghost use Rattle.book_opening.specs.Opening.{CountedBy};
ghost use Rattle.house_core.specs.Bench.{limits_of};
ghost use Rattle.house_opening.specs.Opening.{house_disk, OpensHouse};

use book_opening::{Opener, open_book};
use house_core::{Bench, House};
use house_state::Trade;
use mc_base::NoMemory;
use mc_outside::Disk;
use mc_records::Record;
use mc_requests::Limits;
use scrip_journal::{HouseFault, LearnFault};
use std::alloc::Global;

/// Who opens a book as a house with these limits and this trade.
#[derive(Drop)]
pub(crate) struct HouseOpener<T> {
    limits: Limits,
    trade: T,
}

impl<T: Trade> Opener for HouseOpener<T> {
    ghost use Rattle.house_opening.specs.Opening.{opener_of};
    ghost use Rattle.house_opening.specs.First.{site_first, tells_chain};

    type Learner = Bench<T>;

    ghost opener = { opener_of T.trade T.passes };

    fn opens(&self, kind: u8) -> bool {
        kind == self.trade.kind().number()
    }

    fn begin(self, alloc: Global, first: &Record<'_>) -> Result<Bench<T>, LearnFault> {
        let HouseOpener { limits, trade } = self;
        if !trade.kind().is_house() {
            return Err(LearnFault::Unlawful);
        }
        match Bench::new(alloc, first, limits, trade) {
            Ok(bench) => Ok(bench),
            Err(NoMemory) => Err(LearnFault::NoMemory),
        }
    }

    fn is_told(r: &Record<'_>, before: &[u8; 32]) -> bool {
        r.tells(before)
    }

    fn learn(bench: &mut Bench<T>, r: &Record<'_>) -> Result<(), LearnFault> {
        match bench.replay(r) {
            Ok(_) => Ok(()),
            Err(fault) => Err(fault),
        }
    }

    ghost site_first = { λ o. site_first T.passes o.limits };

    ghost told_first = { λ o. tells_chain T.passes o.limits };
}

/// Opens the book that the disk has as a house with this trade, which has learned nothing yet. The history is of
/// a site of the trade's kind, and each of its entries may follow by the ledger and by the trade's own test of
/// Notes. The house may grow to these limits; its time is that of the last entry.
///
/// `NotJournal` comes where the disk does not begin with the header of a journal, and `BadRecord` where
/// its bytes can't stand, from the place told on; `BadChain` where an entry has another chain than the one computed.
/// `Unlawful` tells the place of the gate of the first
/// entry that may not follow those before it, and 8 where there is no entry at all. `WrongKind` comes
/// where the book is of a site of another kind than the trade's. `Disk` comes only where the disk failed.
/// Nothing is written, and each fault hands the disk back.
pub fn open_house<D: Disk, T: Trade>(
    alloc: Global,
    disk: D,
    limits: Limits,
    trade: T,
) -> Result<House<D, T>, HouseFault<D>>
    requires limits { AreInRange limits }
    requires trade { (T.trade trade).represents [] }
    ensures moved { D.disk_moved disk (house_disk result) }
    ensures read { OnlyRead (D.disk disk) (D.disk (house_disk result)) }
    ensures exact { (x : List ℕ) → (D.disk disk).contents ≡ Some x
        → OpensHouse D.disk T.trade T.passes limits (T.trade trade).site x result }
    ensures limits { IfOk result (λ h. limits_of h.bench ≡ limits) }
    ensures fault { CountedBy result (D.disk disk).faults (D.disk (house_disk result)).faults }
{
    match open_book(alloc, disk, limits, HouseOpener { limits, trade }) {
        Ok((journal, bench)) => Ok(House::new(journal, bench)),
        Err(fault) => Err(fault),
    }
}
