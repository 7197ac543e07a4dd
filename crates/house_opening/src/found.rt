//! Founding the book of a house.

ghost use Rattle.std.specs.Prelude.{◌≡◌, ◌+◌, ◌≤◌, [], ◌∷◌, List, ℕ, Some};
ghost use Rattle.mc_outside.specs.DiskView.{Ran};
ghost use Rattle.mc_requests.specs.Limits.{AreInRange};
ghost use Rattle.mc_records.specs.Sizes.{entry_size};
ghost use Rattle.mc_records.specs.Views.{entry};
ghost use Rattle.ledger_model.specs.Houses.{site_kind};
ghost use Rattle.ledger_model.specs.Lawful.{MayFollow};
ghost use Rattle.scrip_journal.specs.Exits.{IsUncut};
ghost use Rattle.scrip_journal.specs.Founds.{FoundNoOutput, CountsBy, ReadsOnly};
ghost use Rattle.scrip_journal.specs.Layout.{Encodes};
ghost use Rattle.house_state.specs.Founding.{FoundsHouse};
ghost use Rattle.house_opening.specs.Opening.{house_disk};
ghost use Rattle.house_opening.specs.Found.{FoundsHouseBy};

use house_core::{Bench, House};
use house_state::Trade;
use mc_base::NoMemory;
use mc_outside::Disk;
use mc_records::Record;
use mc_requests::Limits;
use scrip_journal::{HouseFault, found_book};
use std::alloc::Global;

/// Founds the book of a house by its Site entry, with a trade that has learned nothing yet. The house may
/// grow to these limits; its time is the entry's moment.
///
/// A disk that encodes the empty history is used as it is and not cut, and any other of at most nine bytes is written
/// anew. Any other is left as it is, also where the disk fails: `NotEmpty` has its size. `Disk` comes only where the
/// disk failed, `NoMemory` with nothing written, and no other fault does. A crash in this call leaves what encodes no
/// entries or the Site entry, or what a crash before could have left, and at most nine bytes where the
/// disk is written anew; of any other disk, what a crash before could have left alone.
pub fn found_house<D: Disk, T: Trade>(
    alloc: Global,
    disk: D,
    limits: Limits,
    trade: T,
    site: &Record<'_>,
) -> Result<House<D, T>, HouseFault<D>>
    requires limits { AreInRange limits }
    requires site { FoundsHouse (entry site.now) }
    requires first { MayFollow limits [] (entry site.now) }
    requires kind { site_kind (entry site.now ∷ []) ≡ Some (T.trade trade).site }
    requires trade { (T.trade trade).represents [] }
    requires room { 9 + entry_size [] (entry site.now) ≤ limits.journal }
    ensures moved { D.disk_moved disk (house_disk result) }
    ensures exact { (x : List ℕ) → (D.disk disk).contents ≡ Some x
        → FoundsHouseBy D.disk T.trade limits (entry site.now) x result }
    ensures ran { (x : List ℕ) → (D.disk disk).contents ≡ Some x
        → Ran (D.disk disk) (D.disk (house_disk result)) (FoundNoOutput (D.disk disk) (entry site.now)) }
    ensures read { ReadsOnly D.disk disk result }
    ensures fault { CountsBy result (D.disk disk).faults (D.disk (house_disk result)).faults }
    ensures uncut { (x : List ℕ) → (D.disk disk).contents ≡ Some x → Encodes [] x
        → IsUncut (D.disk disk) (D.disk (house_disk result)) }
{
    let bench = match Bench::new(alloc, site, limits, trade) {
        Ok(bench) => bench,
        Err(NoMemory) => return Err(HouseFault::NoMemory(disk)),
    };
    match found_book(alloc, disk, limits, site) {
        Ok(journal) => Ok(House::new(journal, bench)),
        Err(fault) => Err(fault),
    }
}
