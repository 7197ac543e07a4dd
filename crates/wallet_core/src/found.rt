//! Founding the book of a wallet.

ghost use Rattle.std.specs.Prelude.{◌≡◌, ◌+◌, ◌≤◌, [], List, ℕ, None, Some};
ghost use Rattle.mc_outside.specs.DiskView.{Ran};
ghost use Rattle.mc_records.specs.Entry.{Site};
ghost use Rattle.mc_requests.specs.Limits.{AreInRange};
ghost use Rattle.mc_records.specs.Sizes.{entry_size};
ghost use Rattle.scrip_journal.specs.Exits.{IsUncut};
ghost use Rattle.scrip_journal.specs.Founds.{FoundNoOutput, CountsBy, ReadsOnly};
ghost use Rattle.scrip_journal.specs.Layout.{Encodes};
ghost use Rattle.wallet_core.specs.Opening.{wallet_disk, FoundsWalletBy};

use crate::wallet::Wallet;
use mc_base::Moment;
use mc_outside::Disk;
use mc_records::{EMPTY_JOURNAL, Record};
use mc_requests::Limits;
use scrip_form::Name;
use scrip_journal::{HouseFault, found_book};
use std::alloc::Global;
use wallet_book::WalletBook;

/// Founds the book of a wallet of this name. Its journal may grow to `limits.journal` bytes, for which the Site
/// entry has room; its time is `now`.
///
/// A disk that encodes the empty history is used as it is and not cut, and any other of at most nine bytes is written anew. Any
/// other is left as it is, also where the disk fails: `NotEmpty` has its size. `Disk` comes only where the disk failed,
/// `NoMemory` with nothing written, and no other fault does. A crash in this call leaves what encodes no entries
/// or the Site entry, or what a crash before could have left, and at most nine bytes where the disk is written anew;
/// of any other disk, what a crash before could have left alone.
pub fn found_wallet<D: Disk>(
    alloc: Global,
    disk: D,
    limits: Limits,
    name: &Name,
    now: Moment,
) -> Result<Wallet<D>, HouseFault<D>>
    requires limits { AreInRange limits }
    requires room { EMPTY_JOURNAL + entry_size [] (Site now 2 name.now None) ≤ limits.journal }
    ensures moved { D.disk_moved disk (wallet_disk result) }
    ensures exact { (x : List ℕ) → (D.disk disk).contents ≡ Some x
        → FoundsWalletBy D.disk limits (Site now 2 name.now None) x result }
    ensures ran { (x : List ℕ) → (D.disk disk).contents ≡ Some x
        → Ran (D.disk disk) (D.disk (wallet_disk result)) (FoundNoOutput (D.disk disk) (Site now 2 name.now None)) }
    ensures read { ReadsOnly D.disk disk result }
    ensures fault { CountsBy result (D.disk disk).faults (D.disk (wallet_disk result)).faults }
    ensures uncut { (x : List ℕ) → (D.disk disk).contents ≡ Some x → Encodes [] x
        → IsUncut (D.disk disk) (D.disk (wallet_disk result)) }
{
    // What they know of themselves.
    let _seconds = now.seconds();
    let site = Record::Site {
        moment: now,
        kind: 2,
        name: name.bytes(),
        house: None,
    };
    let book = WalletBook::new(alloc, &site, limits);
    match found_book(alloc, disk, limits, &site) {
        Ok(journal) => Ok(Wallet::new(alloc, journal, book)),
        Err(fault) => Err(fault),
    }
}
