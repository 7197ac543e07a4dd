//! Opening a book as a wallet.

ghost use Rattle.std.specs.Prelude.{◌≡◌, List, ℕ, IfOk, Some};
ghost use Rattle.mc_outside.specs.DiskView.{OnlyRead};
ghost use Rattle.mc_requests.specs.Limits.{AreInRange};
ghost use Rattle.book_opening.specs.Opening.{CountedBy};
ghost use Rattle.wallet_core.specs.Opening.{wallet_disk, OpensWallet};

use crate::wallet::Wallet;
use book_opening::{Opener, open_book};
use mc_outside::Disk;
use mc_records::Record;
use mc_requests::Limits;
use scrip_journal::{HouseFault, LearnFault};
use std::alloc::Global;
use wallet_book::WalletBook;

/// Who opens a book as a wallet with these limits.
#[derive(Drop)]
pub(crate) struct WalletOpener {
    limits: Limits,
}

impl Opener for WalletOpener {
    ghost use Rattle.wallet_core.specs.Opening.{opener_of};
    ghost use Rattle.wallet_core.specs.First.{site_first, tells_chain};

    type Learner = WalletBook;

    ghost opener = { opener_of };

    fn opens(&self, kind: u8) -> bool {
        kind == 2
    }

    fn begin(self, alloc: Global, first: &Record<'_>) -> Result<WalletBook, LearnFault> {
        let WalletOpener { limits } = self;
        Ok(WalletBook::new(alloc, first, limits))
    }

    fn is_told(r: &Record<'_>, before: &[u8; 32]) -> bool {
        r.tells(before)
    }

    fn learn(book: &mut WalletBook, r: &Record<'_>) -> Result<(), LearnFault> {
        match book.reserve(r) {
            Ok(()) => (),
            Err(_) => return Err(LearnFault::NoMemory),
        }
        if book.learn(r) {
            Ok(())
        } else {
            Err(LearnFault::Unlawful)
        }
    }

    ghost site_first = { λ o. site_first };

    ghost told_first = { λ o. tells_chain };
}

/// Opens the book that the disk has as a wallet. Its journal may grow to `limits.journal` bytes; its time is
/// that of the last entry.
///
/// `NotJournal` comes where the disk does not begin with the header of a journal, and `BadRecord` where
/// its bytes can't stand, from the place told on; `BadChain` where an entry has another chain than the one computed.
/// `Unlawful` tells the place of the gate of the first
/// entry that may not follow those before it, and 8 where there is no entry at all. `WrongKind` comes
/// where the book is not that of a wallet. `Disk` comes only where the disk failed. Nothing is written, and each
/// fault hands the disk back.
pub fn open_wallet<D: Disk>(
    alloc: Global,
    disk: D,
    limits: Limits,
) -> Result<Wallet<D>, HouseFault<D>>
    requires limits { AreInRange limits }
    ensures moved { D.disk_moved disk (wallet_disk result) }
    ensures read { OnlyRead (D.disk disk) (D.disk (wallet_disk result)) }
    ensures exact { (x : List ℕ) → (D.disk disk).contents ≡ Some x
        → OpensWallet D.disk limits x result }
    ensures limits { IfOk result (λ w. w.book.limits ≡ limits) }
    ensures fault { CountedBy result (D.disk disk).faults (D.disk (wallet_disk result)).faults }
{
    match open_book(alloc, disk, limits, WalletOpener { limits }) {
        Ok((journal, book)) => Ok(Wallet::new(alloc, journal, book)),
        Err(fault) => Err(fault),
    }
}
