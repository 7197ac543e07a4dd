//! Listing the pieces of a wallet, and telling those that another may sell.

ghost use Rattle.std.specs.Prelude.{◌≡◌, List as Items, ℕ, Some};
ghost use Rattle.command_status.specs.Statuses.{number_of};
ghost use Rattle.ledger_model.specs.Histories.{History};
ghost use Rattle.held_lines.specs.Resold.{Appends, LeavesBytes, resold_for};
ghost use Rattle.wallet_core.specs.Wallet.{WalletStands};
ghost use Rattle.wallet_commands.specs.Causes.{WalletCauses};
ghost use Rattle.wallet_commands.specs.Listing.{ListsBook, ListsHeld};

use crate::lines::holding_lines;
use command_status::{Status, not_opened};
use held_lines::{LinesFault, append_held};
use mc_base::List;
use mc_outside::{Disk, Outside};
use mc_requests::Limits;
use scrip_form::Name;
use std::alloc::Global;
use wallet_core::{Wallet, open_wallet, raise_by_clock};

/// Opens the book on the outside's disk as that of a wallet, and makes the lines of its pieces. Hands the outside
/// back, and tells how it ended. Nothing is written, and no link is taken.
pub fn list<O: Outside>(alloc: Global, out: O) -> (O, Status)
    ensures words { number_of result.1 ≡ 2 → ⊥ }
    ensures causes { WalletCauses O.link O.disk out result.1 result.0 }
    ensures listed { (x : Items ℕ) → (O.disk out).contents ≡ Some x
        → ListsBook O.link O.disk x out result.1 result.0 }
{
    let wallet = match open_wallet(alloc, out, Limits::FULL) {
        Ok(wallet) => wallet,
        Err(fault) => return not_opened(fault),
    };
    match holding_lines(alloc, wallet.holdings()) {
        Ok(lines) => (wallet.close(), Status::Did(List::of(lines))),
        Err(_) => (wallet.close(), Status::NoMemory),
    }
}

/// Opens the book on the outside's disk as that of a wallet, and makes the lines of the first 256 pieces of a vendor that
/// are held, not expired at the reading of the clock, and as they were first handed out. Hands the outside back, and
/// tells how it ended; where there is no such piece that is told (62 `NoFunds` with 0). Nothing is written, and no link is
/// taken.
pub fn list_held<O: Outside>(alloc: Global, vendor: &Name, out: O) -> (O, Status)
    ensures words { number_of result.1 ≡ 2 → ⊥ }
    ensures causes { WalletCauses O.link O.disk out result.1 result.0 }
    ensures told { (x : Items ℕ) → (O.disk out).contents ≡ Some x
        → ListsHeld O.link O.disk vendor.now x out result.1 result.0 }
{
    let mut wallet = match open_wallet(alloc, out, Limits::FULL) {
        Ok(wallet) => wallet,
        Err(fault) => return not_opened(fault),
    };
    let _reading = raise_by_clock(&mut wallet);
    let mut lines = Vec::new(alloc);
    match held_lines(alloc, &wallet, vendor, &mut lines) {
        Ok(_) => (wallet.close(), Status::Did(List::of(lines))),
        Err(LinesFault::Refused(none)) => (wallet.close(), Status::Refused(none)),
        Err(LinesFault::NoMemory) => (wallet.close(), Status::NoMemory),
    }
}

/// Appends the lines of the first 256 pieces of a vendor, in the order in which they came, that are held, not expired at
/// the wallet's time, and as they were first handed out, and answers how many they are. `Err` leaves the bytes as they
/// were; it is 62 `NoFunds` with 0 exactly where there is no such piece. The wallet stays as it is.
pub fn held_lines<D: Disk>(
    alloc: Global,
    wallet: &Wallet<D>,
    vendor: &Name,
    out: &mut Vec<u8>,
) -> Result<u16, LinesFault>
    ensures exact { (h : History) → WalletStands D.disk wallet.now h
        → Appends (resold_for h wallet.now.book.time vendor.now) out.old.items out.new.items result }
    ensures bytes { LeavesBytes out.old.items out.new.items result }
{
    append_held(alloc, wallet.holdings(), wallet.time(), vendor, out)
}
