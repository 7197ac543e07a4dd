//! Founding the book of a wallet.

ghost use Rattle.std.specs.Prelude.{◌≡◌, List, ℕ, Some};
ghost use Rattle.command_status.specs.Statuses.{number_of};
ghost use Rattle.wallet_commands.specs.Founding.{FoundsBook, InitCauses};

use command_status::{Status, not_opened};
use mc_outside::{Link, Outside};
use mc_requests::Limits;
use scrip_form::Name;
use std::alloc::Global;
use wallet_core::found_wallet;

/// Founds a wallet of this name in the book on the outside's disk, at the reading of the clock. Hands the outside
/// back, and tells how it ended: the wallet was founded; the book has bytes already (50 `NotEmpty`), and they stay; or
/// memory was refused, or the disk failed.
pub fn init<O: Outside>(alloc: Global, name: &Name, mut out: O) -> (O, Status)
    ensures words { number_of result.1 ≡ 2 → ⊥ }
    ensures causes { InitCauses O.link O.disk out result.1 result.0 }
    ensures founded { (x : List ℕ) → (O.disk out).contents ≡ Some x
        → FoundsBook O.link O.disk name.now x out result.1 result.0 }
{
    let moment = out.now();
    // What they know of themselves.
    let _seconds = moment.seconds();
    let _bytes = name.bytes();
    match found_wallet(alloc, out, Limits::FULL, name, moment) {
        Ok(wallet) => (wallet.close(), Status::Founded(*name)),
        Err(fault) => not_opened(fault),
    }
}
