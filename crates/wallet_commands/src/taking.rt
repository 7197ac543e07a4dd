//! Taking pieces.

ghost use Rattle.std.specs.Prelude.{◌≡◌, ◌⊎◌, ◌+◌, ◌≤◌, [], List as Items, ℕ, Some, vec_len, vec_capacity};
ghost use Rattle.mc_requests.specs.declared.limits.TheConstants.Limits.{FULL};
ghost use Rattle.command_status.specs.Statuses.{number_of};
ghost use Rattle.wallet_core.specs.Outcomes.{outcome_disk};
ghost use Rattle.wallet_commands.specs.Books.{Opened};
ghost use Rattle.wallet_commands.specs.Causes.{CausesBy, RefusedBy, WalletCauses};
ghost use Rattle.wallet_commands.specs.Taking.{TakesBook, Unread, Took, taken_status};

use crate::lines::{line_room, put_taken};
use command_status::{Status, not_opened};
use mc_base::List;
use mc_outside::Outside;
use mc_requests::Limits;
use millicent_http::{InputFault, input_of};
use said_lines::READY;
use std::alloc::Global;
use wallet_core::{Wallet, WalletOut, open_wallet, raise_by_clock};

/// The most bytes of the lines that are taken.
pub const MOST_LINES: usize = 131_072;

/// Opens the book on the outside's disk as that of a wallet, and takes the pieces whose lines the next link brings, at
/// the reading of the clock. Hands the outside back, and tells how it ended.
pub fn take<O: Outside>(alloc: Global, out: O) -> (O, Status)
    ensures words { number_of result.1 ≡ 2 → ⊥ }
    ensures causes { WalletCauses O.link O.disk out result.1 result.0 }
    ensures took { (x : Items ℕ) → (O.disk out).contents ≡ Some x
        → TakesBook O.link O.disk x out result.1 result.0 }
{
    match open_wallet(alloc, out, Limits::FULL) {
        Ok(wallet) => take_input(alloc, wallet),
        Err(fault) => not_opened(fault),
    }
}

/// Takes the pieces of the next link's lines into a wallet.
fn take_input<O: Outside>(alloc: Global, mut wallet: Wallet<O>) -> (O, Status)
    requires { wallet.book.limits ≡ FULL }
    ensures words { number_of result.1 ≡ 2 → ⊥ }
    ensures causes { CausesBy RefusedBy O.link O.disk wallet.journal.disk result.1 result.0 }
    ensures took { (a : O) (x : Items ℕ) → Opened O.link O.disk x a wallet
        → Unread O.link O.disk x a result.1 result.0 ⊎ Took O.link O.disk x a result.1 result.0 }
{
    let Ok(line) = line_room(alloc) else {
        return (wallet.close(), Status::NoMemory);
    };
    let input = match input_of(alloc, &mut wallet, Some(MOST_LINES)) {
        Ok(input) => input,
        Err(InputFault::NoMemory) => return (wallet.close(), Status::NoMemory),
        Err(InputFault::Link) => return (wallet.close(), Status::LinkFault),
    };
    let _reading = raise_by_clock(&mut wallet);
    taken(wallet.take(&input), line)
}

/// The outside of a wallet that took pieces, or did not, and how that ended.
fn taken<O: Outside>(outcome: WalletOut<O, u16>, mut line: Vec<u8>) -> (O, Status)
    requires empty { line.items ≡ [] }
    requires room { vec_len line + READY ≤ vec_capacity line }
    ensures out { result.0 ≡ outcome_disk outcome }
    ensures status { result.1 ≡ taken_status outcome }
    ensures words { number_of result.1 ≡ 2 → ⊥ }
{
    match outcome {
        WalletOut::Done(wallet, count) => {
            put_taken(&mut line, count);
            (wallet.close(), Status::Did(List::of(line)))
        }
        WalletOut::Refused(wallet, refusal) => (wallet.close(), Status::Refused(refusal)),
        WalletOut::NoMemory(wallet) => (wallet.close(), Status::NoMemory),
        WalletOut::Halted(halted) => (halted.close(), Status::DiskFault),
    }
}
