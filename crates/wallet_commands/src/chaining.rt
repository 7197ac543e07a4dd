//! Switching the book of a wallet, and telling its chain.

ghost use Rattle.std.specs.Prelude.{◌≡◌, ◌+◌, ◌≤◌, List as Items, ℕ, Some, IfOk, vec_len, vec_capacity};
ghost use Rattle.command_status.specs.Statuses.{number_of};
ghost use Rattle.mc_requests.specs.declared.limits.TheConstants.Limits.{FULL};
ghost use Rattle.ledger_model.specs.Histories.{History};
ghost use Rattle.ledger_model.specs.Houses.{site_name};
ghost use Rattle.said_lines.specs.Lines.{chain_words};
ghost use Rattle.wallet_core.specs.Wallet.{WalletStands};
ghost use Rattle.wallet_core.specs.Outcomes.{outcome_disk};
ghost use Rattle.wallet_core.specs.Switching.{KnowsChain};
ghost use Rattle.wallet_commands.specs.Books.{Opened};
ghost use Rattle.wallet_commands.specs.Causes.{SwitchCauses};
ghost use Rattle.wallet_commands.specs.Paying.{Clocked};
ghost use Rattle.wallet_commands.specs.Chaining.{ChainsBook, EndsLine, HasChained, chained_status, switch_entry};

use command_status::{Status, not_opened};
use mc_base::{List, NoMemory};
use mc_outside::{Disk, Outside};
use mc_requests::Limits;
use said_lines::{READY, begin_chain, end_chain, lay_bare, ready};
use scrip_form::Name;
use scrip_journal::Receipt;
use std::alloc::Global;
use wallet_core::{Wallet, WalletOut, open_wallet, raise_by_clock};

/// Opens the book on the outside's disk as that of a wallet, switches it at the reading of the clock, where it was
/// not, and makes the line of its chain as it then stands. Hands the outside back, and tells how it ended. No link is
/// taken.
pub fn chain<O: Outside>(alloc: Global, out: O) -> (O, Status)
    ensures words { number_of result.1 ≡ 2 → ⊥ }
    ensures causes { SwitchCauses O.link O.disk out result.1 result.0 }
    ensures chained { (x : Items ℕ) → (O.disk out).contents ≡ Some x
        → ChainsBook O.link O.disk x out result.1 result.0 }
{
    let wallet = match open_wallet(alloc, out, Limits::FULL) {
        Ok(wallet) => wallet,
        Err(fault) => return not_opened(fault),
    };
    match begun_line(alloc, &wallet.name()) {
        Ok(line) => chain_by_clock(wallet, line),
        Err(NoMemory) => (wallet.close(), Status::NoMemory),
    }
}

/// The line of the chain of a book of this wallet, up to the count of its entries, with room for the rest.
fn begun_line(alloc: Global, name: &Name) -> Result<Vec<u8>, NoMemory>
    ensures items { IfOk result (λ line. line.items ≡ chain_words name.now) }
    ensures room { IfOk result (λ line. vec_len line + READY ≤ vec_capacity line) }
{
    let words = begin_chain(alloc, name)?;
    let mut line = ready(words)?;
    lay_bare(&mut line);
    Ok(line)
}

/// Switches a book that was opened, where it was not, and ends the line of its chain: reads the clock once before.
fn chain_by_clock<O: Outside>(mut wallet: Wallet<O>, mut line: Vec<u8>) -> (O, Status)
    requires limits { wallet.book.limits ≡ FULL }
    requires begun { (h : History) → WalletStands O.disk wallet h
        → line.items ≡ chain_words (site_name h) }
    requires room { vec_len line + READY ≤ vec_capacity line }
    ensures words { number_of result.1 ≡ 2 → ⊥ }
    ensures causes { SwitchCauses O.link O.disk wallet.journal.disk result.1 result.0 }
    ensures chained { (a : O) (x : Items ℕ) → Opened O.link O.disk x a wallet
        → Clocked O.link (λ h t clocked. HasChained O.link O.disk h (switch_entry h t) a clocked result.1 result.0) x a }
{
    let _reading = raise_by_clock(&mut wallet);
    let switched = wallet.switch();
    end_by_wallet(&switched, &mut line);
    chained(switched, line)
}

/// Ends the line of the chain of a book by the wallet of it, where one goes on. It takes no memory.
fn end_by_wallet<D: Disk, A>(outcome: &WalletOut<D, A>, line: &mut Vec<u8>)
    requires room { vec_len line.old + READY ≤ vec_capacity line.old }
    requires known { KnowsChain outcome.now }
    ensures { EndsLine D.disk outcome.now line.old.items line.new.items }
{
    match outcome {
        WalletOut::Done(wallet, _) => {
            let entries = wallet.entries();
            let digest = wallet.chain();
            end_chain(line, entries, &digest)
        }
        _ => (),
    }
}

/// The outside of a wallet whose book was switched, or was not, and how that ended.
fn chained<O: Outside>(outcome: WalletOut<O, Option<Receipt>>, line: Vec<u8>) -> (O, Status)
    ensures out { result.0 ≡ outcome_disk outcome }
    ensures status { result.1 ≡ chained_status line.items outcome }
    ensures words { number_of result.1 ≡ 2 → ⊥ }
{
    match outcome {
        WalletOut::Done(wallet, _receipt) => (wallet.close(), Status::Did(List::of(line))),
        WalletOut::Refused(wallet, full) => (wallet.close(), Status::Refused(full)),
        WalletOut::NoMemory(wallet) => (wallet.close(), Status::NoMemory),
        WalletOut::Halted(halted) => (halted.close(), Status::DiskFault),
    }
}
