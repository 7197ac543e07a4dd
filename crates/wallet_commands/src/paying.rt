//! Getting, buying, drawing, and trying again.

ghost use Rattle.std.specs.Prelude.{◌≡◌, ◌+◌, ◌≤◌, [], List as Items, ℕ, Some, IfOk, vec_len, vec_capacity};
ghost use Rattle.command_status.specs.Statuses.{number_of};
ghost use Rattle.wallet_core.specs.Asks.{HasAmounts, asking_of};
ghost use Rattle.mc_requests.specs.declared.limits.TheConstants.Limits.{FULL};
ghost use Rattle.wallet_model.specs.Requests.{oldest_kept};
ghost use Rattle.wallet_model.specs.Asks.{pend_entry};
ghost use Rattle.wallet_commands.specs.Books.{IsKnown, Opened};
ghost use Rattle.wallet_commands.specs.Causes.{CausesBy, RefusedBy, WalletCauses};
ghost use Rattle.wallet_commands.specs.Paying.{PaysBook, PaysBy, RetriesBook, RetriesBy, Clocked};

use crate::lines::line_room;
use crate::saying::Saying;
use crate::settling::use_link;
use command_status::{Status, not_opened};
use mc_base::NoMemory;
use mc_outside::Outside;
use mc_requests::Limits;
use reply_reader::ReplyReader;
use said_lines::READY;
use scrip_form::Name;
use std::alloc::Global;
use wallet_core::{Ask, Wallet, WalletOut, open_wallet, raise_by_clock};

/// Opens the book on the outside's disk as that of a wallet, and pays for what is asked: at the reading of the clock the
/// request is entered with the piece that it pays with, a draw without; it is sent on the next link; and the reply
/// to it settles it. The contents that a get brings are said before that is entered. Hands the outside back, and
/// tells how it ended; what is got says no line, and what is bought or drawn its piece.
pub fn pay<O: Outside>(alloc: Global, ask: &Ask, out: O) -> (O, Status)
    requires { HasAmounts ask.now }
    ensures words { number_of result.1 ≡ 2 → ⊥ }
    ensures causes { WalletCauses O.link O.disk out result.1 result.0 }
    ensures paid { (x : Items ℕ) → (O.disk out).contents ≡ Some x
        → PaysBook O.link O.disk (asking_of ask.now) x out result.1 result.0 }
{
    let wallet = match open_wallet(alloc, out, Limits::FULL) {
        Ok(wallet) => wallet,
        Err(fault) => return not_opened(fault),
    };
    match reply_room(alloc) {
        Ok((reader, line)) => pay_by_clock(wallet, ask, reader, line),
        Err(NoMemory) => (wallet.close(), Status::NoMemory),
    }
}

/// Opens the book on the outside's disk as that of a wallet, and tries the oldest kept request of a peer again, as
/// [`pay`] goes on with one that it entered. It is told that there is none (67 `Nothing`).
pub fn retry<O: Outside>(alloc: Global, peer: &Name, out: O) -> (O, Status)
    ensures words { number_of result.1 ≡ 2 → ⊥ }
    ensures causes { WalletCauses O.link O.disk out result.1 result.0 }
    ensures tried { (x : Items ℕ) → (O.disk out).contents ≡ Some x
        → RetriesBook O.link O.disk peer.now x out result.1 result.0 }
{
    let wallet = match open_wallet(alloc, out, Limits::FULL) {
        Ok(wallet) => wallet,
        Err(fault) => return not_opened(fault),
    };
    match reply_room(alloc) {
        Ok((reader, line)) => retry_by_clock(wallet, peer, reader, line),
        Err(NoMemory) => (wallet.close(), Status::NoMemory),
    }
}

/// The memory that using a link takes: for the reply that comes, and for the line that is said then.
pub(crate) fn reply_room(alloc: Global) -> Result<(ReplyReader, Vec<u8>), NoMemory>
    ensures items { IfOk result (λ r. r.1.items ≡ []) }
    ensures room { IfOk result (λ r. vec_len r.1 + READY ≤ vec_capacity r.1) }
{
    let reader = ReplyReader::new(alloc)?;
    let line = line_room(alloc)?;
    Ok((reader, line))
}

/// Pays for what is asked with a wallet of a book that was opened: reads the clock once, enters the request, and uses a
/// link for it.
fn pay_by_clock<O: Outside>(
    mut wallet: Wallet<O>,
    ask: &Ask,
    mut reader: ReplyReader,
    line: Vec<u8>,
) -> (O, Status)
    requires amounts { HasAmounts ask.now }
    requires known { IsKnown O.disk wallet }
    requires limits { wallet.book.limits ≡ FULL }
    requires empty { line.items ≡ [] }
    requires room { vec_len line + READY ≤ vec_capacity line }
    ensures words { number_of result.1 ≡ 2 → ⊥ }
    ensures causes { CausesBy RefusedBy O.link O.disk wallet.journal.disk result.1 result.0 }
    ensures paid { (a : O) (x : Items ℕ) → Opened O.link O.disk x a wallet
        → Clocked O.link (λ h t clocked. PaysBy O.link O.disk h t (pend_entry h t (asking_of ask.now)) a clocked result.1 result.0) x a }
{
    let _reading = raise_by_clock(&mut wallet);
    match wallet.pend(ask) {
        WalletOut::Done(wallet, number) => use_link(
            wallet,
            number,
            &Saying::Contents,
            &mut reader,
            line,
        ),
        WalletOut::Refused(wallet, refusal) => (wallet.close(), Status::Refused(refusal)),
        WalletOut::NoMemory(wallet) => (wallet.close(), Status::NoMemory),
        WalletOut::Halted(halted) => (halted.close(), Status::DiskFault),
    }
}

/// Tries the oldest kept request of a peer again with a wallet of a book that was opened: reads the clock once, and
/// uses a link for it.
fn retry_by_clock<O: Outside>(
    mut wallet: Wallet<O>,
    peer: &Name,
    mut reader: ReplyReader,
    line: Vec<u8>,
) -> (O, Status)
    requires limits { wallet.book.limits ≡ FULL }
    requires empty { line.items ≡ [] }
    requires room { vec_len line + READY ≤ vec_capacity line }
    ensures words { number_of result.1 ≡ 2 → ⊥ }
    ensures causes { CausesBy RefusedBy O.link O.disk wallet.journal.disk result.1 result.0 }
    ensures tried { (a : O) (x : Items ℕ) → Opened O.link O.disk x a wallet
        → Clocked O.link (λ h t clocked. RetriesBy O.link O.disk h t (oldest_kept h peer.now) a clocked result.1 result.0) x a }
{
    let _reading = raise_by_clock(&mut wallet);
    match wallet.retry_next(peer) {
        Ok(number) => use_link(wallet, number, &Saying::Contents, &mut reader, line),
        Err(refusal) => (wallet.close(), Status::Refused(refusal)),
    }
}
