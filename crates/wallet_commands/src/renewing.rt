//! Renewing a piece that ends soon.

ghost use Rattle.std.specs.Prelude.{◌≡◌, ◌+◌, ◌≤◌, [], List as Items, ℕ, Some, slice_get, vec_len, vec_capacity};
ghost use Rattle.command_status.specs.Statuses.{number_of};
ghost use Rattle.mc_requests.specs.declared.limits.TheConstants.Limits.{FULL};
ghost use Rattle.wallet_model.specs.Asks.{due_entry};
ghost use Rattle.wallet_book.specs.declared.holding.Holding.{Holding as Piece};
ghost use Rattle.wallet_core.specs.declared.ask.Ask.TheVariants.{Get};
ghost use Rattle.wallet_commands.specs.declared.saying.Saying.TheVariants.{Renewal};
ghost use Rattle.wallet_commands.specs.Books.{IsKnown, Opened};
ghost use Rattle.wallet_commands.specs.Causes.{CausesBy, RefusedBy, WalletCauses};
ghost use Rattle.wallet_commands.specs.Paying.{RenewsBook, PaysAs, Clocked};

use crate::paying::reply_room;
use crate::saying::Saying;
use crate::settling::use_link;
use command_status::{Status, not_opened};
use mc_base::{Moment, NoMemory};
use mc_outside::{Disk, Outside};
use mc_requests::{Limits, Refusal};
use reply_reader::ReplyReader;
use said_lines::READY;
use scrip_form::{Name, Target};
use std::alloc::Global;
use wallet_core::{Ask, Wallet, WalletOut, open_wallet, raise_by_clock, renew_place};

/// Opens the book on the outside's disk as that of a wallet, and pays for a target of a vendor with the piece that ends
/// first of those that are held, are not expired at the reading of the clock, and end at a moment at the latest; the
/// change of it, which comes in the vendor's own series, has an end of its own. It goes on as `pay` does of a get, but
/// does not say the contents: it says the value and the end of the change that came, or 0 and 0 where none did. It is
/// told where nothing is due (80 `NothingDue`).
pub fn renew<O: Outside>(
    alloc: Global,
    vendor: &Name,
    target: &Target,
    before: Moment,
    out: O,
) -> (O, Status)
    ensures words { number_of result.1 ≡ 2 → ⊥ }
    ensures causes { WalletCauses O.link O.disk out result.1 result.0 }
    ensures renewed { (x : Items ℕ) → (O.disk out).contents ≡ Some x
        → RenewsBook O.link O.disk vendor.now target.now before x out result.1 result.0 }
{
    let wallet = match open_wallet(alloc, out, Limits::FULL) {
        Ok(wallet) => wallet,
        Err(fault) => return not_opened(fault),
    };
    match reply_room(alloc) {
        Ok((reader, line)) => renew_by_clock(wallet, vendor, target, before, reader, line),
        Err(NoMemory) => (wallet.close(), Status::NoMemory),
    }
}

/// Renews with a wallet of a book that was opened: reads the clock once, enters the request that pays with the piece
/// that is due, and uses a link for it.
fn renew_by_clock<O: Outside>(
    mut wallet: Wallet<O>,
    vendor: &Name,
    target: &Target,
    before: Moment,
    mut reader: ReplyReader,
    line: Vec<u8>,
) -> (O, Status)
    requires known { IsKnown O.disk wallet }
    requires limits { wallet.book.limits ≡ FULL }
    requires empty { line.items ≡ [] }
    requires room { vec_len line + READY ≤ vec_capacity line }
    ensures words { number_of result.1 ≡ 2 → ⊥ }
    ensures causes { CausesBy RefusedBy O.link O.disk wallet.journal.disk result.1 result.0 }
    ensures renewed { (a : O) (x : Items ℕ) → Opened O.link O.disk x a wallet
        → Clocked O.link (λ h t clocked. PaysAs (Renewal vendor.now) O.link O.disk h t (due_entry h t vendor.now target.now before) a clocked result.1 result.0) x a }
{
    let _reading = raise_by_clock(&mut wallet);
    let place = match renew_place(&wallet, vendor, before) {
        Some(place) => place,
        None => return (wallet.close(), Status::Refused(Refusal::NothingDue)),
    };
    let ask = get_with(&wallet, place, vendor, target);
    match wallet.pend_with(place, &ask) {
        WalletOut::Done(wallet, number) => {
            let saying = Saying::Renewal(*vendor);
            use_link(wallet, number, &saying, &mut reader, line)
        }
        WalletOut::Refused(wallet, refusal) => (wallet.close(), Status::Refused(refusal)),
        WalletOut::NoMemory(wallet) => (wallet.close(), Status::NoMemory),
        WalletOut::Halted(halted) => (halted.close(), Status::DiskFault),
    }
}

/// The get of a target of a vendor whose limit is the value of the piece of a place.
fn get_with<D: Disk>(wallet: &Wallet<D>, place: usize, vendor: &Name, target: &Target) -> Ask
    requires { (x : Piece) × (slice_get wallet.now.book.holdings place ≡ Some x) }
    ensures { (x : Piece) → slice_get wallet.now.book.holdings place ≡ Some x
        → result ≡ Get vendor.now target.now x.piece.value }
{
    Ask::Get {
        vendor: *vendor,
        target: *target,
        limit: wallet.holdings()[place].piece.value(),
    }
}
