//! Using a link for a request that is kept.

ghost use Rattle.std.specs.Prelude.{◌≡◌, ◌+◌, ◌≤◌, [], Some, length, vec_len, vec_capacity, IsTrue};
ghost use Rattle.command_status.specs.Statuses.{number_of};
ghost use Rattle.mc_requests.specs.declared.limits.TheConstants.Limits.{FULL};
ghost use Rattle.ledger_model.specs.Histories.{History};
ghost use Rattle.reply_reader.specs.Seen.{received_of};
ghost use Rattle.wallet_model.specs.Requests.{Pending};
ghost use Rattle.wallet_book.specs.Kept.{kept_in};
ghost use Rattle.wallet_core.specs.Wallet.{WalletStands};
ghost use Rattle.wallet_core.specs.Outcomes.{outcome_disk};
ghost use Rattle.wallet_commands.specs.Causes.{CausesBy, CheckRefused, ReadRefused, LinkRefused};
ghost use Rattle.wallet_commands.specs.Paying.{UsesLinkAs};
ghost use Rattle.wallet_commands.specs.Replies.{ReadsReply, EndsReply, came_behind, settled_status, settlement_status, told_status};

use crate::lines::{put_got, put_renewed};
use crate::saying::{Saying, said_first, say_all};
use crate::sending::{SendFault, send_request};
use command_status::Status;
use mc_base::List;
use mc_outside::{Disk, LinkFault, Outside};
use mc_requests::Refusal;
use reply_reader::{ReplyFault, ReplyReader, ReplyRef};
use said_lines::READY;
use scrip_form::Piece;
use wallet_core::{Settlement, Wallet, WalletOut};

/// Uses the next link for a kept request: sends it, reads the reply to it, and settles it by that. `line` is empty,
/// with room for the line that is said, which tells `saying`. Hands the outside back, and tells how it ended.
pub(crate) fn use_link<O: Outside>(
    mut wallet: Wallet<O>,
    number: u64,
    saying: &Saying,
    reader: &mut ReplyReader,
    line: Vec<u8>,
) -> (O, Status)
    requires kept { (h : History) → WalletStands O.disk wallet h
        → (p : Pending) × (kept_in h number ≡ Some p) }
    requires empty { line.items ≡ [] }
    requires room { vec_len line + READY ≤ vec_capacity line }
    requires limits { wallet.book.limits ≡ FULL }
    ensures words { number_of result.1 ≡ 2 → ⊥ }
    ensures causes { CausesBy LinkRefused O.link O.disk wallet.journal.disk result.1 result.0 }
    ensures used { (h : History) (p : Pending) → WalletStands O.disk wallet h
        → kept_in h number ≡ Some p
        → UsesLinkAs saying.now O.link O.disk h wallet.book.time number p wallet.journal.disk result.1 result.0 }
{
    let mut room = [0; 2048];
    let request = match wallet.request_bytes(number, &mut room) {
        Some(len) if len <= room.len() => &room[..len],
        // A request that is kept has its bytes.
        _ => return (wallet.close(), Status::Refused(Refusal::Nothing)),
    };
    match send_request(&mut wallet, request) {
        Ok(()) => settle_by_reply(wallet, number, saying, reader, line),
        Err(SendFault::NoLink) => (wallet.close(), Status::Refused(Refusal::NoLink)),
        Err(SendFault::Link) => (wallet.close(), Status::LinkFault),
    }
}

/// Reads the reply to a kept request on the standing link, and settles the request by it.
fn settle_by_reply<O: Outside>(
    mut wallet: Wallet<O>,
    number: u64,
    saying: &Saying,
    reader: &mut ReplyReader,
    line: Vec<u8>,
) -> (O, Status)
    requires kept { (h : History) → WalletStands O.disk wallet h
        → (p : Pending) × (kept_in h number ≡ Some p) }
    requires stands { IsTrue (O.link wallet.journal.disk).stands }
    requires empty { line.items ≡ [] }
    requires room { vec_len line + READY ≤ vec_capacity line }
    requires limits { wallet.book.limits ≡ FULL }
    ensures words { number_of result.1 ≡ 2 → ⊥ }
    ensures causes { CausesBy ReadRefused O.link O.disk wallet.journal.disk result.1 result.0 }
    ensures read { (h : History) (p : Pending) → WalletStands O.disk wallet h
        → kept_in h number ≡ Some p
        → ReadsReply saying.now O.link O.disk h wallet.book.time number p wallet.journal.disk result.1 result.0 }
{
    match reader.take(&mut wallet) {
        Ok(reply) => settle(wallet, number, saying, &reply, line),
        Err(ReplyFault::NoReply) => (wallet.close(), Status::Refused(Refusal::NoReply)),
        Err(ReplyFault::BadReply) => (wallet.close(), Status::Refused(Refusal::BadReply)),
        Err(ReplyFault::Fault) => (wallet.close(), Status::LinkFault),
    }
}

/// Settles a kept request by a reply, where that passes the check. The contents that a get brings are said before the
/// settlement is written.
fn settle<O: Outside>(
    mut wallet: Wallet<O>,
    number: u64,
    saying: &Saying,
    reply: &ReplyRef<'_>,
    line: Vec<u8>,
) -> (O, Status)
    requires kept { (h : History) → WalletStands O.disk wallet h
        → (p : Pending) × (kept_in h number ≡ Some p) }
    requires empty { line.items ≡ [] }
    requires room { vec_len line + READY ≤ vec_capacity line }
    requires limits { wallet.book.limits ≡ FULL }
    ensures words { number_of result.1 ≡ 2 → ⊥ }
    ensures causes { CausesBy (CheckRefused (received_of reply.now)) O.link O.disk wallet.journal.disk result.1 result.0 }
    ensures ended { (h : History) (p : Pending) → WalletStands O.disk wallet h
        → kept_in h number ≡ Some p
        → EndsReply saying.now O.link O.disk h wallet.book.time number p (received_of reply.now) wallet.journal.disk result.1 result.0 }
{
    let checked = match wallet.check_reply(number, reply) {
        Ok(checked) => checked,
        Err(refusal) => return (wallet.close(), Status::Refused(refusal)),
    };
    let contents = said_first(saying, wallet.kept_kind(number), reply);
    match say_all(&mut wallet, contents) {
        Ok(()) => {
            let count = piece_count(&wallet);
            settled(wallet.settle_reply(checked), saying, count, line)
        }
        Err(LinkFault) => (wallet.close(), Status::LinkFault),
    }
}

/// The outside of a wallet whose request was settled, or was not, and how that ended. So many pieces stood before.
fn settled<O: Outside>(
    outcome: WalletOut<O, Settlement>,
    saying: &Saying,
    count: usize,
    line: Vec<u8>,
) -> (O, Status)
    requires empty { line.items ≡ [] }
    requires room { vec_len line + READY ≤ vec_capacity line }
    ensures out { result.0 ≡ outcome_disk outcome }
    ensures status { result.1 ≡ settled_status saying.now count outcome }
    ensures words { number_of result.1 ≡ 2 → ⊥ }
{
    match outcome {
        WalletOut::Done(wallet, settlement) => {
            let change = came_behind(&wallet, count);
            (wallet.close(), told(settlement, saying, change, line))
        }
        WalletOut::Refused(wallet, refusal) => (wallet.close(), Status::Refused(refusal)),
        WalletOut::NoMemory(wallet) => (wallet.close(), Status::NoMemory),
        WalletOut::Halted(halted) => (halted.close(), Status::DiskFault),
    }
}

/// How a command ends whose request was settled so, where this change came.
fn told(settlement: Settlement, saying: &Saying, change: Option<Piece>, mut line: Vec<u8>) -> Status
    requires empty { line.items ≡ [] }
    requires room { vec_len line + READY ≤ vec_capacity line }
    ensures status { result ≡ told_status saying.now change settlement }
    ensures words { number_of result ≡ 2 → ⊥ }
{
    match saying {
        Saying::Contents => told_got(settlement, line),
        Saying::Renewal(vendor) => match settlement {
            Settlement::Refused { number } => {
                Status::Refused(Refusal::SiteRefused(u64::from(number)))
            }
            _ => {
                put_renewed(&mut line, vendor, change);
                Status::Did(List::of(line))
            }
        },
    }
}

/// How a command ends whose request was settled so, where it is no renewal.
fn told_got(settlement: Settlement, mut line: Vec<u8>) -> Status
    requires empty { line.items ≡ [] }
    requires room { vec_len line + READY ≤ vec_capacity line }
    ensures status { result ≡ settlement_status settlement }
    ensures words { number_of result ≡ 2 → ⊥ }
{
    match settlement {
        Settlement::Paid { price: _ } => Status::Done,
        Settlement::Got { piece } => {
            put_got(&mut line, &piece);
            Status::Did(List::of(line))
        }
        Settlement::Refused { number } => {
            Status::Refused(Refusal::SiteRefused(u64::from(number)))
        }
    }
}

/// How many pieces a wallet has, whatever their states.
fn piece_count<D: Disk>(wallet: &Wallet<D>) -> usize
    ensures { result ≡ length wallet.now.book.holdings }
{
    wallet.holdings().len()
}

/// The piece of a wallet that came first behind so many.
fn came_behind<D: Disk>(wallet: &Wallet<D>, count: usize) -> Option<Piece>
    ensures { result ≡ came_behind count wallet.now.book.holdings }
{
    match wallet.holdings().get(count) {
        Some(x) => Some(x.piece),
        None => None,
    }
}
