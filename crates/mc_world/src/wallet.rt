//! What a wallet of a world does. Between events it is its history; for each event it is opened by that, entry by
//! entry.

ghost use Rattle.std.specs.Prelude.{◌≡◌, ◌≤◌, ◌↔◌, true, false, Ok, IsTrue, IfOk, option_map};
ghost use Rattle.mc_base.specs.declared.amount.TheConstants.Amount.{MOST};
ghost use Rattle.mc_records.specs.Entry.{Fits, IsKey};
ghost use Rattle.mc_records.specs.Views.{entry};
ghost use Rattle.ledger_model.specs.Histories.{History as Entries};
ghost use Rattle.ledger_model.specs.Answer.{fitted};
ghost use Rattle.wallet_model.specs.Asks.{request_bytes};
ghost use Rattle.wallet_book.specs.Book.{WalletRepresents};
ghost use Rattle.wallet_core.specs.Asks.{asking_of, HasAmounts};
ghost use Rattle.wallet_core.specs.Requests.{pending_view};
ghost use Rattle.world_model.specs.Worlds.{CanBeAsked};
ghost use Rattle.world_model.specs.Agreement.{IsBookOfWallet};
ghost use Rattle.mc_world.specs.Wallets.{IsOpened, AsksFor, SendsAgainFor, SettlesBy};

use ledger_model::History;
use mc_base::{Amount, Moment, NoMemory};
use mc_records::{PieceList, Record, SiteTerms, grown_size};
use mc_requests::Limits;
use reply_reader::{ReplyRead, read_reply};
use scrip_form::Name;
use std::alloc::Global;
use std::vec::Vec;
use wallet_book::WalletBook;
use wallet_core::{
    Ask, WalletRequest, check_reply, kept_request, pend_record, put_request, request_for,
    settlement_record,
};

/// What a wallet keeps of its book, opened by its history.
fn open(alloc: Global, history: &History, limits: Limits) -> Result<WalletBook, NoMemory>
    requires book { IsBookOfWallet history.now }
    ensures opened { IfOk result (λ b. IsOpened limits history.now b) }
{
    let Some(first) = history.get(0) else {
        return Err(NoMemory);
    };
    let mut book = WalletBook::new(alloc, &first, limits);
    for number in 1..history.len() {
        let Some(entry) = history.get(number) else {
            return Err(NoMemory);
        };
        book.reserve(&entry)?;
        if !book.learn(&entry) {
            return Err(NoMemory);
        }
    }
    Ok(book)
}

/// Enters what is asked of a wallet at a reading, and answers the bytes of its request; None where it can't be asked
/// or there is no piece or no room for it, and then the history stays.
pub(crate) fn ask(
    alloc: Global,
    history: &mut History,
    limits: Limits,
    ask: &Ask,
    reading: u64,
) -> Result<Option<Vec<u8>>, NoMemory>
    requires book { IsBookOfWallet history.old }
    ensures asks { IfOk result (λ sent. AsksFor limits history.old (asking_of ask.now) reading history.new (option_map (λ v. v.items) sent)) }
{
    let _parts: Option<(PieceList<'_>, SiteTerms<'_>)> = None;
    if !can_be_asked(ask) {
        return Ok(None);
    }
    let mut book = open(alloc, history, limits)?;
    let now = book.raise(Moment::clamped(reading));
    let request = match request_for(&book, ask) {
        Ok(request) => request,
        Err(_no_funds) => return Ok(None),
    };
    let record = pend_record(now, &request);
    if !has_room(&book, &record) {
        return Ok(None);
    }
    let bytes = bytes_of(alloc, &request)?;
    history.push(&record)?;
    Ok(Some(bytes))
}

/// The bytes of a wallet's oldest kept request of a peer, where there is one.
pub(crate) fn send_again(
    alloc: Global,
    history: &History,
    limits: Limits,
    peer: &Name,
) -> Result<Option<Vec<u8>>, NoMemory>
    requires book { IsBookOfWallet history.now }
    ensures sends { IfOk result (λ sent. SendsAgainFor history.now peer.now (option_map (λ v. v.items) sent)) }
{
    let book = open(alloc, history, limits)?;
    let number = match book.retry_next(peer) {
        Ok(number) => number,
        Err(_nothing) => return Ok(None),
    };
    let Some(request) = kept_request(&book, number) else {
        // The oldest one is kept.
        return Err(NoMemory);
    };
    Ok(Some(bytes_of(alloc, &request)?))
}

/// Enters the settlement of a wallet's kept request by a reply at a reading. False where the bytes are no reply, the
/// request is not kept, the check refuses the reply, or there is no room; and then the history stays.
pub(crate) fn take_reply(
    alloc: Global,
    history: &mut History,
    limits: Limits,
    reply: &[u8],
    number: u64,
    reading: u64,
) -> Result<bool, NoMemory>
    requires book { IsBookOfWallet history.old }
    ensures settles { IfOk result (λ done. SettlesBy limits history.old reply.now number reading history.new done) }
{
    let _parts: Option<(PieceList<'_>, SiteTerms<'_>)> = None;
    let read = match read_reply(reply) {
        ReplyRead::Whole(read) => read,
        ReplyRead::Bad => return Ok(false),
        ReplyRead::Short(_needed) => return Ok(false),
    };
    let mut book = open(alloc, history, limits)?;
    let request = match kept_request(&book, number) {
        Some(request) => request,
        None => return Ok(false),
    };
    if check_reply(&request, &read).is_some() {
        return Ok(false);
    }
    book.raise(Moment::clamped(reading));
    let settled = settlement_record(&book, number, &request, &read);
    if !has_room(&book, &settled) {
        return Ok(false);
    }
    history.push(&settled)?;
    Ok(true)
}

/// Whether the amounts of what is asked are at least 1, and an order 1 to 2^40.
fn can_be_asked(ask: &Ask) -> bool
    ensures can { IsTrue result ↔ CanBeAsked (asking_of ask.now) }
    ensures amounts { IsTrue result → HasAmounts ask.now }
{
    match ask {
        Ask::Get {
            vendor,
            target,
            limit,
        } => {
            // What they know of themselves.
            let _vendor = vendor.bytes();
            let _target = target.bytes();
            let _limit = limit.get();
            true
        }
        Ask::Buy {
            broker,
            vendor,
            amount,
            limit,
        } => {
            let _broker = broker.bytes();
            let _vendor = vendor.bytes();
            let _limit = limit.get();
            1 <= amount.get()
        }
        Ask::Draw {
            broker,
            account,
            key,
            order,
            amount,
        } => {
            let _broker = broker.bytes();
            let _account = account.bytes();
            is_a_key(key);
            is_order(*order) && 1 <= amount.get()
        }
    }
}

/// Whether a number is one of an order.
fn is_order(number: u64) -> bool
    ensures { IsTrue result ↔ (1 ≤ number) × (number ≤ MOST) }
{
    1 <= number && number <= Amount::MOST
}

/// The length of a key.
fn is_a_key(key: &[u8; 16])
    ensures { IsKey key.now }
{}

/// Whether a wallet's journal has room for an entry.
fn has_room(book: &WalletBook, r: &Record<'_>) -> bool
    requires { Fits (entry r.now) }
    ensures room { (h : Entries) → WalletRepresents book.now h → result ≡ true
        → fitted h book.now.limits (entry r.now) ≡ Ok (entry r.now) }
    ensures full { (h : Entries) → WalletRepresents book.now h → result ≡ false
        → fitted h book.now.limits (entry r.now) ≡ Ok (entry r.now) → ⊥ }
{
    let (payload, limit) = (r.payload_len(), book.limits().journal);
    match grown_size(book.size(), payload, book.is_switched(), limit) {
        Ok(_size) => true,
        Err(_full) => false,
    }
}

/// The bytes of a request.
fn bytes_of(alloc: Global, request: &WalletRequest) -> Result<Vec<u8>, NoMemory>
    ensures { IfOk result (λ v. v.items ≡ request_bytes (pending_view request.now)) }
{
    let mut out = [0; 2048];
    let len = put_request(request, &mut out);
    let bytes = Vec::from_slice(alloc, &out[..len])?;
    Ok(bytes)
}
