//! Requests of a wallet, whole.

ghost use Rattle.std.specs.Prelude.{◌≡◌, ◌<◌, IfSome, option_map, option_and_then, slice_get};
ghost use Rattle.scrip_form.specs.Scrip.{IsScripText};
ghost use Rattle.mc_records.specs.Entry.{Fits};
ghost use Rattle.mc_requests.specs.Requests.{seen};
ghost use Rattle.mc_records.specs.Views.{entry};
ghost use Rattle.ledger_model.specs.Histories.{History};
ghost use Rattle.wallet_book.specs.Book.{WalletRepresents};
ghost use Rattle.wallet_book.specs.Holdings as held;
ghost use Rattle.wallet_book.specs.Holdings.{texts_of};
ghost use Rattle.wallet_book.specs.Kept.{request_of, kept_in};
ghost use Rattle.wallet_core.specs.Requests.{pending_view, request_view, pend_of};

use mc_base::Moment;
use mc_records::{PieceList, Record};
use scrip_form::{Name, ScripText, Target, read_scrip, write_scrip};
use wallet_book::{Holding, Kept, WalletBook};

/// A request of a wallet: whether it asks for goods (0), to buy (1) or to draw (2); of whom, and under which
/// target; the text of the piece that it pays with, where it pays with one; and the secret that signs it.
#[derive(Clone, Copy, Drop)]
pub struct WalletRequest {
    pub ask: u8,
    pub peer: Name,
    pub target: Target,
    pub scrip: Option<ScripText>,
    pub secret: [u8; 16],
}

/// A request of a wallet whose texts lie elsewhere: 0 where it is a get, 1 a buy, 2 a draw; of which peer, and under
/// which target; with the scrip text of the piece that it pays with, which a draw has not; and the secret that signs it,
/// of the piece's customer, or the key of the account.
#[derive(Clone, Copy, Drop)]
pub struct RequestRef<'a> {
    pub ask: u8,
    pub peer: &'a [u8],
    pub target: &'a [u8],
    pub scrip: Option<&'a [u8]>,
    pub secret: [u8; 16],
}

/// The request of a number, where it is kept. It takes no memory.
pub fn kept_request(book: &WalletBook, number: u64) -> Option<WalletRequest>
    ensures { (h : History) → WalletRepresents book.now h
        → option_map pending_view result ≡ kept_in h number }
{
    match book.kept(number) {
        Some(kept) => Some(whole(book.holdings(), &kept)),
        None => None,
    }
}

/// A kept request with the text of its piece.
fn whole(holdings: &[Holding], kept: &Kept) -> WalletRequest
    ensures { pending_view result ≡ request_of (texts_of holdings.now) kept.now }
{
    WalletRequest {
        ask: kept.ask,
        peer: kept.peer,
        target: kept.target,
        scrip: text_at(holdings, kept.place),
        secret: kept.secret,
    }
}

/// The text of the piece of a place, where there is one.
fn text_at(holdings: &[Holding], place: Option<usize>) -> Option<ScripText>
    ensures { result ≡ option_and_then (slice_get (texts_of holdings.now)) place }
{
    match holdings.get(place?) {
        Some(holding) => Some(text_of(holding)),
        None => None,
    }
}

/// The text of a piece.
pub(crate) fn text_of(holding: &Holding) -> ScripText
    ensures text { result ≡ held.text_of holding.now }
    ensures spelled { held.IsSpelled holding.now }
{
    let mut out = [0; 512];
    let len = write_scrip(&holding.piece, &holding.cert, &mut out);
    match read_scrip(&out[..len]) {
        Ok(scrip) => ScripText::of(&scrip),
        // What was written is a scrip text.
        Err(_) => unreachable!(),
    }
}

/// The entry by which a request is made at a moment.
pub fn pend_record<'a>(moment: Moment, p: &'a WalletRequest) -> Record<'a>
    requires { p.now.ask < 3 }
    ensures entry { entry result ≡ pend_of moment (pending_view p.now) }
    ensures fits { Fits (entry result) }
{
    let _parts: Option<PieceList<'_>> = None;
    let _seconds = moment.seconds();
    Record::Pend {
        moment,
        ask: p.ask,
        peer: p.peer.bytes(),
        target: p.target.bytes(),
        scrip: scrip_bytes(p),
        secret: p.secret,
    }
}

/// A request as one whose texts lie elsewhere.
pub(crate) fn lent(p: &WalletRequest) -> RequestRef<'_>
    ensures { request_view result ≡ pending_view p.now }
{
    RequestRef {
        ask: p.ask,
        peer: p.peer.bytes(),
        target: p.target.bytes(),
        scrip: scrip_bytes(p),
        secret: p.secret,
    }
}

/// The bytes of the scrip text of a request, where it has one.
pub(crate) fn scrip_bytes(p: &WalletRequest) -> Option<&[u8]>
    ensures seen { seen result ≡ p.now.scrip }
    ensures text { IfSome result (λ t. IsScripText t.now) }
{
    match &p.scrip {
        Some(text) => Some(text.bytes()),
        None => None,
    }
}
