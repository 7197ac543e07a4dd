//! The entry by which a reply settles a request.

ghost use Rattle.std.specs.Prelude.{◌≡◌, ◌++◌, Some, None, IfSome, option_map, option_to_list, unwrap_or};
ghost use Rattle.mc_records.specs.PieceViews as views;
ghost use Rattle.mc_requests.specs.Requests.{seen};
ghost use Rattle.mc_records.specs.Views.{entry, held_of};
ghost use Rattle.ledger_model.specs.Histories.{History};
ghost use Rattle.wallet_model.specs.Newness as newness;
ghost use Rattle.wallet_model.specs.Settling as model;
ghost use Rattle.wallet_model.specs.Settling.{check_of};
ghost use Rattle.reply_reader.specs.Seen.{received_of};
ghost use Rattle.wallet_book.specs.Book.{WalletRepresents};
ghost use Rattle.wallet_book.specs.Holdings.{texts_of};
ghost use Rattle.wallet_book.specs.Kept.{kept_in};
ghost use Rattle.wallet_core.specs.Came.{IsCame, ReadsChange};
ghost use Rattle.wallet_core.specs.Requests.{pending_view, CanEnter};
ghost use Rattle.wallet_core.specs.Settled.{IsSettledAs, settlement_with};

use crate::came::Came;
use crate::prices::{is_dash, price_of};
use crate::request::WalletRequest;
use mc_base::Moment;
use mc_fields::read_number;
use mc_records::{PieceList, Record};
use reply_reader::ReplyRef;
use scrip_form::{Piece, ScripRef};
use wallet_book::WalletBook;

/// How a kept request was settled.
#[derive(Clone, Copy, Drop)]
pub enum Settlement {
    /// The goods of a get were paid for with this price.
    Paid { price: u64 },
    /// A buy or a draw brought this piece.
    Got { piece: Piece },
    /// The site refused with this number.
    Refused { number: u16 },
}

/// The entry by which a reply settles the request of a number. Of a kept request and a reply that passes the check
/// it may follow, and has a payload. It takes no memory.
pub fn settlement_record<'a>(
    book: &WalletBook,
    number: u64,
    p: &WalletRequest,
    r: &ReplyRef<'a>,
) -> Record<'a>
    ensures told { entry result
        ≡ settlement_with (texts_of book.now.holdings) book.now.time number (pending_view p.now) (received_of r.now) }
    ensures exact { (h : History) → WalletRepresents book.now h
        → entry result ≡ model.settlement h book.now.time number (pending_view p.now) (received_of r.now) }
    ensures may { (h : History) → WalletRepresents book.now h
        → kept_in h number ≡ Some (pending_view p.now)
        → check_of (pending_view p.now) (received_of r.now) ≡ None → CanEnter h (entry result) }
{
    let moment = book.time();
    let _seconds = moment.seconds();
    settled_entry(book, moment, number, p, &Came::of(p.ask, r))
}

/// The entry by which a reply that was read settles the request of a number at a moment.
#[tactic(auto, unfolding(crate::specs::Settled::settlement_with))]
pub(crate) fn settled_entry<'a>(
    book: &WalletBook,
    moment: Moment,
    number: u64,
    p: &WalletRequest,
    came: &Came<'a>,
) -> Record<'a>
    requires { IsCame p.now.ask came.now }
    ensures { entry result
        ≡ settlement_with (texts_of book.now.holdings) moment number (pending_view p.now) (received_of came.now.reply) }
{
    let _parts: Option<PieceList<'_>> = None;
    if came.reply.status != 200 {
        let refusal = refusal_number(came.reply.refusal);
        return Record::Refused {
            moment,
            number,
            refusal,
        };
    }
    let price = paid_price(&came.reply);
    let change = change_came(book, came);
    let got = got_came(book, change, came);
    Record::Done {
        moment,
        number,
        price,
        change,
        got,
    }
}

/// How a reply that was read and passes the check settles a request. It takes no memory.
#[tactic(auto, unfolding(wallet_model::specs::Settling::check_of))]
pub(crate) fn settled_as(p: &WalletRequest, came: &Came<'_>) -> Settlement
    requires passes { check_of (pending_view p.now) (received_of came.now.reply) ≡ None }
    requires read { IsCame p.now.ask came.now }
    ensures { IsSettledAs (pending_view p.now) (received_of came.now.reply) result }
{
    if came.reply.status != 200 {
        let number = refusal_number(came.reply.refusal);
        return Settlement::Refused { number };
    }
    if p.ask == 0 {
        let price = paid_price(&came.reply);
        return Settlement::Paid { price };
    }
    match came.got_piece() {
        Some(piece) => Settlement::Got { piece },
        // What passes the check brings a piece.
        None => unreachable!(),
    }
}

// ---- the parts of an entry

/// The price of a reply, 0 where it is none.
pub fn paid_price(r: &ReplyRef<'_>) -> u64
    ensures { result ≡ unwrap_or (model.price_of (received_of r.now)) 0 }
{
    match price_of(r) {
        Some(price) => price,
        None => 0,
    }
}

/// The number of a refusal, which its text begins with; 0 where it begins with none.
pub fn refusal_number(refusal: Option<&[u8]>) -> u16
    ensures { result ≡ model.refusal_number (seen refusal.entry) }
{
    match refusal {
        Some(text) => first_number(text),
        None => 0,
    }
}

/// The number other than 0 that a text begins with, before a space; 0 where it begins with none.
fn first_number(text: &[u8]) -> u16
    ensures { result ≡ model.number_before text.now }
{
    match read_number(0xffff, b' ', text) {
        Ok((number, _)) => number as u16,
        Err(_) => 0,
    }
}

/// The change of a reply, where it is new.
fn change_came<'a>(book: &WalletBook, came: &Came<'a>) -> Option<&'a [u8]>
    requires { ReadsChange came.now }
    ensures new { seen result ≡ model.change_came (texts_of book.now.holdings) came.now.reply.change.now }
    ensures same { IfSome result (λ t. t.now ≡ came.now.reply.change.now) }
{
    if is_dash(came.reply.change) {
        return None;
    }
    if change_is_new(book, came) {
        Some(came.reply.change)
    } else {
        None
    }
}

/// The piece in the contents, where it is new, to the change that came too.
fn got_came<'a>(
    book: &WalletBook,
    change: Option<&[u8]>,
    came: &Came<'a>,
) -> Option<(&'a [u8], [u8; 16])>
    requires read { ReadsChange came.now }
    requires same { IfSome change (λ t. t.now ≡ came.now.reply.change.now) }
    ensures { option_map held_of result
        ≡ model.if_new (option_to_list (seen change.entry) ++ texts_of book.now.holdings) (option_map views.piece_of came.now.got) }
{
    match &came.got {
        Some(got) => if is_new_beside(book, change, came, &got.0) {
            Some((got.0.text(), got.1))
        } else {
            None
        },
        None => None,
    }
}

// ---- new pieces

/// Whether the change of a reply is of no piece that came.
fn change_is_new(book: &WalletBook, came: &Came<'_>) -> bool
    requires { ReadsChange came.now }
    ensures { result ≡ newness.is_new (texts_of book.now.holdings) came.now.reply.change.now }
{
    match &came.change {
        Some(scrip) => book.is_new(scrip),
        None => true,
    }
}

/// Whether a piece is none that came, and not the change that came.
fn is_new_beside(
    book: &WalletBook,
    change: Option<&[u8]>,
    came: &Came<'_>,
    scrip: &ScripRef<'_>,
) -> bool
    requires read { ReadsChange came.now }
    requires same { IfSome change (λ t. t.now ≡ came.now.reply.change.now) }
    ensures { result ≡ newness.is_new (option_to_list (seen change.entry) ++ texts_of book.now.holdings) scrip.now.text }
{
    match change {
        Some(_) => !came.is_change(scrip) && book.is_new(scrip),
        None => book.is_new(scrip),
    }
}
