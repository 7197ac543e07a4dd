//! The request of what is asked.

ghost use Rattle.std.specs.Prelude.{◌≡◌, ◌<◌, ℕ, Some, Ok, IfOk, IfErr};
ghost use Rattle.ledger_model.specs.Histories.{History};
ghost use Rattle.wallet_model.specs.Asks.{chosen, paid_with, pend_entry};
ghost use Rattle.wallet_model.specs.Follows.{WalletFollows};
ghost use Rattle.wallet_book.specs.Book.{WalletRepresents};
ghost use Rattle.wallet_book.specs.Choosing.{Chooses, IsNoFunds};
ghost use Rattle.wallet_book.specs.Holdings.{IsSpelled, text_of};
ghost use Rattle.wallet_core.specs.Asks.{asking_of, HasAmounts, Answers, pend_with_entry, PaysAt};
ghost use Rattle.wallet_core.specs.Requests.{pending_view, pend_of};

use crate::ask::Ask;
use crate::request::{WalletRequest, text_of};
use mc_base::Amount;
use mc_requests::{Refusal, buy_target, draw_target};
use scrip_form::{Name, Target};
use wallet_book::{Holding, WalletBook};

/// The request of what is asked, which pays with the piece that is chosen; a draw pays with none. `Err` is 62
/// `NoFunds` with the greatest value of the held pieces of the house that are not expired, 0 where there are none.
/// It takes no memory.
pub fn request_for(book: &WalletBook, ask: &Ask) -> Result<WalletRequest, Refusal>
    requires { HasAmounts ask.now }
    ensures exact { (h : History) → WalletRepresents book.now h
        → Answers book.now.time (pend_entry h book.now.time (asking_of ask.now)) result }
    ensures follows { (h : History) → WalletRepresents book.now h
        → IfOk result (λ p. WalletFollows h (pend_of book.now.time (pending_view p))) }
    ensures ask { IfOk result (λ p. p.ask < 3) }
    ensures refused { IfErr result IsNoFunds }
{
    match ask {
        Ask::Get {
            vendor,
            target,
            limit,
        } => paying(book, 0, vendor, target, *limit),
        Ask::Buy {
            broker,
            vendor,
            amount,
            limit,
        } => paying(book, 1, broker, &buy_target(vendor, *amount), *limit),
        Ask::Draw {
            broker,
            account,
            key,
            order,
            amount,
        } => Ok(WalletRequest {
            ask: 2,
            peer: *broker,
            target: draw_target(account, *order, *amount),
            scrip: None,
            secret: *key,
        }),
    }
}

/// The request of a get or a buy that pays with the piece of a place among the holdings, which is held, not expired
/// and of the house that is asked. It takes no memory.
pub fn request_with(book: &WalletBook, place: usize, ask: &Ask) -> WalletRequest
    requires amounts { HasAmounts ask.now }
    requires pays { PaysAt book.now place ask.now }
    ensures exact { (h : History) → WalletRepresents book.now h
        → pend_with_entry h book.now.time place (asking_of ask.now) ≡ Some (pend_of book.now.time (pending_view result)) }
    ensures follows { (h : History) → WalletRepresents book.now h
        → WalletFollows h (pend_of book.now.time (pending_view result)) }
    ensures ask { result.ask < 3 }
{
    let holding = match book.holdings().get(place) {
        Some(holding) => holding,
        // A piece stands there.
        None => unreachable!(),
    };
    match ask {
        Ask::Get { vendor, target, .. } => with_piece(0, vendor, target, holding),
        Ask::Buy {
            broker,
            vendor,
            amount,
            ..
        } => with_piece(1, broker, &buy_target(vendor, *amount), holding),
        // A draw pays with no piece.
        Ask::Draw { .. } => unreachable!(),
    }
}

/// A request that pays with the piece that is chosen.
fn paying(
    book: &WalletBook,
    ask: u8,
    peer: &Name,
    target: &Target,
    limit: Amount,
) -> Result<WalletRequest, Refusal>
    ensures exact { (h : History) → WalletRepresents book.now h
        → Answers book.now.time (paid_with book.now.time ask peer.now target.now (chosen h book.now.time peer.now limit)) result }
    ensures ask { IfOk result (λ p. p.ask ≡ ask) }
    ensures refused { IfErr result IsNoFunds }
{
    match book.choose(peer, limit) {
        Ok(place) => paying_from(book, place, ask, peer, target),
        Err(refusal) => Err(refusal),
    }
}

/// A request that pays with the piece of a place, which was chosen for it. `Err` comes only where no piece stands there.
pub(crate) fn paying_from(
    book: &WalletBook,
    place: usize,
    ask: u8,
    peer: &Name,
    target: &Target,
) -> Result<WalletRequest, Refusal>
    ensures exact { (h : History) (limit : ℕ) → WalletRepresents book.now h
        → Chooses (chosen h book.now.time peer.now limit) (Ok place)
        → Answers book.now.time (paid_with book.now.time ask peer.now target.now (chosen h book.now.time peer.now limit)) result }
    ensures ask { IfOk result (λ p. p.ask ≡ ask) }
    ensures refused { IfErr result IsNoFunds }
{
    match book.holdings().get(place) {
        Some(holding) => Ok(with_piece(ask, peer, target, holding)),
        // What is chosen is one of the pieces.
        None => Err(Refusal::NoFunds(0)),
    }
}

/// A request that pays with a piece.
fn with_piece(ask: u8, peer: &Name, target: &Target, holding: &Holding) -> WalletRequest
    ensures request { result ≡ record { ask = ask; peer = peer.now; target = target.now; scrip = Some (text_of holding.now); secret = holding.now.secret } }
    ensures spelled { IsSpelled holding.now }
{
    WalletRequest {
        ask,
        peer: *peer,
        target: *target,
        scrip: Some(text_of(holding)),
        secret: holding.secret,
    }
}
