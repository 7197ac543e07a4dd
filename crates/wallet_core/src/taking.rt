//! The entry of pieces that a wallet takes.

ghost use Rattle.std.specs.Prelude.{◌≡◌, ℕ, List as Items, IfOk, IfErr, nat_lt, find, count_by, option_map};
ghost use Rattle.mc_records.specs.Entry.{Held, Got, ArePieces};
ghost use Rattle.mc_records.specs.Pieces.{pieces_bytes};
ghost use Rattle.mc_records.specs.PieceViews.{pieces_of};
ghost use Rattle.ledger_model.specs.Histories.{History};
ghost use Rattle.wallet_model.specs.Newness.{are_one_piece};
ghost use Rattle.wallet_book.specs.Book.{WalletRepresents};
ghost use Rattle.wallet_book.specs.Holdings.{texts_of};
ghost use Rattle.wallet_core.specs.Requests.{CanEnter};
ghost use Rattle.wallet_core.specs.Taking as model;
ghost use Rattle.wallet_core.specs.Taking.{take_entry, id_of, Takes, TakesOf, AreElements, IsTakeFault};

use crate::contents::is_one;
use mc_base::List;
use mc_records::PieceList;
use mc_requests::Refusal;
use piece_lines::{PieceLinesFault, PieceRule, read_piece_lines};
use scrip_form::{Id, ScripRef};
use std::alloc::Global;
use wallet_book::WalletBook;

/// Why pieces are not taken.
#[derive(Clone, Copy, Drop)]
pub enum TakeFault {
    /// 53 `BadInput` with the first line that is none; 61 `TwiceHeld` with the identity of the first piece that came
    /// before or stands twice.
    Refused(Refusal),
    /// Memory was refused.
    NoMemory,
}

/// The elements of the pieces that some lines bring, for the Got entry of them: `taken_list` is the list of them.
/// `Err` is 53 `BadInput` with the first line, from 1, that is no piece line, 0 for an empty input and 257 where
/// 256 lines are right and more bytes follow; else 61 `TwiceHeld` with the identity of the first piece in the order
/// of the lines that came before, whatever its state, or that stands twice among the lines, by vendor and identity.
/// `NoMemory` tells nothing of the input.
pub fn take_pieces(alloc: Global, book: &WalletBook, input: &[u8]) -> Result<List<u8>, TakeFault>
    ensures exact { (h : History) → WalletRepresents book.now h
        → Takes (take_entry h book.now.time input.now) book.now.time result }
    ensures elements { IfOk result AreElements }
    ensures refused { IfErr result IsTakeFault }
    ensures may { (h : History) → WalletRepresents book.now h → IfOk result (λ bytes. (pieces : Items Held)
        → ArePieces pieces → bytes ≡ pieces_bytes pieces → CanEnter h (Got book.now.time pieces)) }
{
    let _seconds = book.time().seconds();
    let mut elements = Vec::new(alloc);
    match read_piece_lines(input, &PieceRule::Any, &mut elements) {
        Ok(_) => unless_twice(book, elements),
        Err(PieceLinesFault::Line(line)) => {
            Err(TakeFault::Refused(Refusal::BadInput(u64::from(line))))
        }
        Err(PieceLinesFault::NoMemory) => Err(TakeFault::NoMemory),
    }
}

/// The elements of pieces, where none of them came before or stands twice; else 61 `TwiceHeld` with the identity of
/// the first that does.
fn unless_twice(book: &WalletBook, elements: Vec<u8>) -> Result<List<u8>, TakeFault>
    requires { AreElements elements.items }
    ensures taken { (pieces : Items Held) → ArePieces pieces → elements.items ≡ pieces_bytes pieces
        → TakesOf (texts_of book.now.holdings) pieces elements.items result }
    ensures refused { IfErr result IsTakeFault }
{
    match first_twice(book, &taken_list(&elements)) {
        Some(id) => Err(TakeFault::Refused(Refusal::TwiceHeld(id))),
        None => Ok(List::of(elements)),
    }
}

/// The list of pieces that were taken.
pub fn taken_list(elements: &[u8]) -> PieceList<'_>
    requires { AreElements elements.now }
    ensures { (pieces : Items Held) → ArePieces pieces → elements.now ≡ pieces_bytes pieces
        → pieces_of result ≡ pieces }
{
    match PieceList::read(elements) {
        Some(pieces) => pieces,
        // They are the elements of pieces.
        None => unreachable!(),
    }
}

/// The identity of the first of some pieces that came before or stands twice among them; None exactly where there is
/// none.
fn first_twice(book: &WalletBook, pieces: &PieceList<'_>) -> Option<Id>
    ensures { result ≡ option_map id_of (find (model.is_twice (texts_of book.now.holdings) (pieces_of pieces.now)) (pieces_of pieces.now)) }
{
    let mut rest = Some(*pieces);
    while let Some(list) = rest {
        let (piece, more) = list.split_first();
        let scrip = piece.0;
        let _text = scrip.text();
        if is_twice(book, pieces, &scrip) {
            return Some(scrip.piece().id());
        }
        rest = more;
    }
    None
}

/// Whether a piece came before, or stands twice among some.
fn is_twice(book: &WalletBook, pieces: &PieceList<'_>, scrip: &ScripRef<'_>) -> bool
    ensures { (secret : Items ℕ) → result ≡ model.is_twice (texts_of book.now.holdings) (pieces_of pieces.now) (record { text = scrip.now.text; secret = secret }) }
{
    !book.is_new(scrip) || stands_twice(pieces, scrip)
}

/// Whether a piece stands twice among some, by vendor and identity.
fn stands_twice(pieces: &PieceList<'_>, scrip: &ScripRef<'_>) -> bool
    ensures { result ≡ nat_lt 1 (count_by (λ q. are_one_piece q.text scrip.now.text) (pieces_of pieces.now)) }
{
    let _count = pieces.count();
    let mut count: u16 = 0;
    let mut rest = Some(*pieces);
    while let Some(list) = rest {
        let (piece, more) = list.split_first();
        count += u16::from(is_one(&piece.0, scrip));
        rest = more;
    }
    count > 1
}
