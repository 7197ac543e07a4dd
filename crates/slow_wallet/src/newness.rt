//! Whether pieces are new to a wallet's book, by vendor and identity.

ghost use Rattle.std.specs.Prelude.{◌≡◌, ◌≤◌, ◌++◌, length, map, take, slice_get, IfSome, option_map, option_to_list};
ghost use Rattle.std.specs.List.{list_any};
ghost use Rattle.mc_records.specs.PieceViews.{pieces_of};
ghost use Rattle.mc_requests.specs.Requests.{seen};
ghost use Rattle.mc_records.specs.Views.{held_of};
ghost use Rattle.wallet_model.specs.Holdings.{texts_came};
ghost use Rattle.wallet_model.specs.Newness as model;
ghost use Rattle.wallet_model.specs.Newness.{is_new, are_new};
ghost use Rattle.wallet_model.specs.Follows.{settled_texts};

use crate::came::{Likeness, listed, slow_came};
use mc_records::PieceList;
use slow_ledger::Prefix;
use wallet_core::are_one_piece;

fn is_listed_at(pieces: &PieceList<'_>, k: u16, text: &[u8]) -> bool
    ensures { IfSome (slice_get (pieces_of pieces.now) k)
        (λ p. result ≡ model.are_one_piece p.text text.now) }
{
    match listed(pieces, k) {
        Some((piece, _)) => are_one_piece(piece, text),
        None => false,
    }
}

/// Whether a piece is one of the first of a list.
fn is_listed(pieces: &PieceList<'_>, count: u16, text: &[u8]) -> bool
    requires { count ≤ length (pieces_of pieces.now) }
    ensures { result ≡ list_any (λ p. model.are_one_piece p.text text.now) (take count (pieces_of pieces.now)) }
{
    for k in 0..count {
        if is_listed_at(pieces, k, text) {
            return true;
        }
    }
    false
}

/// Whether a piece is new to a book, and to the first of a list.
fn is_apart(h: &Prefix<'_>, pieces: &PieceList<'_>, count: u16, text: &[u8]) -> bool
    requires { count ≤ length (pieces_of pieces.now) }
    ensures { result ≡ is_new (map (λ q. q.text) (take count (pieces_of pieces.now)) ++ texts_came h.now) text.now }
{
    if is_listed(pieces, count, text) {
        return false;
    }
    !slow_came(h, Likeness::Piece, text)
}

/// Whether the piece of this number of a list is new to a book, and to those before it.
fn new_at(h: &Prefix<'_>, pieces: &PieceList<'_>, k: u16) -> bool
    requires { k ≤ length (pieces_of pieces.now) }
    ensures { IfSome (slice_get (pieces_of pieces.now) k)
        (λ p. result ≡ is_new (map (λ q. q.text) (take k (pieces_of pieces.now)) ++ texts_came h.now) p.text) }
{
    match listed(pieces, k) {
        Some((text, _)) => is_apart(h, pieces, k, text),
        None => true,
    }
}

/// Whether the pieces of a list are new to a book, and to one another.
pub(crate) fn slow_are_new(h: &Prefix<'_>, pieces: &PieceList<'_>) -> bool
    ensures { result ≡ are_new (texts_came h.now) (map (λ p. p.text) (pieces_of pieces.now)) }
{
    for k in 0..pieces.count() {
        if !new_at(h, pieces, k) {
            return false;
        }
    }
    true
}

/// Whether the change of a settlement, where there is some, is new to a book.
fn change_is_new(h: &Prefix<'_>, change: Option<&[u8]>) -> bool
    ensures { result ≡ are_new (texts_came h.now) (option_to_list (seen change.entry)) }
{
    match change {
        Some(text) => !slow_came(h, Likeness::Piece, text),
        None => true,
    }
}

/// Whether a piece is the change of its settlement, where there is some, by vendor and identity.
fn is_change(change: Option<&[u8]>, text: &[u8]) -> bool
    ensures { result ≡ list_any (λ t. model.are_one_piece t text.now) (option_to_list (seen change.entry)) }
{
    match change {
        Some(change) => are_one_piece(change, text),
        None => false,
    }
}

/// Whether a piece is new to a book, and to the change of its settlement.
pub(crate) fn slow_is_new(h: &Prefix<'_>, change: Option<&[u8]>, text: &[u8]) -> bool
    ensures { result ≡ is_new (option_to_list (seen change.entry) ++ texts_came h.now) text.now }
{
    if is_change(change, text) {
        return false;
    }
    !slow_came(h, Likeness::Piece, text)
}

/// Whether the piece in the contents of a settlement, where there is one, is new to a book and to the change.
fn got_is_new(h: &Prefix<'_>, change: Option<&[u8]>, got: Option<(&[u8], [u8; 16])>) -> bool
    ensures { result ≡ are_new (option_to_list (seen change.entry) ++ texts_came h.now)
        (option_to_list (option_map (λ p. p.text) (option_map held_of got.entry))) }
{
    match got {
        Some((text, _)) => slow_is_new(h, change, text),
        None => true,
    }
}

/// Whether the pieces that a settlement brings are new to a book.
pub(crate) fn slow_settled_new(
    h: &Prefix<'_>,
    change: Option<&[u8]>,
    got: Option<(&[u8], [u8; 16])>,
) -> bool
    ensures { result ≡ are_new (texts_came h.now) (settled_texts (seen change.entry) (option_map held_of got.entry)) }
{
    change_is_new(h, change) && got_is_new(h, change, got)
}
