//! Pieces as texts: contents that are one piece line, and pieces of one vendor with one identity.

ghost use Rattle.std.specs.Prelude.{◌≡◌, Some, IfSome, option_map, option_and_then};
ghost use Rattle.mc_records.specs.PieceViews as views;
ghost use Rattle.ledger_model.specs.Pieces as pieces;
ghost use Rattle.wallet_model.specs.Newness as newness;
ghost use Rattle.wallet_model.specs.Settling as model;

use piece_lines::read_secret;
use scrip_form::{Piece, ScripRef, read_scrip};

/// How many bytes of a piece line stand behind its scrip text: a space, the 32 digits of a secret and an LF.
const BEHIND_TEXT: usize = 34;

/// The piece whose line some contents are, and its secret. It takes no memory.
pub(crate) fn one_line(contents: &[u8]) -> Option<(ScripRef<'_>, [u8; 16])>
    ensures held { option_map views.piece_of result ≡ model.one_line contents.now }
    ensures piece { option_map (λ x. x.0.piece) result ≡ option_and_then (λ p. pieces.piece_of p.text) (model.one_line contents.now) }
{
    if contents.len() < BEHIND_TEXT {
        return None;
    }
    let (text, rest) = contents.split_at(contents.len() - BEHIND_TEXT);
    let scrip = match read_scrip(text) {
        Ok(scrip) => scrip,
        Err(_) => return None,
    };
    match read_secret(rest) {
        Ok(read) => {
            let secret = read.0;
            Some((scrip, secret))
        }
        Err(_) => None,
    }
}

/// What a text is read as, where it is a scrip text. It takes no memory.
pub(crate) fn scrip_of(text: &[u8]) -> Option<ScripRef<'_>>
    ensures text { IfSome result (λ s. s.text ≡ text.now) }
    ensures piece { option_map (λ s. s.piece) result ≡ pieces.piece_of text.now }
{
    match read_scrip(text) {
        Ok(scrip) => Some(scrip),
        Err(_) => None,
    }
}

/// The piece of a scrip text, where it is one. It takes no memory.
pub fn piece_of(text: &[u8]) -> Option<Piece>
    ensures { result ≡ pieces.piece_of text.now }
{
    match read_scrip(text) {
        Ok(scrip) => Some(scrip.piece()),
        Err(_) => None,
    }
}

/// Whether two texts are of pieces of one vendor with one identity. It takes no memory.
pub fn are_one_piece(a: &[u8], b: &[u8]) -> bool
    ensures { result ≡ newness.are_one_piece a.now b.now }
{
    let Ok(a) = read_scrip(a) else {
        return false;
    };
    let Ok(b) = read_scrip(b) else {
        return false;
    };
    is_same(&a.piece(), &b.piece())
}

/// Whether two texts that were read are of pieces of one vendor with one identity.
pub(crate) fn is_one(a: &ScripRef<'_>, b: &ScripRef<'_>) -> bool
    ensures { result ≡ newness.are_one_piece a.now.text b.now.text }
{
    // What texts that were read know of themselves.
    let _a = a.text();
    let _b = b.text();
    is_same(&a.piece(), &b.piece())
}

fn is_same(a: &Piece, b: &Piece) -> bool
    ensures { result ≡ newness.is_same_piece (Some a.now) (Some b.now) }
{
    a.vendor().bytes() == b.vendor().bytes() && a.id() == b.id()
}
