//! Change, by the bytes that it needs beside the scrip text of the request: mostly its value, its identity and
//! its expiry, since the rest of it is as in the piece that was paid with.

ghost use Rattle.std.specs.Prelude.{◌≡◌, ◌+◌, ◌≤◌, ◌<◌, vec_len, vec_capacity, IsTrue, Some};
ghost use Rattle.mc_requests.specs.Requests.{seen};
ghost use Rattle.scrip_form.specs.Scrip.{IsScripText};
ghost use Rattle.scrip_form.specs.Reading.{scrip_of};
ghost use Rattle.kept_replies.specs.Parts.{StaysIn, IsScripThere, like_read, like_text, piece_read, change_end, change_in, ChangeIsWithin, IsLike, AreAlike};

use crate::digits::{number_of, put_number};
use crate::sold::{LONGEST, put_piece};
use mc_base::Amount;
use scrip_form::{
    Id, Piece, ScripRef, read_scrip, scrip_of_tells_the_text, scrip_text_is_of_one_piece,
};

/// Where the parts of change end, each of which begins where the one before it ends: numbers where the change
/// is as the piece of the request but for them, and else the text of the whole piece, with a certificate of zeros.
#[derive(Clone, Copy, Drop)]
pub(crate) enum ChangeParts {
    None,
    Like { value: u8, id: u8, expires: u8 },
    Other { end: u16 },
}

impl ChangeParts {
    /// Puts what is needed of change that may be there, beside the scrip text of the request and what was read of
    /// it, behind what the buffer holds.
    pub(crate) fn put(
        buffer: &mut Vec<u8>,
        change: &Option<Piece>,
        scrip: Option<&[u8]>,
        paid: Option<&ScripRef<'_>>,
    ) -> ChangeParts
        requires front { vec_len buffer.old ≤ 32 }
        requires room { vec_len buffer.old + LONGEST ≤ vec_capacity buffer.old }
        ensures end { change_end (vec_len buffer.old) result ≡ vec_len buffer.new }
        ensures longer { vec_len buffer.old ≤ vec_len buffer.new }
        ensures most { vec_len buffer.new ≤ vec_len buffer.old + LONGEST }
        ensures capacity { vec_capacity buffer.old ≤ vec_capacity buffer.new }
        ensures stays { StaysIn buffer.old.items buffer.new.items }
        ensures change { change_in buffer.new.items (vec_len buffer.old) result (seen scrip.entry) ≡ change.now }
        ensures within { ChangeIsWithin buffer.new.items (vec_len buffer.old) result (seen scrip.entry) }
    {
        match change {
            None => ChangeParts::None,
            Some(piece) => {
                if is_like_paid(piece, scrip, paid) {
                    put_like(buffer, piece)
                } else {
                    ChangeParts::Other {
                        end: put_piece(buffer, piece, &[0; 16]),
                    }
                }
            }
        }
    }

    /// Where it ends.
    pub(crate) fn end(self, start: u16) -> u16
        ensures { result ≡ change_end start self }
    {
        match self {
            ChangeParts::None => start,
            ChangeParts::Like { expires, .. } => u16::from(expires),
            ChangeParts::Other { end } => end,
        }
    }

    /// The change, beside the scrip text of the request.
    pub(crate) fn piece(self, bytes: &[u8], start: u16, scrip: Option<&[u8]>) -> Option<Piece>
        requires { ChangeIsWithin bytes.now start self (seen scrip) }
        ensures { result ≡ change_in bytes.now start self (seen scrip.entry) }
    {
        match self {
            ChangeParts::None => None,
            ChangeParts::Like { value, id, expires } => {
                let Some(text) = scrip else {
                    unreachable!();
                };
                like_of(
                    text,
                    number_of(&bytes[start as usize..value as usize]),
                    number_of(&bytes[value as usize..id as usize]),
                    number_of(&bytes[id as usize..expires as usize]),
                )
            }
            ChangeParts::Other { end } => piece_of(&bytes[start as usize..end as usize]),
        }
    }
}

/// Puts the value, the identity and the expiry of a piece behind what the buffer holds.
fn put_like(buffer: &mut Vec<u8>, piece: &Piece) -> ChangeParts
    requires front { vec_len buffer.old ≤ 32 }
    requires room { vec_len buffer.old + LONGEST ≤ vec_capacity buffer.old }
    ensures end { change_end (vec_len buffer.old) result ≡ vec_len buffer.new }
    ensures longer { vec_len buffer.old ≤ vec_len buffer.new }
    ensures most { vec_len buffer.new ≤ vec_len buffer.old + LONGEST }
    ensures capacity { vec_capacity buffer.old ≤ vec_capacity buffer.new }
    ensures stays { StaysIn buffer.old.items buffer.new.items }
    ensures like { IsLike buffer.new.items (vec_len buffer.old) result piece.now }
{
    let (amount, serial) = (piece.value(), piece.id());
    let value = put_number(buffer, amount.get());
    let id = put_number(buffer, serial.number());
    let expires = put_number(buffer, piece.expires());
    ChangeParts::Like {
        value: value as u8,
        id: id as u8,
        expires: expires as u8,
    }
}

/// Whether a piece is as that of the text but for its value, its identity and its expiry, where this is what was read of
/// the text.
fn is_like_paid(piece: &Piece, scrip: Option<&[u8]>, paid: Option<&ScripRef<'_>>) -> bool
    ensures like { IsTrue result → like_text (seen scrip.entry) piece.now.value piece.now.id piece.now.expires ≡ Some piece.now }
    ensures there { IsTrue result → IsScripThere (seen scrip.entry) }
{
    scrip_of_tells_the_text();
    scrip_text_is_of_one_piece();
    match (scrip, paid) {
        (Some(text), Some(paid)) => paid.text() == text && is_like(piece, &paid.piece()),
        _ => false,
    }
}

/// Whether two pieces are alike but for their values, identities and expiries.
fn is_like(piece: &Piece, other: &Piece) -> bool
    ensures { IsTrue result → AreAlike piece.now other.now }
{
    let (vendor, other_vendor) = (piece.vendor(), other.vendor());
    let (props, other_props) = (piece.props(), other.props());
    piece.version() == other.version()
        && piece.cust() == other.cust()
        && vendor.bytes() == other_vendor.bytes()
        && props.bytes() == other_props.bytes()
}

/// The piece of a scrip text with another value, identity and expiry.
fn like_of(text: &[u8], value: u64, id: u64, expires: u64) -> Option<Piece>
    requires text { IsScripText text.now }
    requires some { 0 < value }
    requires most { value ≤ Amount.MOST }
    requires ends { 0 < expires }
    requires last { expires ≤ Piece.LAST_END }
    ensures { result ≡ like_read (scrip_of text.now) value id expires }
{
    let Ok(scrip) = read_scrip(text) else {
        unreachable!();
    };
    let piece = scrip.piece();
    let amount = Amount::new(value).unwrap();
    let like = Piece::new(
        piece.vendor(),
        amount,
        Id::of_number(id),
        piece.cust(),
        expires,
        piece.props(),
    )
    .unwrap();
    Some(like.versioned(piece.version()).unwrap())
}

/// The piece of a scrip text.
fn piece_of(text: &[u8]) -> Option<Piece>
    requires { IsScripText text.now }
    ensures { result ≡ piece_read (scrip_of text.now) }
{
    match read_scrip(text) {
        Ok(scrip) => Some(scrip.piece()),
        Err(_) => None,
    }
}
