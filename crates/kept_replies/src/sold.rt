//! Scrip that was sold or drawn, with its text and its customer secret in a buffer.

ghost use Rattle.std.specs.Prelude.{◌≡◌, ◌+◌, ◌-◌, ◌≤◌, ◌<◌, ◌^◌, vec_len, vec_capacity, slice_range, Ok};
ghost use Rattle.scrip_form.specs.Scrip.{IsScripText};
ghost use Rattle.scrip_form.specs.Reading.{scrip_of};
ghost use Rattle.kept_replies.specs.Kept.{sold_size};
ghost use Rattle.kept_replies.specs.Parts.{StaysIn, IsSoldIn, SoldIsWithin};

use crate::span::put;
use scrip_form::{
    Piece, read_scrip, scrip_of_tells_the_text, scrip_text_is_of_one_piece, write_scrip,
};

/// The most bytes that the text of a piece with its certificate has.
pub(crate) const LONGEST: usize = 293;

/// How many bytes the text of a piece with its certificate and a secret have.
pub(crate) fn size_of_sold(piece: &Piece, cert: &[u8; 16], secret: &[u8; 16]) -> usize
    ensures size { result ≡ sold_size piece.now cert.now secret.now }
    ensures most { result ≤ 309 }
{
    let mut room = [0; 512];
    write_scrip(piece, cert, &mut room) + secret.len()
}

/// Puts the text of a piece with its certificate behind what the buffer holds, and answers where it ends.
pub(crate) fn put_piece(buffer: &mut Vec<u8>, piece: &Piece, cert: &[u8; 16]) -> u16
    requires room { vec_len buffer.old + LONGEST ≤ vec_capacity buffer.old }
    requires short { vec_len buffer.old + LONGEST < 2 ^ 16 }
    ensures end { result ≡ vec_len buffer.new }
    ensures longer { vec_len buffer.old ≤ result }
    ensures most { result ≤ vec_len buffer.old + LONGEST }
    ensures capacity { vec_capacity buffer.old ≤ vec_capacity buffer.new }
    ensures stays { StaysIn buffer.old.items buffer.new.items }
    ensures read { scrip_of (slice_range buffer.new.items (vec_len buffer.old) result) ≡ Ok (piece.now, cert.now) }
    ensures text { IsScripText (slice_range buffer.new.items (vec_len buffer.old) result) }
{
    scrip_of_tells_the_text();
    scrip_text_is_of_one_piece();
    let mut room = [0; 512];
    let len = write_scrip(piece, cert, &mut room);
    put(buffer, &room[..len])
}

/// Puts a text of a piece with its certificate, and then the secret, behind what the buffer holds.
pub(crate) fn put_sold(
    buffer: &mut Vec<u8>,
    piece: &Piece,
    cert: &[u8; 16],
    secret: &[u8; 16],
) -> u16
    requires room { vec_len buffer.old + sold_size piece.now cert.now secret.now ≤ vec_capacity buffer.old }
    requires short { vec_len buffer.old + sold_size piece.now cert.now secret.now < 2 ^ 16 }
    ensures end { result ≡ vec_len buffer.new }
    ensures len { result ≡ vec_len buffer.old + sold_size piece.now cert.now secret.now }
    ensures capacity { vec_capacity buffer.old ≤ vec_capacity buffer.new }
    ensures stays { StaysIn buffer.old.items buffer.new.items }
    ensures sold { IsSoldIn buffer.new.items (vec_len buffer.old) result piece.now cert.now secret.now }
    ensures within { SoldIsWithin buffer.new.items (vec_len buffer.old) result }
{
    scrip_of_tells_the_text();
    scrip_text_is_of_one_piece();
    let mut room = [0; 512];
    let len = write_scrip(piece, cert, &mut room);
    put(buffer, &room[..len]);
    put(buffer, secret)
}

/// The piece, its certificate and its customer secret.
pub(crate) fn sold_of(bytes: &[u8], start: u16, end: u16) -> (Piece, [u8; 16], [u8; 16])
    requires { SoldIsWithin bytes.now start end }
    ensures { IsSoldIn bytes.now start end result.0 result.1 result.2 }
{
    let (start, end) = (start as usize, end as usize);
    let Ok(scrip) = read_scrip(&bytes[start..end - 16]) else {
        unreachable!();
    };
    let mut secret = [0; 16];
    secret.copy_from_slice(&bytes[end - 16..end]);
    let cert = scrip.cert();
    (scrip.piece(), cert, secret)
}
