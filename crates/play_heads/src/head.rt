ghost use Rattle.std.specs.Prelude.{◌≡◌, ◌+◌, ◌<◌, ◌≤◌, ◌++◌, length, take};
ghost use Rattle.scrip_form.specs.Scrip.{scrip_body, scrip_text};
ghost use Rattle.scrip_certs.specs.Digests.{certificate};
ghost use Rattle.play_heads.specs.PlayHeads.{issuer_terms, play_head, paying_head};

use crate::piece::{own_piece, play_terms};
use mc_fields::put;
use scrip_certs::write_certified;
use scrip_form::Piece;

/// Writes the head of a number to the front of `out`, and answers its length, which is at most 351.
///
/// Every head asks for `/p` or `/q` of the host `play.example` and pays with a piece of issuer 1. Of eight
/// in a row, 0, 1, 2 and 4 have a fresh piece of value 100, and so has 3, but from number 2,048 on its epoch
/// is the one before; 5 has the bytes of the head before it, and 6 the piece of the head two before it, with
/// the target `/q`; 7 has a fresh piece of value 24. A fresh piece is of the epoch in which the moment of
/// that number lies.
pub fn write_head(i: u32, out: &mut [u8; 512]) -> usize
    ensures some { 0 < result }
    ensures short { result ≤ 351 }
    ensures head { take result out.new ≡ play_head i }
{
    match i % 8 {
        5 => write_request(b"/p", &own_piece(i - 1), out),
        6 => write_request(b"/q", &own_piece(i - 2), out),
        _ => write_request(b"/p", &own_piece(i), out),
    }
}

/// Writes a request with a piece and its certificate.
#[tactic(auto, unfolding(crate::specs::PlayHeads::paying_head))]
fn write_request(target: &[u8], piece: &Piece, out: &mut [u8; 512]) -> usize
    requires { length target.now ≡ 2 }
    ensures some { 0 < result }
    ensures short { result ≤ 351 }
    ensures head { take result out.new ≡ paying_head target.now piece.now }
{
    let at = put(out, 0, b"GET ");
    let at = put(out, at, target);
    let at = put(
        out,
        at,
        b" HTTP/1.1\r\nHost: play.example\r\nMillicent-Scrip: ",
    );
    let at = put_scrip(out, at, piece);
    put(out, at, b"\r\n\r\n")
}

/// Writes the text of a piece and its certificate at a place, and answers the place behind it.
fn put_scrip(out: &mut [u8; 512], at: usize, piece: &Piece) -> usize
    requires { at ≤ 54 }
    ensures behind { at ≤ result }
    ensures short { result ≤ at + 293 }
    ensures text { take result out.new ≡ take at out.old
        ++ scrip_text piece.now (certificate issuer_terms (scrip_body piece.now) piece.now.id) }
{
    let mut text = [0; 512];
    let len = write_certified(&play_terms(), piece, &mut text);
    put(out, at, &text[..len])
}
