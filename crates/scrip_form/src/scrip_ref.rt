ghost use Rattle.std.specs.Prelude.{◌≡◌};
ghost use Rattle.scrip_form.specs.Scrip.{IsTextOf, scrip_body};

use crate::piece::Piece;
use std::marker::Model;

/// A scrip text that was read: the bytes, with the piece and the certificate that they spell.
/// Contracts see it as the record `Certified`.
#[derive(Drop)]
pub struct ScripRef<'a> {
    text: &'a [u8],
    piece: Piece,
    cert: [u8; 16],
}

impl<'a> Model for ScripRef<'a> {
    ghost use Rattle.scrip_form.specs.Scrip.{Certified, IsTextOf};

    ghost Value = { Certified };

    ghost view = { λ s. record { text = s.text.now; piece = s.piece; cert = s.cert } };

    ghost invariant = { λ s. IsTextOf s.text.now s.piece s.cert };
}

impl<'a> ScripRef<'a> {
    pub(crate) fn of(text: &'a [u8], piece: Piece, cert: [u8; 16]) -> ScripRef<'a>
        requires { IsTextOf text.now piece cert }
        ensures { result ≡ record { text = text.now; piece = piece; cert = cert } }
    {
        ScripRef { text, piece, cert }
    }

    /// The whole text.
    pub fn text(&self) -> &'a [u8]
        ensures text { result.now ≡ self.now.text }
        ensures spelled { IsTextOf self.now.text self.now.piece self.now.cert }
    {
        self.text
    }

    /// The text up to its certificate, the last `|` included: what the certificate is made of.
    pub fn body(&self) -> &'a [u8]
        ensures { result.now ≡ scrip_body self.now.piece }
    {
        &self.text[..self.text.len() - 32]
    }

    /// The piece.
    pub fn piece(&self) -> Piece
        ensures { result ≡ self.now.piece }
    {
        self.piece
    }

    /// The certificate, as the 16 bytes that its digits spell.
    pub fn cert(&self) -> [u8; 16]
        ensures { result ≡ self.now.cert }
    {
        self.cert
    }
}
