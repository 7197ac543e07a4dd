//! What is told of the piece that an entry spends.

ghost use Rattle.std.specs.Prelude.{◌≡◌};
ghost use Rattle.house_core.specs.Spent.{told_of};

use scrip_form::{Id, Piece};

/// The piece that an entry spends: its identity, its value in units, and its end in seconds since 1970. Whoever learned the
/// entry need not read the scrip's text again.
#[derive(Clone, Copy, Drop)]
pub struct SpentPiece {
    pub id: Id,
    pub value: u64,
    pub expires: u64,
}

impl SpentPiece {
    /// What is told of a piece.
    pub(crate) fn of(piece: &Piece) -> SpentPiece
        ensures { result ≡ told_of piece.now }
    {
        SpentPiece {
            id: piece.id(),
            value: piece.value().get(),
            expires: piece.expires(),
        }
    }
}
