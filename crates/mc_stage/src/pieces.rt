ghost use Rattle.std.specs.Prelude.{◌≡◌, ◌≤◌, ◌-◌, ◌++◌, [], length, take, drop, min, map};
ghost use Rattle.mc_stage.specs.Scenario.{first_piece, pieces_from, pieces_after, without_empty};

use std::alloc::Global;
use std::marker::Model;

/// The pieces of a link, and how far they were given: up to a piece that isn't given whole, or to
/// their end.
#[derive(Drop)]
pub(crate) struct Pieces {
    pieces: Vec<Vec<u8>>,
    piece: usize,
    place: usize,
}

impl Model for Pieces {
    ghost use Rattle.std.specs.Prelude.{List, ℕ, map};
    ghost use Rattle.mc_stage.specs.Scenario.{pieces_from, IsAtPiece};

    ghost Value = { List (List ℕ) };

    ghost view = { λ p. pieces_from p.piece p.place (map (λ v. v.items) p.pieces.items) };

    ghost invariant = { λ p. IsAtPiece (pieces_from p.piece p.place (map (λ v. v.items) p.pieces.items)) };
}

/// Copies what stands from there on, as far as there is room, and answers how many bytes.
pub(crate) fn copy_part(bytes: &[u8], at: usize, buf: &mut [u8]) -> usize
    ensures count { result ≡ min (length buf.old) (length bytes.now - at) }
    ensures copied { buf.new ≡ take result (drop at bytes.now) ++ drop result buf.old }
{
    let left = bytes.len().saturating_sub(at);
    let n = left.min(buf.len());
    if n == 0 {
        return 0;
    }
    buf[..n].copy_from_slice(&bytes[at..at + n]);
    n
}

/// Passes over pieces that have no bytes left.
fn skip_empty(pieces: &[Vec<u8>], piece: &mut usize, place: &mut usize)
    ensures { pieces_from piece.new place.new (map (λ v. v.items) pieces.now) ≡ without_empty (pieces_from piece.old place.old (map (λ v. v.items) pieces.now)) }
{
    'pieces: while *piece < pieces.len() && pieces[*piece].len() <= *place {
        *piece += 1;
        *place = 0;
    }
}

impl Pieces {
    /// No pieces.
    pub(crate) fn none(alloc: Global) -> Pieces
        ensures { result ≡ [] }
    {
        Pieces {
            pieces: Vec::new(alloc),
            piece: 0,
            place: 0,
        }
    }

    /// These pieces, of which none was given.
    pub(crate) fn of(pieces: Vec<Vec<u8>>) -> Pieces
        ensures { result ≡ without_empty (map (λ v. v.items) pieces.items) }
    {
        let mut piece = 0;
        let mut place = 0;
        skip_empty(&pieces, &mut piece, &mut place);
        Pieces {
            pieces,
            piece,
            place,
        }
    }

    /// Copies the next bytes to the front of `buf`, at most the rest of one piece, and answers how
    /// many. They still count as not given.
    pub(crate) fn peek(&self, buf: &mut [u8]) -> usize
        ensures count { result ≡ min (length buf.old) (length (first_piece self.now)) }
        ensures copied { buf.new ≡ take result (first_piece self.now) ++ drop result buf.old }
    {
        let Some(piece) = self.pieces.get(self.piece) else {
            return 0;
        };
        copy_part(piece, self.place, buf)
    }

    /// The next `n` bytes, which lie in one piece, were given.
    pub(crate) fn advance(&mut self, n: usize)
        requires { n ≤ length (first_piece self.old) }
        ensures { self.new ≡ pieces_after n self.old }
    {
        let Some(piece) = self.pieces.get(self.piece) else {
            return;
        };
        if n < piece.len() - self.place {
            self.place += n;
            return;
        }
        self.piece += 1;
        self.place = 0;
        skip_empty(&self.pieces, &mut self.piece, &mut self.place);
    }
}
