//! Pieces of a wallet, with what became of each.

use scrip_form::Piece;

/// What became of a piece that a wallet got.
#[derive(Clone, Copy, Debug, Drop, PartialEq, Eq)]
pub enum State {
    /// It can pay.
    Held,
    /// It pays in a request that is kept.
    Pending,
    /// A house said that it was spent, and gave no reply for it.
    Disputed,
    /// It paid.
    Used,
    /// It expired before it paid.
    Dead,
}

/// A piece with its certificate, the secret of its customer, and what became of it.
#[derive(Clone, Copy, Drop)]
pub struct Holding {
    pub piece: Piece,
    pub cert: [u8; 16],
    pub secret: [u8; 16],
    pub state: State,
}
