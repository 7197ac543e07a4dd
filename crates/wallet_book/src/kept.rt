//! The requests that a wallet keeps.

use scrip_form::{Name, Target};

/// A request that a wallet keeps until a reply settles it: the number of its entry; whether it asks for goods (0),
/// to buy (1) or to draw (2); of whom, and under which target; the place of the piece that it pays with among the
/// wallet's, where it pays with one; and the secret that signs it.
#[derive(Clone, Copy, Drop)]
pub struct Kept {
    pub number: u64,
    pub ask: u8,
    pub peer: Name,
    pub target: Target,
    pub place: Option<usize>,
    pub secret: [u8; 16],
}
