//! What is kept of an entry.

use audit_model::Part;
use scrip_form::{Id, Name, Terms};

/// What is kept of an Accept entry: the piece, where its text is one, and whether scrip was sold for it. What was sold
/// stands among the sales, in the same order.
#[derive(Clone, Copy, Drop)]
pub struct Acceptance {
    pub piece: Option<Part>,
    pub sale: bool,
}

/// Pieces that were minted: so many of a value in units, whose identities follow the first.
#[derive(Clone, Copy, Drop)]
pub struct Run {
    pub first: Id,
    pub count: u16,
    pub value: u64,
}

/// A vendor's licence.
#[derive(Clone, Copy, Drop)]
pub struct Licence {
    pub vendor: Name,
    pub terms: Terms,
}

/// A piece that was put into stock for a vendor.
#[derive(Clone, Copy, Drop)]
pub struct Stocked {
    pub vendor: Name,
    pub part: Part,
}
