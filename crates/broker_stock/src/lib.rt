//! The pieces of one vendor that a broker has in stock and did not sell, by their value, in the order in which they came.
#![tactic(auto)]

mod piece;
mod rack;
mod racks;

pub use piece::StockPiece;
pub use racks::Racks;
