//! What an audit keeps of a lawful book, learned entry by entry without the history: its money, the pieces that it
//! accepted, handed out and minted, and what a broker sold. Only `BookSums::learn` takes memory.
#![tactic(auto)]

mod audit_sums;
mod market;
mod pieces;
mod readings;
mod rows;
mod till;

pub use audit_sums::BookSums;
pub use rows::{Acceptance, Licence, Run, Stocked};
pub use till::Till;
