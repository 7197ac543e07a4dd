//! What a wallet keeps in place of its book, in memory: its pieces with the state of each, found by their
//! vendor and identity, and the requests that it keeps.
#![tactic(auto)]

mod book;
mod choosing;
mod finding;
mod holding;
mod holdings;
mod kept;
mod learning;
mod parts;
mod paying;
mod piece_index;

pub use book::WalletBook;
pub use holding::{Holding, State};
pub use kept::Kept;
pub use learning::refused_state;
pub use paying::{asks_to_buy, asks_to_draw};
