//! What a broker has of each vendor to sell: a licence with the count of what was sold under it, and stock.
//!
//! The calls that reserve take memory. No other call does.
#![tactic(auto)]

mod law;
mod listed;
mod stall;
mod stalls;
mod stock_ids;
mod target;

pub use broker_stock::StockPiece;
pub use law::{stalls_follow, stalls_follow_entries, stalls_tell_stock};
pub use stall::Stall;
pub use stalls::Stalls;
pub use target::{Purchase, bought};
