//! The accounts of a broker, over coins: money goes in as a coin and comes out as one, and none is
//! made or lost on the way.
//!
//! [`Accounts::reserve`] takes memory. No other call does.
#![tactic(auto)]

mod account;
mod accounts;

pub use account::Account;
pub use accounts::Accounts;
