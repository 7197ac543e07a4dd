//! What a broker keeps of its accounts, and of the money that its operator put in and paid out, as its history
//! says it: what draws, credits and the operator's calls are judged by, found in a few looks.
//!
//! [`AccountLedger::reserve`] takes memory. No other call does.
#![tactic(auto)]

mod broker_ledger;
mod laws;
mod order;
mod payment;
mod tasks;

pub use broker_ledger::{AccountLedger, Standing};
pub use laws::accounts_follow;
pub use order::{Order, order_of};
pub use payment::Payment;
