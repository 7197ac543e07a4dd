//! The sums of the books of a broker and of vendors, and the first stranger in them, by slow programs:
//! what the definitions of `ledger_model` and `audit_model` say, each found by going over the entries.
//! Cases ask them; no auditor stands on them.
#![tactic(auto)]

mod broker;
mod handed;
mod left;
mod minted;
mod parts;
mod sold;
mod stock;
mod strangers;
mod sums;
mod vendor;

pub use strangers::{Stranger, slow_first_stranger};
pub use sums::slow_sums;
