//! The ledger by slow programs: what the definitions of `ledger_model` say of a history, each found by
//! going over its entries. Cases ask them; no house stands on them.
#![tactic(auto)]

mod accounts;
mod chains;
mod counts;
mod draws;
mod filters;
mod following;
mod offers;
mod prefix;
mod stages;
mod stock;
mod table;
mod upgrades;

pub use accounts::slow_balance;
pub use chains::{slow_chain, slow_has_switch};
pub use counts::slow_size;
pub use filters::{
    moment_at, slow_fee, slow_is_broker, slow_is_spent, slow_name, slow_terms, slow_time,
};
pub use following::slow_lawful;
pub use prefix::Prefix;
pub use stock::slow_licence;
pub use table::{ModelAnswer, slow_answer};
