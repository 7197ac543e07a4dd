//! A vendor: what it sells, which scrip it takes, and what its operator enters: goods, prices, terms of issuers,
//! mints.
#![tactic(auto)]

mod catalogue;
mod edition;
mod lines;
mod minted;
mod operator;
mod shelf;
mod targets;

pub use operator::{add_terms, mint, set_goods, set_price, upgrade};
pub use shelf::{OnSale, Shelf};
