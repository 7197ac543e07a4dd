//! The books of several brokers, of which one may sell what another sold, and of the vendors. The definitions stand in
//! `specs/`, and the laws on functions that do nothing.
#![tactic(auto)]

mod laws;

pub use laws::{
    licensed_sales_stand_among_all, strangers_were_not_handed_out, trees_balance,
    trees_without_a_stranger_balance, what_was_seen_bars_a_sale,
};
