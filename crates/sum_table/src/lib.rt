//! Keys with an amount each, found by hashing: sums of series of scrip.
//!
//! [`SumTable::reserve`] takes memory. No other call does.
#![tactic(auto)]

mod sum_table;

pub use sum_table::SumTable;
