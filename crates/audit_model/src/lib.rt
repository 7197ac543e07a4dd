//! The books add up: what was paid in to a broker was paid out, stands in accounts, is fees or takings,
//! or is in pieces that are outstanding or lapsed. The definitions stand in `specs/`, and the laws on
//! functions that do nothing.
#![tactic(auto)]

mod laws;
mod part;
mod sold;
mod sums;

pub use laws::{
    books_of_brokers_balance, books_without_a_stranger_balance, expiry_moves_to_lapsed,
    lawful_books_balance, strangers_were_not_handed_out,
};
pub use part::Part;
pub use sold::Sold;
pub use sums::{Report, Sums, VendorSums};
