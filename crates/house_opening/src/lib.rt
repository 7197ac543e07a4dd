//! The book of a house: it is founded by its first entry, and opened as a house by reading its entries and
//! learning them one by one. Both calls take memory.
#![tactic(auto)]

mod found;
mod law;
mod opening;

pub use found::found_house;
pub use law::books_of_another_kind_have_one_fault;
pub use opening::open_house;
