//! The audit of the books of a broker and of vendors.
#![tactic(auto)]

mod audit;
mod check;
mod fault;
mod known;
mod market;
mod shop;
mod shops;
mod spent;
mod standing;
mod strangers;
mod totals;

pub use audit::{audit_books, by_name};
pub use check::{CheckFault, is_desk, left_of};
pub use fault::BooksFault;
pub use known::Known;
pub use market::{least_beside, vendor_names};
pub use shops::Shops;
pub use spent::Left;
pub use strangers::unknown;
pub use totals::accounts_of;
