//! The audit of the books of several brokers and of vendors.
#![tactic(auto)]

mod check;
mod desks;
mod handed;
mod judge;
mod licences;
mod marks;
mod names;
mod rows;
mod totals;
mod tree_books;

pub use tree_books::audit_tree_books;
