//! What a command of a site's operator is, whatever the trade: the input that it reads, what it does over the house
//! of the site's book, and the line that is said of it.
#![tactic(auto)]

mod chain;
mod command;
mod looking;

pub use chain::switch_book;
pub use command::{OperatorCommand, without_answer};
pub use looking::{append_book, looked};
