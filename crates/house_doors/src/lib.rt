//! Serving links by a house, of which some come through its operator's door: on such a link comes one command, which is
//! done to the book of the house that serves, and answered.
//!
//! Memory is taken before the first link, by a house to accept a request, and by a command.
#![tactic(auto)]

mod answer;
mod command;
mod links;
mod operators;
mod performing;

pub use command::MOST_TOLD;
pub use links::serve_doors;
pub use operators::Operators;
pub use performing::perform;
