//! How a command ends: its status, with the number that the program ends with and the line that it says.
#![tactic(auto)]

mod fault;
mod status;

pub use fault::not_opened;
pub use status::Status;
