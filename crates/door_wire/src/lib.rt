//! The wire form of a command that is told at a door, and of its answer.
#![tactic(auto)]

mod reply;
mod spelling;
mod told;

pub use reply::{Answer, read_answer};
pub use spelling::{can_be_told, put_told};
pub use told::{Told, read_told};
