//! The lines of the pieces of a wallet that another may sell.
#![tactic(auto)]

mod lines;

pub use lines::{LinesFault, MOST, append_held};
