//! An outside in memory, for tests: a disk that tells all and can crash, links given as lists of
//! pieces, a clock given as a list of readings, and calls that fail as listed.
#![tactic(auto)]

mod clock;
mod lasts;
mod pieces;
mod plan;
mod stage;
mod tape;

pub use stage::{Failing, Stage};
