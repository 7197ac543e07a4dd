//! Licence lines: the terms under which a broker makes a vendor's scrip. The line is the word `licence`, the
//! vendor, the issuer, the period and the life of its series, its secrets of scrip and those of customers,
//! with one space between each two, and an LF.
//!
//! No call takes memory.
#![tactic(auto)]

mod fields;
mod law;
mod licence;

pub use law::{inputs_are_of_one_licence, long_inputs_break};
pub use licence::read_licence_line;
