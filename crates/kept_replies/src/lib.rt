//! First replies, kept so that a request that comes again gets its reply again.
//!
//! No call of this crate but `Kept::reserve` takes memory.
#![tactic(auto)]

mod body;
mod change;
mod deed;
mod digits;
mod index;
mod kept;
mod number;
mod parts;
mod reply;
mod sold;
mod span;
mod together;

pub use deed::{Deed, KeptEntry};
pub use kept::Kept;
pub use number::KeptNumber;
