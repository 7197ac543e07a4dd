//! Links that stand side by side, over a disk.
#![tactic(auto)]

mod slots;

pub use slots::{Sides, Slots};
