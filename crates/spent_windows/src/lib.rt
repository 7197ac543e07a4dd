//! The identities that a house accepted, each of which is spent, as bits: a window has 4,096 serials of
//! one series. It takes 512 bytes of bits until all its serials are marked, and none from then on, and
//! it is dropped at the end of its series, from which on no piece of the series is good.
//!
//! [`Windows::reserve`] takes memory. No other call does.
#![tactic(auto)]

mod bits;
mod counter;
mod look;
mod steps;
mod window;
mod windows;

pub use look::{Fresh, Look};
pub use steps::{Plain, Steps};
pub use windows::Windows;
