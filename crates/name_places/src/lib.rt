//! Names with a place each, found by hashing: where in a list what is known of a name stands.
//!
//! [`NamePlaces::reserve`] takes memory. No other call does.
#![tactic(auto)]

mod name_places;

pub use name_places::NamePlaces;
