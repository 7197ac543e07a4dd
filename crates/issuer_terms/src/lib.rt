//! The terms of an issuer, as the operator of a vendor or of a broker enters them. No call takes memory.
#![tactic(auto)]

mod terms;

pub use terms::{are_same, terms_fit};
