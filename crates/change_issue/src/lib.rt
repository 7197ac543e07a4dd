//! The issuing of scrip: serials without a gap in each series of an issuer, and the sums of what was
//! issued in the series and of what was redeemed.
//!
//! [`Issuer::reserve`] takes memory. No other call does.
#![tactic(auto)]

mod issuer;
mod series_full;
mod sheet;

pub use issuer::Issuer;
pub use series_full::SeriesFull;
