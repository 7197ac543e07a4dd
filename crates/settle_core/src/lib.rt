//! The settlement of licensed scrip: what a vendor redeemed of a series that has ended, and what a broker paid for it.
#![tactic(auto)]

mod claim;
mod laws;
mod reading;
mod statement;
mod writing;

pub use claim::{Claim, Payment, Statement};
pub use laws::{
    claims_are_read_as_they_are_spelled, lines_are_paid, long_inputs_break,
    no_series_is_paid_twice, statements_are_paid, statements_are_read_as_they_are_spelled,
    statements_stay, statements_stay_behind, what_is_entered_is_in_order,
    what_was_redeemed_can_be_stated, what_was_redeemed_was_sold,
};
pub use reading::{read_claim, read_payment};
pub use statement::{is_certified, payment_in, read_statement};
pub use writing::{append_claim, append_payment, append_statement, append_statement_body};
