//! The commands of settlement: a vendor's operator states a series, and a broker's pays a statement. Each is an operator's
//! command over a book that is opened with its counts.
#![tactic(auto)]

mod settling;
mod stating;
mod unasking;

pub use settling::{MOST_LINES, StatementPayment};
pub use stating::SeriesStatement;
pub use unasking::Unasking;
