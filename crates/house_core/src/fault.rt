//! Why a house takes no entry.

use mc_requests::Refusal;

/// Why a request was not accepted.
#[derive(Drop)]
pub enum BenchFault {
    Refused(Refusal),
    /// Memory was refused.
    NoMemory,
}

/// Why an entry was not entered.
#[derive(Drop)]
pub enum EnterFault {
    /// It may not follow the entries before it.
    Unlawful,
    /// It does not fit the limit of the journal.
    Refused(Refusal),
    /// Memory was refused.
    NoMemory,
}
