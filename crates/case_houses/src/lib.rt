//! The lines of cases that need a house or the ledger: those that serve and keep a vendor's book and a broker's, and ask the
//! ledger, sums and strangers. `docs/CASES.md` has the language, and the program `cases` runs it.
#![tactic(auto)]

mod desk_verbs;
mod ledger_verbs;
mod market_verbs;
mod operator_verbs;
mod serve_verbs;
mod verbs;

pub use ledger_verbs::{history, history_of, show_refusal};
pub use verbs::act;
