//! The lines of cases that need a wallet: those that ask a wallet's book, and those that read replies. `docs/CASES.md` has the
//! language, and the program `cases` runs it.
#![tactic(auto)]

mod reply_verbs;
mod verbs;
mod wallet_verbs;

pub use verbs::act;
