//! The language of cases, but for the lines that need a house: what a line is made of, what the lines of a case
//! have said so far, and what is printed. `docs/CASES.md` has the language, and the program `cases` runs it.
#![tactic(auto)]

mod asked;
mod digest_verbs;
mod fault;
mod form_verbs;
mod head_verbs;
mod issue_verbs;
mod journal_verbs;
mod names;
mod payload_verbs;
mod refusals;
mod setting_verbs;
mod show;
mod stage_verbs;
mod state;
mod verbs;
mod words;

pub use asked::Asked;
pub use digest_verbs::terms;
pub use fault::Fault;
pub use journal_verbs::show_chain;
pub use names::Names;
pub use payload_verbs::show_entry;
pub use show::Lines;
pub use state::{Beside, Setting, State, show_beside, show_book, stage_of};
pub use verbs::act;
pub use words::{number, small, tokens};
