//! What `--help` and `--version` print: of each command a line, some sentences and an example, of each parameter what it
//! means and the form of its words, and which words ask for which page.
//!
//! The man page and the completion of shells are written out of these texts, too.
#![tactic(auto)]

mod asked;
mod commands;
mod pages;
mod parameters;
mod version;

pub use asked::{Page, page_of};
pub use commands::{CommandText, role_line, text_of};
pub use parameters::{Form, form_of, meaning_of, unit_of};
pub use version::RELEASE;
