//! What an audit reports: the sums of the books of a broker and of vendors, as lines of text and as JSON.
#![tactic(auto)]

mod json;
mod text;

pub use json::report_json;
pub use text::{append_name, append_number, append_vendors, report_text};
