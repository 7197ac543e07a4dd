//! What an audit of the books of several brokers and of vendors tells: their sums, and these as lines of text.
#![tactic(auto)]

mod text;
mod tree;

pub use text::tree_text;
pub use tree::{BrokerSums, Tree};
