//! Books are read to be audited, each by one pass over its disk, and audited; or their chains are said.
#![tactic(auto)]

mod auditing;
mod book_chains;
mod books;
mod chain_reading;
mod fault;
mod one_book;
mod reader;
mod reading;
mod report;
mod telling;
mod tree;
mod tree_auditing;

pub use audit_model::{Report, Sums, VendorSums};
pub use auditing::audit;
pub use book_chains::chains;
pub use chain_reading::ChainLine;
pub use fault::AuditFault;
pub use relay_core::{BrokerSums, Tree};
pub use report::report_books;
pub use telling::tell_chains;
pub use tree::report_tree;
pub use tree_auditing::audit_tree;
