//! The values that the words of the commands of a wallet and of an audit spell.
//!
//! What `clap` finds in the words is read by the readers of `command_table`.
#![tactic(auto)]

mod audit_books;
mod proxying;
mod reporting;
mod wallet_init;
mod wallet_operation;

pub use audit_books::AuditBooks;
pub use proxying::{Proxying, proxying_of};
pub use reporting::Reporting;
pub use wallet_init::WalletFounder;
pub use wallet_operation::{
    BookAlone, Buying, Drawing, Getting, Relaying, Renewing, Retrying, WalletOperation,
};
