//! The lines that commands say: begun with room for their end, so that ending one takes no memory; and those that
//! commands of more than one role say.
#![tactic(auto)]

mod chain;
mod line;
mod metric;
mod upgrade;

pub use chain::{begin_chain, end_chain};
pub use line::{READY, begin, end_line, lay_bare, put, put_number, ready};
pub use metric::{append_metric, append_number, append_site};
pub use upgrade::{put_upgrade, upgrade_line};
