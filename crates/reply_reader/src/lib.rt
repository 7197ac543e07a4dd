//! Replies of a site, as a wallet receives them: `ReplyReader` on a link, `read_reply` on bytes.
//!
//! Only [`ReplyReader::new`] takes memory.
#![tactic(auto)]

mod arrival;
mod decimals;
mod head;
mod law;
mod places;
mod reader;
mod reply;
mod whole;

pub use law::{a_site_reply_reads_back, numbers_are_words, one_reply, replies_stay};
pub use reader::{REPLY_ROOM, ReplyReader};
pub use reply::{ReplyFault, ReplyRead, ReplyRef};
pub use whole::read_reply;
