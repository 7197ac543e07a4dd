//! HTTP on a link: the heads of requests as they come in pieces, and the heads of replies.
#![tactic(auto)]

mod clock;
mod fields;
mod input;
mod item;
mod law;
mod occurs;
mod reader;
mod reply;
mod reply_head;
mod reply_text;
mod request;
mod scan;
mod send;
mod whole;

pub use clock::Clock;
pub use input::{InputFault, input_of, receive};
pub use item::{After, HeadOut, HeadRefusal, ItemRef};
pub use law::{a_refusal_has_a_status, a_request_asks_a_target, one_reading};
pub use reader::{HeadReader, MAX_HEAD, MAX_ITEMS};
pub use reply::{ReplyHead, or_dash, put_field};
pub use reply_head::write_reply_head;
pub use reply_text::write_reply_text;
pub use scan::{find_end, skip_line_ends};
pub use send::send_all;
pub use whole::{ends_item, next_item};
