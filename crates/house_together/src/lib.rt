//! Serving several links at once by a house over a journal: what they ask in a round is committed together.
#![tactic(auto)]

mod item;
mod law;
mod replies;
mod round;
mod slot;

pub use item::{Taken, take_item};
pub use law::{one_slot_is_links_one_after_another, rounds_are_in_order};
pub use replies::{Due, reply_due, send_due, send_round};
pub use round::finish_round;
pub use slot::{Gathered, gather_slot};
