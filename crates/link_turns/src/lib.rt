//! What those who serve links have in common: turns, each of which answers the next item of a link, and the page from
//! which a reply leaves. Who answers, as a house or a proxy does, says by what steps; what a crash leaves of steps over a
//! journal is said of any.
//!
//! `Reply::append_to` takes memory, and no other call of this crate does.
#![tactic(auto)]

mod reply;
mod turn;

pub use reply::{Page, Reply};
pub use turn::{Turn, turn_of};
