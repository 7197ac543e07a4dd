//! The heads that the command `vendor play` is answered on, and links in memory that make each head when
//! it is asked for: [`Heads`].
//!
//! No call of this crate takes memory.
#![tactic(auto)]

mod head;
mod heads;
mod law;
mod piece;
mod supply;
#[cfg(test)]
mod tests;
mod told;

pub use head::write_head;
pub use heads::Heads;
pub use law::heads_told_are_of_their_play;
pub use piece::play_terms;
