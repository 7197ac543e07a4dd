//! A house: a site that takes scrip and gives something for it, by what it keeps and what it says of a
//! request. Here is how it takes an entry and how it answers, in memory or over a journal.
//!
//! `new` and `replay` of a bench take memory, of one that is only read too, and so do the calls `accept`, `respond`, `answer` and
//! `enter` of a bench or of a house. No other call of this crate does.
#![tactic(auto)]

mod answering;
mod bench;
mod fault;
mod gathering;
mod house;
mod outcome;
mod reading;
mod replaying;
mod reply;
mod sending;
mod settled;
mod signing;
mod spent;
mod switching;
mod tally;
mod upgrading;

pub use bench::Bench;
pub use fault::{BenchFault, EnterFault};
pub use house::House;
pub use outcome::{Outcome, Response};
pub use reading::ReadingBench;
pub use reply::ReplyRoom;
pub use sending::{send_again, send_disk_fault, send_kept, send_refusal, send_settled};
pub use settled::{Settled, drop_settled};
pub use spent::SpentPiece;
pub use tally::Tally;
pub use upgrading::upgrade;
