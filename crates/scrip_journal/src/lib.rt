//! A journal of entries behind gates, which survives a crash at any moment.
//!
//! Its states own the disk and never lend it. A [`Journal`] at rest stages an entry and becomes a
//! [`Staged`]; that opens the entry's gate and becomes a journal again, with a [`Receipt`]. Where the disk
//! fails both end as a [`Halted`]. A [`Replay`] reads a journal entry by entry. A call that answers `Ok`
//! leaves the disk's count of faults as it was.
#![tactic(auto)]

mod batch;
mod book;
mod chain;
mod cursor;
mod ending;
mod far;
mod fault;
mod found;
mod journal;
mod law;
mod links;
mod open;
mod replay;
mod staged;
mod switching;

pub use batch::{Batch, Receipts};
pub use book::found_book;
pub use cursor::FIRST_GATE;
pub use ending::ReplayFault;
pub use fault::{HouseFault, LearnFault, OpenFault};
pub use found::found_journal;
pub use journal::{Halted, Journal, Receipt, StageFault};
pub use law::{
    a_broken_chain_has_one_place, a_disk_stands_for_one_history, a_spoiled_disk_has_one_place,
};
pub use open::open_journal;
pub use replay::Replay;
pub use staged::Staged;
pub use switching::SWITCH_PAYLOAD;
