//! What is kept: the entries of histories with their payloads, both ways, and what a journal grows to
//! with each.
//!
//! No call of this crate but `write_record` takes memory.
#![tactic(auto)]

mod appending;
mod cells;
mod chain;
mod kinds;
mod law;
mod listing;
mod parts;
mod piece_list;
mod piece_lists;
mod ranges;
mod reading;
mod record;
mod sizes;
mod terms;
mod writing;

pub use appending::write_record;
pub use chain::{FIRST_CHAIN, begins_switch, chain_after};
pub use law::{bytes_after_a_payload, no_payload_begins_another, payloads_are_short};
pub use piece_list::PieceList;
pub use ranges::{
    CHAIN_BYTES, LEAST_KEEP, MOST_CONTENTS, MOST_EPOCH, MOST_IN_ACCOUNT, MOST_KEEP, MOST_PIECES,
};
pub use reading::read_record;
pub use record::{Record, RecordDeed, RecordFault, SiteTerms};
pub use sizes::{EMPTY_JOURNAL, FRAME, PAYLOAD_BOUND, grown_size, tail_len};
pub use terms::RecordTerms;
pub use writing::put_record;
