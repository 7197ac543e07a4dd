//! What a wallet's book says: its pieces and their states, the requests that it keeps, what it asks and
//! how a reply settles that. The definitions stand in `specs/`, and laws over them on functions that do
//! nothing.
#![tactic(auto)]

mod laws;

pub use laws::{
    first_against_is_one, one_entry_more, pieces_are_paid_once, pieces_stay,
    requests_are_settled_once, settlements_fit, settlements_keep_pieces, wallet_books_grow,
    written_entries_follow,
};
