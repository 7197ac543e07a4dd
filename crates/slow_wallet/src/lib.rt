//! A wallet's book by slow programs: what the definitions of `wallet_model` say of a history, each found by
//! going over its entries. Cases ask them; no wallet stands on them. What asks no history, as whether the values of a
//! reply fit a request, is `wallet_core`'s own.
#![tactic(auto)]

mod asks;
mod came;
mod choice;
mod holdings;
mod kept;
mod lawful;
mod newness;
mod replies;
mod requests;
mod sending;
mod settle;
mod states;

pub use asks::{Asking, slow_pend_entry, slow_target};
pub use choice::{Offer, slow_chosen};
pub use holdings::{Holding, slow_holding};
pub use kept::{Numbered, slow_kept};
pub use lawful::slow_wallet_book;
pub use replies::slow_check;
pub use requests::{slow_is_kept, slow_pending};
pub use sending::slow_request_bytes;
pub use settle::slow_settlement;
pub use states::slow_state;
pub use wallet_book::State;
pub use wallet_core::RequestRef as Pending;
