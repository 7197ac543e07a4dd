//! A proxy that pays: a browser's plain GET goes in, a wallet pays for it.
//!
//! Memory is taken before the first link, and by the wallet to enter what it asks and what it got.
#![tactic(auto)]

mod allowance;
mod law;
mod links;
mod paying;
mod serving;
mod settling;
mod told;
mod turn;
mod upstream;

pub use law::{
    a_run_asks_no_more, a_run_pays_as_booked, an_item_pays_once, what_is_asked_is_sent_and_told,
    what_is_in_doubt, what_is_kept_is_paid_once,
};
pub use links::{ProxyOut, proxy_links};
pub use serving::serve_wallet;
