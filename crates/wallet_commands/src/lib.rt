//! What the commands of a wallet do with its book, up to the line that is said: it is founded, pieces are taken and
//! listed, goods are got, scrip is bought and drawn, pieces are renewed, what is kept is tried again, and the chain of
//! the book is told.
#![tactic(auto)]

mod chaining;
mod founding;
mod law;
mod lines;
mod listing;
mod paying;
mod renewing;
mod saying;
mod sending;
mod settling;
mod taking;

pub use chaining::chain;
pub use founding::init;
pub use law::{a_piece_is_its_price_and_its_change, lawful_wallets_are_opened};
pub use listing::{held_lines, list, list_held};
pub use paying::{pay, retry};
pub use renewing::renew;
pub use saying::Saying;
pub use taking::{MOST_LINES, take};
