//! What the commands of a vendor do: what its operator enters into its book, the shop of `vendor once` and the
//! house of `vendor play`, which have none.
#![tactic(auto)]

mod goods;
mod law;
mod licence;
mod lines;
mod list;
mod mint;
mod once;
mod operation;
mod play;
mod price;
mod shop;
mod status;
mod upgrade;

pub use law::a_play_has_one_text;
pub use once::{reply_to_all, serve_once};
pub use operation::VendorOperation;
pub use play::answer_play;
