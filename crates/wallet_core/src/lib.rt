//! A wallet over a journal: what it has learned of its book is in memory (`wallet_book`), and its journal is
//! founded, opened entry by entry, and written by the calls that take pieces, ask and settle (`calls.rt`), and by the
//! one that switches it (`switching.rt`).
#![tactic(auto)]

mod ask;
mod asking;
mod calls;
mod came;
mod checked;
mod checking;
mod clock;
mod contents;
mod entering;
mod far;
mod found;
mod links;
mod opening;
mod outcome;
mod prices;
mod renewing;
mod request;
mod sending;
mod settling;
mod switching;
mod taking;
mod wallet;

pub use ask::Ask;
pub use asking::{request_for, request_with};
pub use checked::Checked;
pub use checking::{check_reply, fits_request};
pub use clock::raise_by_clock;
pub use contents::{are_one_piece, piece_of};
pub use found::found_wallet;
pub use opening::open_wallet;
pub use outcome::WalletOut;
pub use prices::is_dash;
pub use renewing::renew_place;
pub use request::{RequestRef, WalletRequest, kept_request, pend_record};
pub use sending::put_request;
pub use settling::{Settlement, paid_price, refusal_number, settlement_record};
pub use taking::{TakeFault, take_pieces, taken_list};
pub use wallet::Wallet;
