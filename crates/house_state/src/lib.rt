//! What stands below a house, a site that takes scrip and gives something for it: what every house asks of
//! the trade that it carries, whether it sells goods or scrip, what it keeps beside its trade, and what it
//! says of one request.
//!
//! `found_state`, `HouseState::make_room` and `HouseState::reserve_for` take memory, and so does `reserve` of
//! a trade. No other call of this crate does.
#![tactic(auto)]

mod body;
mod evaluating;
mod founding;
mod house_state;
mod law;
mod lengths;
mod money;
mod offer;
mod presented;
mod ranges;
mod stages;
mod trade;
mod verdict;
mod versions;

pub use body::{body_of_deed, put_piece_line};
pub use evaluating::evaluate;
pub use founding::found_state;
pub use house_state::HouseState;
pub use law::{contents_stay, entries_follow_in_parts, goods_in_force_are_kept};
pub use offer::{Body, DrawAsk, Offer, SiteKind, Unlawful};
pub use presented::{Presented, without_scrip};
pub use ranges::{authorization_fits, draw_fits};
pub use stages::{fitted, terms_of};
pub use trade::Trade;
pub use verdict::{Authorization, Authorized, DrawAuthorization, NotAuthorized, Verdict};
pub use versions::raises;
