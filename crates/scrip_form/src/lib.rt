//! Scrip, the money of Millicent, as it is written and read: names, identities, the terms of an
//! issuer, and the one text of a piece with its certificate.
//!
//! From the paper of 1995 come a piece's seven fields (vendor, value, identity, customer identity,
//! expiry, properties and certificate). Their spelling is this project's own:
//! `MS1|vendor|value|id|cust|expires|props|cert`, in version 2 with `MS2`.
//!
//! No call of this crate takes memory.
#![tactic(auto)]

mod id;
mod law;
mod name;
mod piece;
mod props;
mod read;
mod scrip_ref;
mod scrip_text;
mod secrets;
mod small_text;
mod target;
mod terms;
mod write;

pub use id::Id;
pub use law::{
    no_scrip_text_begins_another, scrip_of_tells_the_text, scrip_text_is_of_one_piece,
    scrip_text_tells_its_version,
};
pub use name::{Name, NameRule, read_name};
pub use piece::Piece;
pub use props::{Props, PropsRule};
pub use read::{FormFault, is_scrip, read_scrip};
pub use scrip_ref::ScripRef;
pub use scrip_text::ScripText;
pub use secrets::Secrets;
pub use small_text::with_zeros;
pub use target::{Target, TargetRule};
pub use terms::Terms;
pub use write::{digits_of_id, write_body, write_scrip};
