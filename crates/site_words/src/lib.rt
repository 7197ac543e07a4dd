//! The values that the words of the commands of a site spell: a vendor's and a broker's.
//!
//! What `clap` finds in the words is read by the readers of `command_table`.
#![tactic(auto)]

mod broker_operation;
mod founder;
mod looking;
mod operation;
mod secrets;
mod serving;
mod settlement;
mod shop;
mod switching;

pub use broker_operation::{
    BrokerOperation, Inquiry, LicenceUpgrading, Movement, Opening, Stocking, Taking,
};
pub use founder::{BrokerFounder, Founder, KEEP, VendorFounder};
pub use looking::Looking;
pub use operation::{Licensing, Listing, Minting, Operation, Pricing, Upgrading};
pub use secrets::SecretList;
pub use serving::{Playing, Server};
pub use settlement::{Settling, Stating};
pub use shop::{Shop, shop_of};
pub use switching::Switching;
