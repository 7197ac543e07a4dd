ghost use Rattle.std.specs.Prelude.{◌≡◌, ◌↔◌, IsTrue};
ghost use Rattle.ledger_model.specs.Houses.{IsHouseKind};
ghost use Rattle.house_state.specs.Views.{kind_number};

use kept_replies::Deed;
use ledger_model::{BROKER_KIND, VENDOR_KIND};
use mc_base::Amount;
use scrip_form::Name;

/// What a site is. A Site entry has the kind as a number: 0 for a vendor, 1 for a broker, 2 for a
/// wallet, which is no house.
#[derive(Clone, Copy, Debug, PartialEq, Eq)]
pub enum SiteKind {
    Vendor,
    Broker,
    Wallet,
}

impl SiteKind {
    /// The number of the kind, as Site entries have it.
    pub fn number(self) -> u8
        ensures { result ≡ kind_number self }
    {
        match self {
            SiteKind::Vendor => VENDOR_KIND,
            SiteKind::Broker => BROKER_KIND,
            SiteKind::Wallet => 2,
        }
    }

    /// Whether a site of the kind is a house: a vendor or a broker.
    pub fn is_house(self) -> bool
        ensures { IsTrue result ↔ IsHouseKind (kind_number self) }
    {
        match self {
            SiteKind::Vendor | SiteKind::Broker => true,
            SiteKind::Wallet => false,
        }
    }
}

/// What is given for a piece: its price in units, and the deed by which the reply is found again.
#[derive(Clone, Copy, Drop)]
pub struct Offer {
    pub price: u64,
    pub deed: Deed,
}

/// A draw that a target asks for, with what is known of its account.
#[derive(Clone, Copy, Drop)]
pub struct DrawAsk {
    pub account: Name,
    /// The number of the order, which has to be above the last one.
    pub order: u64,
    pub amount: Amount,
    /// The key of the account; None where there is no such account.
    pub key: Option<[u8; 16]>,
    /// The last order of the account, 0 where there was none.
    pub last: u64,
    pub balance: u64,
}

/// What a reply brings: the kind of its contents, below 3, and their bytes.
#[derive(Clone, Copy, Drop)]
pub struct Body<'a> {
    pub kind: u8,
    pub bytes: &'a [u8],
}

/// The entry may not follow those before it.
#[derive(Clone, Copy, Debug, PartialEq, Eq)]
pub struct Unlawful;
