//! What a schedule is made of.

use ledger_model::History;
use mc_requests::Limits;
use scrip_form::Name;
use wallet_core::Ask;

/// The histories that houses and wallets begin with, and the limits of all. Houses are vendors and brokers.
#[derive(Drop)]
pub struct Setup {
    pub houses: Vec<History>,
    pub wallets: Vec<History>,
    pub limits: Limits,
}

/// What happens in a schedule. Houses, wallets, messages, replies and requests go by numbers, from 0; parties are the
/// houses, and then the wallets. A reading is a clock's, in seconds since 1970. An event that names nothing that is
/// there changes nothing.
#[derive(Drop)]
pub enum Event {
    /// An operator's entry is entered, where it may follow and fits.
    Enter {
        house: u32,
        payload: Vec<u8>,
    },
    /// A wallet asks, and so sends a message.
    Ask {
        wallet: u32,
        ask: Ask,
        reading: u64,
    },
    /// A wallet sends its oldest kept request of a peer once more.
    Again {
        wallet: u32,
        peer: Name,
    },
    /// Somebody sends a message.
    Forge {
        bytes: Vec<u8>,
    },
    /// Somebody sends a reply.
    Tell {
        bytes: Vec<u8>,
    },
    /// A message reaches a house, as the bytes of one link, and the house's replies are one reply.
    Deliver {
        message: u32,
        house: u32,
        reading: u64,
    },
    /// A reply reaches a wallet's kept request.
    Return {
        reply: u32,
        wallet: u32,
        request: u64,
        reading: u64,
    },
    /// A party ends its run and begins the next one.
    Restart {
        party: u32,
    },
}
