//! What is asked of a wallet.

use mc_base::Amount;
use scrip_form::{Name, Target};

/// What is asked: goods of a vendor; scrip of a vendor, for scrip of a broker; or scrip of a broker out of an
/// account, under its key and an order. A limit is the least that the piece that pays is worth: it chooses the piece,
/// and does not cap the price. Amounts are at least 1 unit, and an order is 1 to 2^40.
#[derive(Clone, Copy, Drop)]
pub enum Ask {
    Get {
        vendor: Name,
        target: Target,
        limit: Amount,
    },
    Buy {
        broker: Name,
        vendor: Name,
        amount: Amount,
        limit: Amount,
    },
    Draw {
        broker: Name,
        account: Name,
        key: [u8; 16],
        order: u64,
        amount: Amount,
    },
}
