//! The sums of books, as an audit reports them.

use mc_base::List;
use scrip_form::Name;

/// The sums of the books of a broker and of vendors, in units.
#[derive(Drop)]
pub struct Sums {
    /// The amounts of the broker's deposits.
    pub paid_in: u128,
    /// Those of its withdrawals.
    pub paid_out: u128,
    /// The balances of all its accounts.
    pub accounts: u128,
    /// Its fees: one for each sale.
    pub fees: u128,
    /// The values of its own pieces that were handed out and did not come back, and whose end is after the
    /// broker's time.
    pub outstanding: u128,
    /// Those of the ones that have ended.
    pub lapsed: u128,
    /// The sums of the vendors.
    pub vendors: List<VendorSums>,
}

/// The sums of a vendor's book beside a broker's, in units.
#[derive(Drop)]
pub struct VendorSums {
    /// The name of the vendor's site.
    pub name: Name,
    /// The prices of what it accepted pieces for.
    pub takings: u128,
    /// The values of its pieces that were handed out, by the broker or as its change, and did not come back,
    /// and whose end is after the vendor's time.
    pub outstanding: u128,
    /// Those of the ones that have ended.
    pub lapsed: u128,
}

/// What an audit finds of the books of a broker and of vendors that balance.
#[derive(Drop)]
pub struct Report {
    /// The name of the broker's site.
    pub broker: Name,
    /// The sums, with the vendors in the order of their names.
    pub sums: Sums,
}
