//! What every crate of Millicent counts with: amounts of money, coins and their sums, moments, and
//! lists that contracts see as their elements. No call of this crate takes memory.
#![tactic(auto)]

mod amount;
mod coin;
mod list;
mod moment;
mod no_memory;
mod total;

pub use amount::Amount;
pub use coin::Coin;
pub use list::List;
pub use moment::Moment;
pub use no_memory::NoMemory;
pub use total::Total;
