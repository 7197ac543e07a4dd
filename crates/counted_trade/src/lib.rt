//! A trade that counts beside an inner one what the settlement of licensed scrip needs.
#![tactic(auto)]

mod counted;
mod counts;
mod judging;
mod licences;
mod notes;
mod noting;
mod paying;
mod sales;
mod series_sums;
mod stating;

pub use counted::Counted;
pub use counts::Counts;
pub use paying::pay_statement;
pub use sales::put_key;
pub use series_sums::SeriesSums;
pub use stating::state_series;
