//! Serving links by a house: each item that comes on a link is answered, in order, by a house in memory or
//! over a journal.
//!
//! Only the reader of heads takes memory before the first link, and a house to accept a request.
#![tactic(auto)]

mod house_turn;
mod links;
mod serving;
mod turn;
mod whole;

pub use links::{ServeOut, serve_link, serve_links};
pub use serving::{BenchEnd, serve_bench, serve_bench_by};
pub use whole::reply_to_link;
