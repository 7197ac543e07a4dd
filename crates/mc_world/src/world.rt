//! What a schedule leaves.

use ledger_model::History;
use std::vec::Vec;

/// The histories of houses and wallets, and all messages and replies that were ever sent. It is a plain record that
/// anyone may make: nothing binds its parts but what is said of a schedule that left them.
#[derive(Drop)]
pub struct World {
    pub houses: Vec<History>,
    pub wallets: Vec<History>,
    /// In the order in which they were sent.
    pub messages: Vec<Vec<u8>>,
    /// Each to one whole link.
    pub replies: Vec<Vec<u8>>,
}
