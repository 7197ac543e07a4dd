//! Opening a book: its entries are read one by one, and learned by whoever opens it, as a house, as a
//! wallet or to audit it. `open_book` takes memory, and so may `begin` and `learn` of an opener.
#![tactic(auto)]

mod opener;
mod opening;

pub use opener::Opener;
pub use opening::open_book;
