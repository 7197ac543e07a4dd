//! Why books are not reported.

use scrip_form::{Id, Name};

/// Why books of which all was learned are not reported.
#[derive(Clone, Copy, Drop)]
pub enum BooksFault {
    /// There is not one broker's book, or two vendors share a name.
    BadBooks,
    /// The broker sold of this vendor, whose book is not there: of several the least name.
    MissingBook { name: Name },
    /// A piece of this identity was accepted and not handed out with its value, or was sold out of stock and not minted by
    /// its vendor: the first by book, then by entry. The book is told by its place in the list, from 0, and the name is
    /// that of its site.
    Stranger { book: usize, name: Name, id: Id },
    /// Memory was refused.
    NoMemory,
}
