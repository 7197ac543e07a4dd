//! What the program has outside of it: a book in a file, links from a source, a writer for what is said, and a clock
//! ([`Site`]). Links come over a reader and a writer ([`Streams`]), or over another source while it is watched whether the
//! book's name still leads to it ([`Watched`]); what passed through can be kept ([`Passed`]). A reading of the book that takes
//! long is shown ([`Progress`]).
//!
//! Nothing is told of the bytes: that the system gives, takes and keeps them is trusted.
#![tactic(auto)]

mod book;
mod faults;
mod passed;
mod progress;
mod site;
mod streams;
mod watched;

pub use book::{Book, EarlyEnd, cause_of};
pub use passed::Passed;
pub use progress::{Metered, Progress, Wiping};
pub use site::{Site, reading};
pub use streams::Streams;
pub use watched::Watched;
