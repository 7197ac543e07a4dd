//! The top of the program: what its words name, and what it does by them over the outside.
#![tactic(auto)]

mod at_door;
mod named;
mod naming;
mod program;
mod proxying;
mod serving;
mod wallet;
mod whole_link;

pub use at_door::{MOST_ANSWER, run_at_door};
pub use named::Places;
pub use naming::places;
pub use program::{Ran, run};
pub use proxying::{proxy_words_are_of_no_row, run_proxy};
pub use whole_link::once;
