//! Serving the book of a site that has a door for its operator.
#![tactic(auto)]

mod broker;
mod law;
mod serving;
mod vendor;

pub use broker::DeskDoor;
pub use law::{a_door_does_what_a_command_does, door_answers_are_read};
pub use serving::serve_open_book;
pub use vendor::ShelfDoor;
