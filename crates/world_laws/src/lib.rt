//! What the program's houses and wallets do over disks and links, as events of a schedule of `world_model`: laws over
//! the public clauses of serving links, of an operator's commands at the door of a site, and of a wallet's commands.
#![tactic(auto)]

mod doors;
mod links;
mod requests;
mod runs;
mod wires;

pub use doors::{
    commands_are_entered, links_of_a_door_are_played, links_of_a_door_lead,
    serving_with_a_door_is_a_run,
};
pub use links::{served_links_are_delivered, served_links_lead};
pub use requests::paying_is_asking_and_taking;
pub use runs::{paying_is_a_run, serving_is_a_run};
pub use wires::a_retry_settles;
