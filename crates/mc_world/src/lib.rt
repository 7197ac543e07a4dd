//! Houses and wallets that play by a schedule of events: what the definitions of `world_model` say, carried out by the
//! program's own houses and wallets.
#![tactic(auto)]

mod entering;
mod event;
mod game;
mod house;
mod schedule;
mod shop;
mod wallet;
mod world;

pub use event::{Event, Setup};
pub use schedule::play;
pub use world::World;
