//! What a broker's operator has done, as commands over the house of a broker's book.
#![tactic(auto)]

mod account;
mod answer;
mod balance;
mod licence;
mod lines;
mod list;
mod operation;
mod payment;
mod status;
mod stock;
mod upgrade;

pub use operation::DeskOperation;
