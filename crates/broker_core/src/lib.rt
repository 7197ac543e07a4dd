//! A broker: the accounts of its customers, which draws and credits move money in, the scrip of vendors that it
//! sells, and what its operator enters.
#![tactic(auto)]

mod desk;
mod moves;
mod operator;
mod sale;
mod stock;

pub use desk::Desk;
pub use operator::{
    add_licence, add_stock, deposit, open_account, terms_to_move, upgrade_licence, withdraw,
};
