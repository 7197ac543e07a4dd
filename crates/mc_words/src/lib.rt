//! The words of the program: which command they are of, and which word of bad words is wrong.
//!
//! The table of the commands stands in `command_table`, and the values of each in `site_words` and `wallet_words`.
#![tactic(auto)]

mod command;
mod law;
mod wrong;

pub use command::{Command, command_of};
pub use law::words_are_of_one_command;
pub use wrong::{WrongWord, wrong_word};
