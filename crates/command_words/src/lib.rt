//! The words of a command, read by `clap`: its arguments are told as a list of what tells an [`Argument`], and
//! [`read_words`] gives what it finds in the words, or says that `clap` doesn't take them.
//!
//! Options may stand before, between and behind the positional arguments. There is no help, no
//! version and no subcommand: `--help` and `-h` are words that are not taken.
#![tactic(auto)]

mod argument;
mod found;
mod reading;

pub use argument::{Argument, AsArgument};
pub use found::Found;
pub use reading::{read_beginning, read_words};
