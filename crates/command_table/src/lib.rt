//! The table of the program's commands: the role, the name and the parameters of each, what `clap` finds in the words of
//! one, and the readers of the values of parameters.
//!
//! The values of each command are a type of a crate above, made of what these readers give. Whether a book is there, or is
//! one, is no matter of this crate.
#![tactic(auto)]

mod address;
mod beginning;
mod books;
mod contents;
mod may;
mod parameter;
mod place;
mod reading;
mod secrets;
mod table;
mod unfit;
mod usage;
mod value;
mod within;

pub use address::{MOST_HOST, MOST_PORT, MOST_SOCKET};
pub use beginning::may_begin;
pub use books::{Books, books_in};
pub use contents::Contents;
pub use parameter::{
    LEAST_KEPT, LEAST_PERIOD, MOST_EPOCH, MOST_HEADS, MOST_ISSUER, MOST_KEPT, MOST_KIND,
    MOST_LINKS, MOST_MINTED, MOST_SECONDS, Parameter, Shape, Sort,
};
pub use place::Place;
pub use reading::{
    connect_in, contents_in, flag_in, listen_in, name_in, number_in, place_in, secret_in,
    secrets_in, setting_in, socket_in, target_in,
};
pub use secrets::{reads_secrets, secrets_of};
pub use table::{COMMANDS, CommandName, named, read_command};
pub use unfit::unfit_parameter;
pub use usage::{Usage, usage_of};
pub use value::{MOST_NUMBER, number_from};
pub use within::{
    AnyIssuer, Before, Count, Epoch, Fee, Heads, Issuer, Keep, Kind, Life, Links, Period, Sum,
    Within,
};
