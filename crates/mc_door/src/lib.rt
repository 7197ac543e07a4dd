//! Where a program's links come from, and the door of a site: connections that are open at once, of which one
//! after another becomes the standing link, the first whose request was whole first; or one connection that is
//! made to a peer; or one made anew for each link. At a site's second place, its operator's door, each command is a link.
//!
//! What is proved of it is small: it is safe, each call gives and takes no more bytes than it is handed, the connections that
//! are ready stand in a queue, and a command ends where it says. That sockets do what they say is trusted.
#![tactic(auto)]

mod caller;
mod callers;
mod calling;
mod commands;
mod connection;
mod connections;
mod door;
mod framing;
mod listener;
mod path_caller;
mod socket;
mod source;

pub use caller::{Caller, call};
pub use callers::{Callers, call_each};
pub use framing::{Whole, whole_command};
pub use listener::{Listener, listen};
pub use path_caller::{PathCaller, call_path};
pub use source::Source;
