//! What a person is told on standard error beside a command's own line: why a book, a disk or a link failed, what is wrong with
//! words and with lines of the input, what a reply said and was not taken of it, what a refusal means and what to do, which book
//! of an audit it is, a clock that is not the book's, draws that wait, which commands came at a door.
//!
//! Nothing that a command does depends on it.
#![tactic(auto)]

mod advice;
mod audited;
mod clock_gap;
mod door_log;
mod endings;
mod entered;
mod entries;
mod input_faults;
mod open_faults;
mod pending_draws;
mod refusals;
mod settling;
mod spans;
mod stops;
mod texts;
mod wrong_words;

pub use audited::tell_audit;
pub use clock_gap::{tell_ahead, tell_behind};
pub use door_log::DoorLog;
pub use endings::{tell_clear, tell_fault};
pub use entered::tell_entered;
pub use entries::{Survey, survey_of};
pub use input_faults::tell_bad_line;
pub use open_faults::{tell_disk_fault, tell_unopened};
pub use pending_draws::tell_pending_draws;
pub use refusals::{tell_other_role, tell_refusal};
pub use settling::tell_reply;
pub use texts::word;
pub use wrong_words::tell_usage;
