//! What is said between a house and those who ask it: requests and what they ask of a broker, refusals with
//! their numbers and texts, and the bytes of a reply as a function of its values. And the limits that a
//! house may grow to, which some refusals tell.
//!
//! No call of this crate takes memory.
#![tactic(auto)]

mod date_law;
mod errand;
mod errand_law;
mod errand_reading;
mod errand_writing;
mod limits;
mod refusal;
mod refusal_text;
mod request;

pub use date_law::date_of_its_second;
pub use errand::Errand;
pub use errand_law::errands_are_texts;
pub use errand_reading::read_errand;
pub use errand_writing::{buy_target, draw_target};
pub use limits::Limits;
pub use refusal::Refusal;
pub use refusal_text::{MOST_REFUSAL_BYTES, put_refusal_text};
pub use request::Request;
