//! Fields of texts: readers from the front of some bytes, with the exact place of a fault, and
//! writers at a place of a buffer.
//!
//! A format is a sequence of fields: fixed bytes, numbers, texts up to a byte that stops them, and
//! bytes as hex digits. Each reader gives what it read and the bytes after it, or how many bytes are
//! left at the first byte that goes on as no such field does. So a reader of a whole format is its
//! fields' readers joined by `?`, and the fault of a field is the fault of the whole.
//!
//! Only the calls that append to a vector take memory.
#![tactic(auto)]

mod appending;
mod binary;
mod cutting;
mod digits;
mod literal;
mod number;
mod room;
mod stuck;
mod text;
mod writing;

pub use appending::{append_both, append_each};
pub use binary::{
    read_counted, read_flag, read_key, read_plain, read_str, read_u8, read_u16, read_u32, read_u64,
};
pub use cutting::cut;
pub use digits::read_hex;
pub use literal::read_literal;
pub use number::{number_of, read_number};
pub use room::{put_both_if_room, put_each_if_room, put_if_room};
pub use stuck::Stuck;
pub use text::{TextRule, is_text, read_text};
pub use writing::{put, put_number};
