//! Why a line of a file of cases is not done.

use mc_base::NoMemory;
use std::alloc::{AllocError, AllocFailed};

/// Why a line is not done.
#[derive(Clone, Copy, Debug, PartialEq, Eq)]
pub enum Fault {
    /// The line has no verb of the language.
    Verb,
    /// The verb has other arguments.
    Arguments,
    /// An argument is no number, or one that is too great.
    Number,
    /// An argument spells no bytes.
    Bytes,
    /// No bytes were given this name, or it is none.
    Name,
    /// A range is none, or is past the end.
    Range,
    /// A value is outside of its range.
    Value,
    /// The book encodes no history.
    Book,
    /// The case has no such thing yet: a stage, a link, terms, an issuer, replies.
    Missing,
    /// What was read is written otherwise.
    Otherwise,
    /// The file does not end with the count of its cases.
    End,
    /// Memory was refused.
    NoMemory,
}

impl Fault {
    /// What is told of it.
    pub fn text(self) -> &'static str {
        match self {
            Fault::Verb => "an unknown verb",
            Fault::Arguments => "other arguments than the verb has",
            Fault::Number => "no number",
            Fault::Bytes => "no bytes",
            Fault::Name => "an unknown name",
            Fault::Range => "no range",
            Fault::Value => "a value outside of its range",
            Fault::Book => "a book that stands for no history",
            Fault::Missing => "something that the case does not have yet",
            Fault::Otherwise => "what was read is written otherwise",
            Fault::End => "a file that does not end with the count of its cases",
            Fault::NoMemory => "no memory",
        }
    }
}

impl From<NoMemory> for Fault {
    fn from(_: NoMemory) -> Fault {
        Fault::NoMemory
    }
}

impl From<AllocError> for Fault {
    fn from(_: AllocError) -> Fault {
        Fault::NoMemory
    }
}

impl<T: Drop> From<AllocFailed<T>> for Fault {
    fn from(_: AllocFailed<T>) -> Fault {
        Fault::NoMemory
    }
}
