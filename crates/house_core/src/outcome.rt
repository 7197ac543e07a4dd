use crate::house::House;
use crate::settled::Settled;
use kept_replies::KeptNumber;
use mc_requests::Refusal;
use scrip_journal::Halted;

/// What a house answers a request that it does not refuse.
pub enum Response {
    /// The request is new: what says that its entry is on the disk.
    New(Settled),
    /// It comes again: the number of the entry whose first reply it gets.
    Again(KeptNumber),
}

/// What comes of a call of a house that may write an entry. Each but the last hands the house back.
pub enum Outcome<D, T, A> {
    /// The entry is on the disk, and is entered; or a request comes again, and nothing is changed.
    Done(House<D, T>, A),
    /// The request or the entry is refused. Nothing is changed.
    Refused(House<D, T>, Refusal),
    /// Memory was refused. Nothing is changed.
    NoMemory(House<D, T>),
    /// The disk failed while the entry was written, which is in doubt.
    Halted(Halted<D>),
}
