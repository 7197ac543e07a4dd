/// Why a journal was not founded or opened. Each hands the disk back.
pub enum OpenFault<D> {
    /// The first eight bytes of the disk aren't those of a journal.
    NotJournal(D),
    /// The disk failed.
    Disk(D),
    /// Memory was refused.
    NoMemory(D),
}

/// Why the book of a house was not founded or opened. Each hands the disk back.
pub enum HouseFault<D> {
    /// The first eight bytes of the disk aren't those of a journal.
    NotJournal(D),
    /// The bytes from this place on can't stand in a journal.
    BadRecord(D, u64),
    /// The 32 bytes from this place on, which stand first here, are another chain than that of the entries up to
    /// there, which was computed.
    BadChain(D, u64, [u8; 32], [u8; 32]),
    /// The entry behind the gate at this place isn't lawful after those before it.
    Unlawful(D, u64),
    /// The book is that of a site of another kind.
    WrongKind(D),
    /// The book that was to be founded has so many bytes already, which don't encode the empty history.
    NotEmpty(D, u64),
    /// The disk failed.
    Disk(D),
    /// Memory was refused.
    NoMemory(D),
}

/// Why an entry of a book was not learned.
#[derive(Clone, Copy)]
pub enum LearnFault {
    /// It may not follow the entries before it.
    Unlawful,
    /// Memory was refused.
    NoMemory,
}
