use crate::wallet::Wallet;
use mc_requests::Refusal;
use scrip_journal::Halted;

/// What comes of a call of a wallet that may write an entry. Each but the last hands the wallet back.
pub enum WalletOut<D, A> {
    /// The entry is on the disk, and is learned.
    Done(Wallet<D>, A),
    /// The entry is refused. Nothing is changed.
    Refused(Wallet<D>, Refusal),
    /// Memory was refused. Nothing is changed.
    NoMemory(Wallet<D>),
    /// The disk failed while the entry was written, which is in doubt.
    Halted(Halted<D>),
}
