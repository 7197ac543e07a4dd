//! Adding an entry to a wallet's book.

ghost use Rattle.std.specs.Prelude.{◌≡◌, length, Ok, IfErr};
ghost use Rattle.mc_records.specs.Entry.{Entry, Fits, moment_of, payload};
ghost use Rattle.mc_records.specs.Views.{entry};
ghost use Rattle.ledger_model.specs.Histories.{History};
ghost use Rattle.ledger_model.specs.Answer.{fitted};
ghost use Rattle.wallet_model.specs.Follows.{WalletFollows};
ghost use Rattle.wallet_book.specs.Book.{WalletRepresents};
ghost use Rattle.wallet_core.specs.Wallet.{WalletStands};
ghost use Rattle.wallet_core.specs.Outcomes.{HandsBack, Performs};
ghost use Rattle.wallet_core.specs.Fitting.{IsFitted};
ghost use Rattle.wallet_core.specs.Answers.{TellsNumber, TellsOnly, Any, IsFull};

use crate::outcome::WalletOut;
use crate::wallet::Wallet;
use mc_base::NoMemory;
use mc_outside::Disk;
use mc_records::{Record, grown_size};
use mc_requests::Refusal;
use scrip_journal::{Receipt, StageFault};
use wallet_book::WalletBook;

impl<D: Disk> Wallet<D> {
    /// Adds an entry of the wallet's time that may follow its book, and answers what is to be told then. It is refused
    /// only where the journal has no room for it, with 33 `JournalFull`.
    pub(crate) fn enter<A: Copy>(self, r: &Record<'_>, answer: A) -> WalletOut<D, A>
        requires fits { Fits (entry r.now) }
        requires now { moment_of (entry r.now) ≡ self.book.time }
        requires may { (h : History) → WalletStands D.disk self h → WalletFollows h (entry r.now) }
        ensures back { HandsBack D.disk D.disk_moved self result }
        ensures exact { (h : History) → WalletStands D.disk self h
            → Performs D.disk self h (Ok (entry r.now)) (λ e a. a ≡ answer) result }
        ensures told { TellsOnly IsFull (λ a. a ≡ answer) result }
    {
        match self.add(r) {
            WalletOut::Done(wallet, _receipt) => WalletOut::Done(wallet, answer),
            WalletOut::Refused(wallet, full) => WalletOut::Refused(wallet, full),
            WalletOut::NoMemory(wallet) => WalletOut::NoMemory(wallet),
            WalletOut::Halted(halted) => WalletOut::Halted(halted),
        }
    }

    /// Adds an entry of the wallet's time that may follow its book, and answers its receipt: the entry is on the disk
    /// behind an open gate, and then it is learned. All memory is taken before anything is written. It is refused only
    /// where the journal has no room for it, with 33 `JournalFull`.
    pub(crate) fn add(self, r: &Record<'_>) -> WalletOut<D, Receipt>
        requires fits { Fits (entry r.now) }
        requires now { moment_of (entry r.now) ≡ self.book.time }
        requires may { (h : History) → WalletStands D.disk self h → WalletFollows h (entry r.now) }
        ensures back { HandsBack D.disk D.disk_moved self result }
        ensures exact { (h : History) → WalletStands D.disk self h
            → Performs D.disk self h (Ok (entry r.now)) (TellsNumber h) result }
        ensures told { TellsOnly IsFull Any result }
    {
        let mut wallet = self;
        let bytes = r.payload_len();
        match room_for(&wallet.book, bytes) {
            Ok(()) => (),
            Err(full) => return WalletOut::Refused(wallet, full),
        }
        match wallet.book.reserve(r) {
            Ok(()) => (),
            Err(NoMemory) => return WalletOut::NoMemory(wallet),
        }
        let Wallet {
            alloc,
            journal,
            mut book,
        } = wallet;
        match journal.append(r) {
            Ok((journal, receipt)) => {
                // It may follow, so it is learned wherever the wallet stands for a history.
                let _learned = book.learn(r);
                WalletOut::Done(
                    Wallet {
                        alloc,
                        journal,
                        book,
                    },
                    receipt,
                )
            }
            // It fits, so this comes only where the wallet stands for no history.
            Err(StageFault::Full(journal)) => {
                let full = Refusal::JournalFull(book.size(), bytes);
                WalletOut::Refused(
                    Wallet {
                        alloc,
                        journal,
                        book,
                    },
                    full,
                )
            }
            Err(StageFault::Disk(halted)) => WalletOut::Halted(halted),
        }
    }
}

/// Refused with 33 `JournalFull` where a book's journal would pass its limit with one entry more, with a payload of so
/// many bytes.
pub(crate) fn room_for(book: &WalletBook, bytes: u64) -> Result<(), Refusal>
    ensures fitted { (h : History) (e : Entry) → WalletRepresents book.now h → bytes ≡ length (payload e)
        → IsFitted (fitted h book.now.limits e) e result }
    ensures refused { IfErr result IsFull }
{
    let limit = book.limits().journal;
    match grown_size(book.size(), bytes, book.is_switched(), limit) {
        Ok(_size) => Ok(()),
        Err(full) => Err(full),
    }
}
