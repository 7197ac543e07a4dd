//! Switching the book of a wallet, so that its entries carry chains.

ghost use Rattle.mc_records.specs.Chains.{chain};
ghost use Rattle.std.specs.Prelude.{◌≡◌, length, IsSome};
ghost use Rattle.ledger_model.specs.Histories.{History};
ghost use Rattle.wallet_core.specs.Wallet.{WalletStands};
ghost use Rattle.wallet_core.specs.Outcomes.{HandsBack};
ghost use Rattle.wallet_core.specs.Answers.{TellsOnly, Any, IsFull};
ghost use Rattle.wallet_core.specs.Switching.{KnowsChain, Switches};

use crate::entering::room_for;
use crate::outcome::WalletOut;
use crate::wallet::Wallet;
use mc_outside::Disk;
use mc_records::Record;
use mc_requests::Refusal;
use scrip_journal::{Receipt, SWITCH_PAYLOAD, StageFault};

impl<D: Disk> Wallet<D> {
    /// Switches the book, where it was not: a Switch is entered of the wallet's time, which tells the chain of the
    /// entries before it, and those behind it carry theirs. None where one stands; it is refused only with 33
    /// `JournalFull`. The entries are read once more for their chain, where it is not known, but not where it is refused.
    /// The chain is known where it is done.
    pub fn switch(self) -> WalletOut<D, Option<Receipt>>
        ensures back { HandsBack D.disk D.disk_moved self result }
        ensures exact { (h : History) → WalletStands D.disk self h → Switches D.disk self h result }
        ensures refused { TellsOnly IsFull Any result }
        ensures known { KnowsChain result }
    {
        if self.journal.is_switched() {
            return WalletOut::Done(self, None);
        }
        match room_for(&self.book, SWITCH_PAYLOAD) {
            Ok(()) => (),
            Err(full) => return WalletOut::Refused(self, full),
        }
        let Wallet {
            alloc,
            journal,
            mut book,
        } = self;
        let moment = book.time();
        let (journal, receipt, chain) = match journal.append_switch(moment) {
            Ok(switched) => switched,
            // It fits, so this comes only where the wallet stands for no history.
            Err(StageFault::Full(journal)) => {
                let full = Refusal::JournalFull(book.size(), SWITCH_PAYLOAD);
                return WalletOut::Refused(
                    Wallet {
                        alloc,
                        journal,
                        book,
                    },
                    full,
                );
            }
            Err(StageFault::Disk(halted)) => return WalletOut::Halted(halted),
        };
        // It may follow, so it is learned wherever the wallet stands for a history.
        let _learned = book.learn(&Record::Switch { moment, chain });
        WalletOut::Done(
            Wallet {
                alloc,
                journal,
                book,
            },
            Some(receipt),
        )
    }

    /// How many entries its book has.
    pub fn entries(&self) -> u64
        ensures { (h : History) → WalletStands D.disk self.now h → result ≡ length h }
    {
        self.journal.entries()
    }

    /// The chain of the entries of its book, where it is known, as behind `switch`.
    pub fn chain(&self) -> [u8; 32]
        requires { IsSome self.now.journal.chain }
        ensures { (h : History) → WalletStands D.disk self.now h → result ≡ chain h }
    {
        self.journal.chain().unwrap()
    }
}
