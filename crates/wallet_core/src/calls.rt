//! What a wallet takes, asks and settles.

ghost use Rattle.std.specs.Prelude.{◌≡◌, ◌<◌, ℕ, Ok, Some, IfOk, IfErr};
ghost use Rattle.mc_records.specs.Entry.{Entry};
ghost use Rattle.ledger_model.specs.Histories.{History};
ghost use Rattle.wallet_model.specs.Asks.{get, chosen, pend_entry};
ghost use Rattle.wallet_model.specs.Follows.{WalletFollows};
ghost use Rattle.wallet_model.specs.Requests.{Pending};
ghost use Rattle.wallet_model.specs.Settling.{check_of, settlement};
ghost use Rattle.reply_reader.specs.Seen.{received_of};
ghost use Rattle.wallet_book.specs.Choosing.{Chooses};
ghost use Rattle.wallet_book.specs.Kept.{kept_in};
ghost use Rattle.wallet_core.specs.Asks.{asking_of, HasAmounts, PaysAt, pend_with_entry};
ghost use Rattle.wallet_core.specs.Requests.{pending_view, pend_of};
ghost use Rattle.wallet_core.specs.Settled.{IsSettledAs};
ghost use Rattle.wallet_core.specs.Taking.{take_entry};
ghost use Rattle.wallet_core.specs.Wallet.{WalletStands};
ghost use Rattle.wallet_core.specs.Outcomes.{HandsBack, Performs, PerformsAfterMemory};
ghost use Rattle.wallet_core.specs.Answers.{TellsNumber, TellsCount, TellsOnly, Any, IsFull, MayTake, MayPend, MayCheck};
ghost use Rattle.wallet_core.specs.Checking.{Checks, IsWritten};

use crate::asking::paying_from;
use crate::came::Came;
use crate::checked::{Checked, has_its_piece};
use crate::checking::check_came;
use crate::outcome::WalletOut;
use crate::settling::{settled_as, settled_entry};
use crate::wallet::Wallet;
use crate::{
    Ask, Settlement, TakeFault, WalletRequest, kept_request, pend_record, put_request, request_for,
    request_with, take_pieces, taken_list,
};
use mc_outside::Disk;
use mc_records::Record;
use mc_requests::Refusal;
use reply_reader::ReplyRef;
use scrip_form::{Name, Target};

impl<D: Disk> Wallet<D> {
    /// Takes the pieces of 1 to 256 piece lines at the wallet's time, by one Got entry. Answers how many they are.
    ///
    /// Refused with 53 `BadInput` and the first line that is no piece line, 0 where there are none, and 257 where more
    /// bytes follow behind 256 right lines. Then with 61 `TwiceHeld` and the identity of the first piece that came
    /// before, whatever its state, or that stands twice in these lines, by vendor and identity. Then with 33
    /// `JournalFull`. The pieces are read into memory before they are judged, so want of it may come first.
    pub fn take(self, lines: &[u8]) -> WalletOut<D, u16>
        ensures back { HandsBack D.disk D.disk_moved self result }
        ensures exact { (h : History) → WalletStands D.disk self h
            → PerformsAfterMemory D.disk self h (take_entry h self.book.time lines.now) TellsCount result }
        ensures refused { TellsOnly MayTake Any result }
    {
        match take_pieces(self.alloc, &self.book, lines) {
            Ok(elements) => {
                let pieces = taken_list(elements.slice());
                let record = Record::Got {
                    moment: self.book.time(),
                    pieces,
                };
                self.enter(&record, pieces.count())
            }
            Err(TakeFault::Refused(refusal)) => WalletOut::Refused(self, refusal),
            Err(TakeFault::NoMemory) => WalletOut::NoMemory(self),
        }
    }

    /// Enters the request of what is asked at the wallet's time, with the piece that `choose` names; a draw pays with
    /// none. Answers the number of the Pend entry. Amounts are at least 1 unit, and an order is 1 to 2^40.
    ///
    /// Refused with 62 `NoFunds` and the greatest value of the held pieces of the house that are not expired, 0 where
    /// there are none, where no such piece covers the limit. Then with 33 `JournalFull`. Only then memory is taken, so
    /// neither is told as want of it.
    pub fn pend(self, ask: &Ask) -> WalletOut<D, u64>
        requires { HasAmounts ask.now }
        ensures back { HandsBack D.disk D.disk_moved self result }
        ensures exact { (h : History) → WalletStands D.disk self h
            → Performs D.disk self h (pend_entry h self.book.time (asking_of ask.now)) (TellsNumber h) result }
        ensures refused { TellsOnly MayPend Any result }
    {
        match request_for(&self.book, ask) {
            Ok(request) => self.keep(&request),
            Err(refusal) => WalletOut::Refused(self, refusal),
        }
    }

    /// Enters the request of a get at the wallet's time, with the piece of the place that `choose` named for it, so that it is not
    /// chosen once more. Answers the number of the Pend entry. It is refused as `pend` is.
    pub fn pend_chosen(self, place: usize, vendor: &Name, target: &Target) -> WalletOut<D, u64>
        requires chosen { (h : History) → WalletStands D.disk self h
            → (limit : ℕ) × Chooses (chosen h self.book.time vendor.now limit) (Ok place) }
        ensures back { HandsBack D.disk D.disk_moved self result }
        ensures exact { (h : History) (limit : ℕ) → WalletStands D.disk self h
            → Chooses (chosen h self.book.time vendor.now limit) (Ok place)
            → Performs D.disk self h (pend_entry h self.book.time (get vendor.now target.now limit)) (TellsNumber h) result }
        ensures refused { TellsOnly MayPend Any result }
    {
        match paying_from(&self.book, place, 0, vendor, target) {
            Ok(request) => self.keep(&request),
            Err(none) => WalletOut::Refused(self, none),
        }
    }

    /// Enters the request of a get or a buy at the wallet's time, with the piece of a place among the holdings, which
    /// is held, not expired and of the house that is asked. Answers the number of the Pend entry. It is refused only
    /// with 33 `JournalFull`.
    pub fn pend_with(self, place: usize, ask: &Ask) -> WalletOut<D, u64>
        requires amounts { HasAmounts ask.now }
        requires pays { PaysAt self.book place ask.now }
        ensures back { HandsBack D.disk D.disk_moved self result }
        ensures exact { (h : History) → WalletStands D.disk self h
            → (e : Entry) × (pend_with_entry h self.book.time place (asking_of ask.now) ≡ Some e)
            × Performs D.disk self h (Ok e) (TellsNumber h) result }
        ensures refused { TellsOnly IsFull Any result }
    {
        let request = request_with(&self.book, place, ask);
        self.keep(&request)
    }

    /// Enters a request at the wallet's time, and answers the number of its entry.
    fn keep(self, request: &WalletRequest) -> WalletOut<D, u64>
        requires ask { request.now.ask < 3 }
        requires may { (h : History) → WalletStands D.disk self h
            → WalletFollows h (pend_of self.book.time (pending_view request.now)) }
        ensures back { HandsBack D.disk D.disk_moved self result }
        ensures exact { (h : History) → WalletStands D.disk self h
            → Performs D.disk self h (Ok (pend_of self.book.time (pending_view request.now))) (TellsNumber h) result }
        ensures refused { TellsOnly IsFull Any result }
    {
        let number = self.book.count();
        let record = pend_record(self.book.time(), request);
        self.enter(&record, number)
    }

    /// Writes the bytes of the request of a number to the front of `out`, and answers how many there are; None exactly
    /// where the number is not that of a kept request. It takes no memory.
    pub fn request_bytes(&self, number: u64, out: &mut [u8; 2048]) -> Option<usize>
        ensures { (h : History) → WalletStands D.disk self.now h
            → IsWritten (kept_in h number) out.new result }
    {
        match kept_request(&self.book, number) {
            Some(request) => Some(put_request(&request, out)),
            None => None,
        }
    }

    /// Whether a reply settles the kept request of a number: `Err` is 65 `BadReply` where its values are not those that
    /// the request may get, or 66 `Unproved` where it is not signed under the request's secret. Of a request that is
    /// not kept nothing is said. It takes no memory.
    pub fn check_reply<'r>(&self, number: u64, r: &ReplyRef<'r>) -> Result<Checked<'r>, Refusal>
        ensures exact { (h : History) (p : Pending) → WalletStands D.disk self.now h → kept_in h number ≡ Some p
            → Checks (check_of p (received_of r.now)) number p (received_of r.now) result }
        ensures reply { IfOk result (λ c. c.reply ≡ received_of r.now) }
        ensures refused { IfErr result MayCheck }
    {
        let request = match kept_request(&self.book, number) {
            Some(request) => request,
            None => return Err(Refusal::BadReply),
        };
        // A kept request that is no draw pays with a piece.
        if !has_its_piece(&request) {
            return Err(Refusal::BadReply);
        }
        let came = Came::of(request.ask, r);
        match check_came(&request, &came) {
            None => Ok(Checked {
                number,
                request,
                came,
            }),
            Some(refusal) => Err(refusal),
        }
    }

    /// Enters the settlement of a kept request by a reply that `check_reply` of this wallet checked, at the wallet's
    /// time: a Done entry, or a Refused one. Answers how it was settled. It is refused only with 33 `JournalFull`.
    pub fn settle_reply(self, c: Checked<'_>) -> WalletOut<D, Settlement>
        requires kept { (h : History) → WalletStands D.disk self h
            → kept_in h c.number ≡ Some c.request }
        ensures back { HandsBack D.disk D.disk_moved self result }
        ensures exact { (h : History) → WalletStands D.disk self h
            → Performs D.disk self h (Ok (settlement h self.book.time c.entry.number c.entry.request c.entry.reply)) (λ e s. IsSettledAs c.entry.request c.entry.reply s) result }
        ensures told { TellsOnly IsFull (λ s. IsSettledAs c.entry.request c.entry.reply s) result }
    {
        let Checked {
            number,
            request,
            came,
        } = c;
        let moment = self.book.time();
        let _seconds = moment.seconds();
        let settled = settled_as(&request, &came);
        let record = settled_entry(&self.book, moment, number, &request, &came);
        self.enter(&record, settled)
    }
}
