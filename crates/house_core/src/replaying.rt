//! How a house takes the entries of a history as they are read from a journal.

ghost use Rattle.std.specs.Prelude.{◌≡◌, ◌+◌, ◌≤◌, ◌↔◌, [], ◌∷◌, ◌++◌, length, Some, None, option_map, IsTrue, IfOk, MatchResult};
ghost use Rattle.mc_records.specs.Chains.{TellsChain};
ghost use Rattle.mc_records.specs.Entry.{Fits, Accept, Draw, moment_of, payload};
ghost use Rattle.mc_records.specs.Views.{deed_of, entry};
ghost use Rattle.mc_requests.specs.Requests.{asked_of};
ghost use Rattle.mc_records.specs.Sizes.{size, entry_size};
ghost use Rattle.ledger_model.specs.Histories.{History, time};
ghost use Rattle.ledger_model.specs.Lawful.{unbounded};
ghost use Rattle.hex.specs.Hex.{encode_lower};
ghost use Rattle.house_state.specs.Representation.{scrip_request};
ghost use Rattle.house_state.specs.Verdicts.{IsSaid, SaysDraw};
ghost use Rattle.house_state.specs.CommandEntries.{IsCommand};
ghost use Rattle.house_state.specs.HouseState.{size_with};
ghost use Rattle.house_core.specs.Bench.{Represents, HasContents, Follows, Replays, house_time, limits_of};
ghost use Rattle.house_core.specs.Spent.{spent_by, spent_in, spent_with};

use crate::bench::{Bench, record_deed};
use crate::spent::SpentPiece;
use house_state::{Authorized, Presented, Trade, Unlawful, evaluate, fitted};
use mc_base::NoMemory;
use mc_records::{Record, RecordDeed};
use mc_requests::{Limits, Request};
use scrip_certs::hex_of;
use scrip_form::Id;
use scrip_journal::LearnFault;

impl<T: Trade> Bench<T> {
    /// Enters an entry that accepts nothing, of the house time and with a payload of so many bytes, and
    /// answers its number. After an `Err` the house is as it was.
    pub(crate) fn follow(&mut self, r: &Record<'_>, bytes: u64) -> Result<u64, LearnFault>
        requires fits { Fits (entry r.now) }
        requires command { IsCommand (entry r.now) }
        requires time { moment_of (entry r.now) ≡ house_time self.old }
        requires len { bytes ≡ length (payload (entry r.now)) }
        requires room { size_with self.old.state bytes ≤ Limits.MOST_JOURNAL }
        ensures time { house_time self.new ≡ house_time self.old }
        ensures limits { limits_of self.new ≡ limits_of self.old }
        ensures exact { (h : History) → Represents T.trade self.old h
            → TellsChain h (entry r.now)
            → Follows T.trade T.passes self.new (limits_of self.old) h (entry r.now) result }
        ensures contents { (h : History) → Represents T.trade self.old h
            → HasContents T.trade self.old h
            → MatchResult result (λ n. HasContents T.trade self.new (h ++ entry r.now ∷ []))
            (λ f. HasContents T.trade self.new h) }
    {
        match self.room_for(r) {
            Ok(()) => (),
            Err(end) => return Err(end),
        }
        match self.apply_entry(r, bytes) {
            Ok(number) => Ok(number),
            Err(Unlawful) => Err(LearnFault::Unlawful),
        }
    }

    /// Learns the next entry of a history, as it is read from a journal, which told that a Switch has the chain
    /// of the entries before it. The house time is raised to the entry's moment. `Err` has `Unlawful` exactly
    /// where the entry may not follow those before it, or fails the trade's own test. The house's own limit of
    /// the journal is not asked: a book above it is lawful. `Ok` tells the piece that the entry spends, where it spends one.
    /// After an `Err` nothing is said of the house.
    pub fn replay(&mut self, r: &Record<'_>) -> Result<Option<SpentPiece>, LearnFault>
        requires fits { Fits (entry r.now) }
        ensures limits { limits_of self.new ≡ limits_of self.old }
        ensures exact { (h : History) → Represents T.trade self.old h → house_time self.old ≡ time h
            → TellsChain h (entry r.now)
            → size h + entry_size h (entry r.now) ≤ Limits.MOST_JOURNAL
            → Replays T.trade T.passes self.new (limits_of self.old) h (entry r.now) result }
        ensures contents { (h : History) → Represents T.trade self.old h
            → HasContents T.trade self.old h
            → IfOk result (λ u. HasContents T.trade self.new (h ++ entry r.now ∷ [])) }
        ensures spent { IfOk result (λ p. p ≡ spent_in (entry r.now)) }
    {
        let moment = r.moment();
        if moment.seconds() < self.state.time().seconds() {
            return Err(LearnFault::Unlawful);
        }
        self.raise(moment);
        match r {
            Record::Site { .. } => Err(LearnFault::Unlawful),
            Record::Draw {
                target,
                sign,
                drawn,
                ..
            } => {
                self.replay_draw(target, sign, *drawn)?;
                Ok(None)
            }
            Record::Accept {
                scrip,
                target,
                sign,
                price,
                change,
                deed,
                ..
            } => self.replay_accept(scrip, target, sign, *price, *change, deed),
            _ => {
                self.replay_command(r)?;
                Ok(None)
            }
        }
    }

    /// Learns the next entry of a history, which accepts nothing and is of the house time.
    fn replay_command(&mut self, r: &Record<'_>) -> Result<(), LearnFault>
        requires fits { Fits (entry r.now) }
        requires command { IsCommand (entry r.now) }
        requires time { moment_of (entry r.now) ≡ house_time self.old }
        ensures limits { limits_of self.new ≡ limits_of self.old }
        ensures exact { (h : History) → Represents T.trade self.old h
            → TellsChain h (entry r.now)
            → size h + entry_size h (entry r.now) ≤ Limits.MOST_JOURNAL
            → Replays T.trade T.passes self.new (limits_of self.old) h (entry r.now) result }
        ensures contents { (h : History) → Represents T.trade self.old h
            → HasContents T.trade self.old h
            → IfOk result (λ u. HasContents T.trade self.new (h ++ entry r.now ∷ [])) }
    {
        let bytes = r.payload_len();
        match fitted(&self.state, Limits::MOST_JOURNAL, bytes) {
            Ok(()) => (),
            Err(_) => return Err(LearnFault::Unlawful),
        }
        match self.follow(r, bytes) {
            Ok(_) => Ok(()),
            Err(end) => Err(end),
        }
    }

    /// Learns the next entry of a history, which accepts a piece at the house time. It may follow where it
    /// is what the house says to its request.
    fn replay_accept(
        &mut self,
        scrip: &[u8],
        target: &[u8],
        sign: &Option<[u8; 16]>,
        price: u64,
        change: Option<Id>,
        deed: &RecordDeed,
    ) -> Result<Option<SpentPiece>, LearnFault>
        ensures limits { limits_of self.new ≡ limits_of self.old }
        ensures exact { (h : History) → Represents T.trade self.old h
            → Replays T.trade T.passes self.new (limits_of self.old) h (Accept (house_time self.old) scrip.now target.now sign.now price change (deed_of deed.now)) result }
        ensures contents { (h : History) → Represents T.trade self.old h
            → HasContents T.trade self.old h
            → IfOk result
            (λ u. HasContents T.trade self.new (h ++ Accept (house_time self.old) scrip.now target.now sign.now price change (deed_of deed.now) ∷ [])) }
        ensures spent { IfOk result (λ p. p ≡ spent_by scrip.now) }
    {
        let digits = digits_of(sign);
        let q = Presented::of(request_for(scrip, target, &digits));
        let limits = unbounded_of(self.state.limits());
        let authorization = match evaluate(&self.state, limits, &self.trade, &q) {
            Ok(authorization) => authorization,
            Err(_) => return Err(LearnFault::Unlawful),
        };
        if !is_said(&authorization, sign, price, &change, deed) {
            return Err(LearnFault::Unlawful);
        }
        match self.commit(&q, &authorization) {
            Ok(_) => Ok(spent(&authorization)),
            Err(NoMemory) => Err(LearnFault::NoMemory),
        }
    }

    /// Learns the next entry of a history, which is a draw at the house time, likewise.
    fn replay_draw(&mut self, target: &[u8], sign: &[u8; 16], drawn: Id) -> Result<(), LearnFault>
        ensures limits { limits_of self.new ≡ limits_of self.old }
        ensures exact { (h : History) → Represents T.trade self.old h
            → Replays T.trade T.passes self.new (limits_of self.old) h (Draw (house_time self.old) target.now sign.now drawn) result }
        ensures contents { (h : History) → Represents T.trade self.old h
            → HasContents T.trade self.old h
            → IfOk result
            (λ u. HasContents T.trade self.new (h ++ Draw (house_time self.old) target.now sign.now drawn ∷ [])) }
    {
        let digits = hex_of(sign);
        let q = Presented::of(draw_request(target, &digits));
        let limits = unbounded_of(self.state.limits());
        let authorization = match evaluate(&self.state, limits, &self.trade, &q) {
            Ok(authorization) => authorization,
            Err(_) => return Err(LearnFault::Unlawful),
        };
        if !is_drawn(&authorization, sign, drawn) {
            return Err(LearnFault::Unlawful);
        }
        match self.commit(&q, &authorization) {
            Ok(_) => Ok(()),
            Err(NoMemory) => Err(LearnFault::NoMemory),
        }
    }
}

/// The piece that was authorized to be spent. A draw spends none.
fn spent(authorized: &Authorized<'_, '_>) -> Option<SpentPiece>
    ensures { result ≡ spent_with authorized.now }
{
    match authorized {
        Authorized::Scrip(a) => Some(SpentPiece::of(&a.scrip.piece())),
        Authorized::Draw(_) => None,
    }
}

/// The limits with the greatest journal, on which what is lawful depends.
fn unbounded_of(limits: Limits) -> Limits
    ensures { result ≡ unbounded limits }
{
    Limits {
        journal: Limits::MOST_JOURNAL,
        series: limits.series,
    }
}

/// The digits of a signature, where there is one.
fn digits_of(sign: &Option<[u8; 16]>) -> Option<[u8; 32]>
    ensures { result ≡ option_map encode_lower sign.now }
{
    match sign {
        Some(sign) => Some(hex_of(sign)),
        None => None,
    }
}

/// The request for a target with a scrip text, and with a signature of these digits or none.
fn request_for<'a>(scrip: &'a [u8], target: &'a [u8], digits: &'a Option<[u8; 32]>) -> Request<'a>
    ensures { asked_of result ≡ scrip_request scrip.now target.now digits.now }
{
    match digits {
        Some(digits) => Request {
            target,
            scrip: Some(scrip),
            sign: Some(digits),
        },
        None => Request {
            target,
            scrip: Some(scrip),
            sign: None,
        },
    }
}

/// The request for a draw, with a signature of these digits.
fn draw_request<'a>(target: &'a [u8], digits: &'a [u8; 32]) -> Request<'a>
    ensures { asked_of result ≡ record { target = target.now; scrip = None; sign = Some digits.now } }
{
    Request {
        target,
        scrip: None,
        sign: Some(digits),
    }
}

/// Whether an Accept entry says what was authorized: the signature, the price, the change and the deed.
fn is_said(
    authorized: &Authorized<'_, '_>,
    sign: &Option<[u8; 16]>,
    price: u64,
    change: &Option<Id>,
    deed: &RecordDeed,
) -> bool
    ensures { IsTrue result
        ↔ IsSaid authorized.now sign.now price change.now (deed_of deed.now) }
{
    match authorized {
        Authorized::Scrip(a) => {
            is_same_sign(&a.sign, sign)
                && a.price == price
                && is_same_change(&a.change, change)
                && is_same_deed(&record_deed(&a.deed), deed)
        }
        Authorized::Draw(_) => false,
    }
}

/// Whether a Draw entry says what was authorized: the signature and the identity of the piece.
fn is_drawn(authorized: &Authorized<'_, '_>, sign: &[u8; 16], drawn: Id) -> bool
    ensures { IsTrue result ↔ SaysDraw authorized.now sign.now drawn }
{
    match authorized {
        Authorized::Scrip(_) => false,
        Authorized::Draw(d) => {
            d.sign.as_slice() == sign.as_slice() && d.id.number() == drawn.number()
        }
    }
}

fn is_same_sign(a: &Option<[u8; 16]>, b: &Option<[u8; 16]>) -> bool
    ensures { IsTrue result ↔ (a.now ≡ b.now) }
{
    match (a, b) {
        (Some(a), Some(b)) => a.as_slice() == b.as_slice(),
        (None, None) => true,
        _ => false,
    }
}

fn is_same_change(a: &Option<Id>, b: &Option<Id>) -> bool
    ensures { IsTrue result ↔ (a.now ≡ b.now) }
{
    match (a, b) {
        (Some(a), Some(b)) => a.number() == b.number(),
        (None, None) => true,
        _ => false,
    }
}

fn is_same_deed(a: &RecordDeed, b: &RecordDeed) -> bool
    ensures { IsTrue result ↔ (deed_of a.now ≡ deed_of b.now) }
{
    match (a, b) {
        (RecordDeed::Goods, RecordDeed::Goods) => true,
        (
            RecordDeed::Sale { stock, id },
            RecordDeed::Sale {
                stock: other,
                id: piece,
            },
        ) => { *stock == *other && id.number() == piece.number() }
        (RecordDeed::Credit { balance }, RecordDeed::Credit { balance: other }) => {
            *balance == *other
        }
        _ => false,
    }
}
