ghost use Rattle.std.specs.Prelude.{◌≡◌, ◌+◌, ◌<◌, ◌≤◌, ◌==◌, ℕ, Err, [], ◌∷◌, ◌++◌, MatchResult, OnOk, OnErr, length, max, None, Some, Ok, IfOk, IfErr, is_ok};
ghost use Rattle.mc_requests.specs.declared.limits.Limits.{Limits as Bounds};
ghost use Rattle.mc_requests.specs.Limits.{AreInRange};
ghost use Rattle.mc_records.specs.Chains.{TellsChain};
ghost use Rattle.mc_records.specs.Entry.{Fits, moment_of, payload};
ghost use Rattle.house_state.specs.CommandEntries.{IsCommand};
ghost use Rattle.ledger_model.specs.Houses.{site_kind};
ghost use Rattle.ledger_model.specs.Lawful.{MayFollow};
ghost use Rattle.house_state.specs.Learning.{MayEnter};
ghost use Rattle.house_state.specs.Founding.{FoundsHouse};
ghost use Rattle.scrip_form.specs.Texts.{IsTarget};
ghost use Rattle.mc_requests.specs.Requests.{asked_of};
ghost use Rattle.mc_records.specs.Views.{deed_of, entry};
ghost use Rattle.ledger_model.specs.Histories.{History, time};
ghost use Rattle.ledger_model.specs.Answer as model;
ghost use Rattle.house_core.specs.Bench.{IsHouse, Represents, HasContents, IsRoomed, KeepsReply, Takes, Accepts, KeepsContents, FaultIsOfSite, Enters, Follows, stopped_with, house_time, limits_of, windows_of, tally_of, IsTallied};
ghost use Rattle.house_core.specs.Refusing.{FaultIsAmong};
ghost use Rattle.house_core.specs.Tallies.{IsWithin, no_tally, tallied, told};
ghost use Rattle.house_state.specs.HouseState.{size_with, HasRoomFor, GoesOn};
ghost use Rattle.house_state.specs.Views.{entry_deed};
ghost use Rattle.std.specs.Set.{distinct_count};
ghost use Rattle.house_state.specs.LiveWindows.{AreUsed, live_windows};
ghost use Rattle.house_state.specs.Trade.{IsKeptFrom, OfGoods, NamesInForce};
ghost use Rattle.kept_replies.specs.Kept.{first_number};
ghost use Rattle.house_state.specs.declared.verdict.Verdict.TheVariants as verdicts;
ghost use Rattle.house_state.specs.Verdicts.{judged, judged_of, accept_entry, draw_entry, authorized_entry, AreUsedFor, BringsAs, HasRoomToCommit, IsOfNew, MayCommit, OfDeed};

use crate::fault::{BenchFault, EnterFault};
use crate::tally::Tally;
use house_state::{
    Authorization, Authorized, DrawAuthorization, HouseState, NotAuthorized, Presented, Trade,
    Unlawful, Verdict, authorization_fits, draw_fits, evaluate, fitted, found_state,
};
use kept_replies::{Deed, KeptNumber};
use mc_base::{Moment, NoMemory};
use mc_records::{PieceList, Record, RecordDeed, SiteTerms, payloads_are_short};
use mc_requests::{Limits, Refusal, Request};
use scrip_journal::LearnFault;
use std::alloc::Global;
use std::marker::Model;

/// A house without a journal: its state and the trade that it carries. Contracts see it as the record `BenchView`.
#[derive(Drop)]
pub struct Bench<T> {
    pub(crate) state: HouseState,
    pub(crate) trade: T,
    /// How the items were answered that it served.
    pub(crate) tally: Tally,
}

impl<T> Model for Bench<T> {
    ghost use Rattle.house_core.specs.BenchView.{BenchView};

    ghost Value = { BenchView T };

    ghost view = { λ b. record { state = b.state; trade = b.trade; tally = b.tally } };
}

impl<T: Trade> Bench<T> {
    /// The house that a Site entry founds, with a trade that has learned nothing yet. The house time is the
    /// entry's moment.
    pub fn new(
        alloc: Global,
        site: &Record<'_>,
        limits: Limits,
        mut trade: T,
    ) -> Result<Bench<T>, NoMemory>
        requires limits { AreInRange limits }
        requires site { FoundsHouse (entry site.now) }
        requires first { MayFollow limits [] (entry site.now) }
        requires kind { site_kind (entry site.now ∷ []) ≡ Some (T.trade trade).site }
        requires trade { (T.trade trade).represents [] }
        ensures holds { IfOk result (λ b. Represents T.trade b (entry site.now ∷ [])) }
        ensures contents { IfOk result (λ b. HasContents T.trade b (entry site.now ∷ [])) }
        ensures time { IfOk result (λ b. house_time b ≡ moment_of (entry site.now)) }
        ensures limits { IfOk result (λ b. limits_of b ≡ limits) }
        ensures used { IfOk result (λ b. AreUsed (windows_of b)) }
        ensures tally { IfOk result (λ b. tally_of b ≡ no_tally) }
        ensures within { IfOk result IsTallied }
    {
        payloads_are_short();
        let bytes = site.payload_len();
        let state = found_state(alloc, site, limits, bytes)?;
        match trade.reserve(site) {
            Ok(()) => (),
            Err(NoMemory) => return Err(NoMemory),
        }
        match trade.learn(0, site) {
            Ok(()) => Ok(Bench {
                state,
                trade,
                tally: Tally::none(),
            }),
            Err(Unlawful) => unreachable!(),
        }
    }

    /// Its trade.
    pub fn trade(&self) -> &T
        ensures { (h : History) → Represents T.trade self.now h
            → (T.trade result.now).represents h }
    {
        &self.trade
    }

    /// Where its memory comes from.
    pub fn alloc(&self) -> Global {
        self.state.alloc()
    }

    /// The limits of its journal and its series. It takes no memory.
    pub fn limits(&self) -> Limits
        ensures { result ≡ limits_of self.now }
    {
        self.state.limits()
    }

    /// How many windows of accepted identities there are: as many as have an accepted identity whose series
    /// has not ended at the house time, where each has one. A bench that is new has none that is empty, and
    /// its calls leave none. It takes no memory.
    pub fn windows(&self) -> usize
        ensures { (h : History) → Represents T.trade self.now h → AreUsed (windows_of self.now)
            → result ≡ distinct_count (λ a b. a == b) (live_windows h (house_time self.now)) }
    {
        self.state.windows()
    }

    /// How the items were answered that it served so far: those of `answer` and `refuse_head`, by which links
    /// are served. No other call counts. It takes no memory.
    pub fn tally(&self) -> Tally
        ensures { result ≡ tally_of self.now }
    {
        self.tally
    }

    /// What the house says of a request at the house time: the ledger's answer without its entry. It
    /// takes no memory.
    pub fn judge(&self, q: &Request<'_>) -> Verdict
        ensures kept { (n : ℕ) → result ≡ verdicts.Again n → KeepsReply self.now n }
        ensures exact { (h : History) → IsHouse T.trade self.now h
            → judged_of result ≡ judged (model.answer h (house_time self.now) (limits_of self.now) (asked_of q.now)) }
    {
        let q = Presented::of(*q);
        match evaluate(&self.state, self.state.limits(), &self.trade, &q) {
            Ok(_authorization) => Verdict::Take,
            Err(NotAuthorized::Refused(refusal)) => Verdict::Refused(refusal),
            Err(NotAuthorized::Again(number)) => Verdict::Again(number.number()),
        }
    }

    /// Raises the house time to a reading of the clock where that is later, and answers it. Replies whose
    /// keeping time is over are let go, and so are the windows of series that have ended; contents that no
    /// kept reply brings may be. It takes no memory.
    pub fn raise(&mut self, reading: Moment) -> Moment
        ensures time { result ≡ max (house_time self.old) reading }
        ensures raised { house_time self.new ≡ max (house_time self.old) reading }
        ensures keep { self.new.state.kept.keep ≡ self.old.state.kept.keep }
        ensures limits { limits_of self.new ≡ limits_of self.old }
        ensures tally { tally_of self.new ≡ tally_of self.old }
        ensures count { self.new.state.count ≡ self.old.state.count }
        ensures used { AreUsed (windows_of self.old) → AreUsed (windows_of self.new) }
        ensures same { (h : History) → Represents T.trade self.old h
            → Represents T.trade self.new h }
        ensures contents { (h : History) → Represents T.trade self.old h
            → HasContents T.trade self.old h → HasContents T.trade self.new h }
        ensures freed { (h : History) (n : ℕ) → Represents T.trade self.old h
            → (T.trade self.new.trade).holds n → IsKeptFrom h (first_number self.new.state.kept.replies) n }
    {
        let time = self.state.raise(reading);
        self.trade.forget(self.state.first_kept());
        time
    }

    /// Accepts a request at the house time: enters its entry, and answers the entry's number, from 0. Where
    /// the request comes again it enters nothing, and answers the number of the entry that it repeats.
    /// The reply of the entry is kept; a house that kept none keeps them from here on, for one second.
    pub fn accept(&mut self, q: &Request<'_>) -> Result<u64, BenchFault>
        ensures kept { IfOk result (KeepsReply self.new) }
        ensures site { IfErr result FaultIsOfSite }
        ensures time { house_time self.new ≡ house_time self.old }
        ensures limits { limits_of self.new ≡ limits_of self.old }
        ensures tally { tally_of self.new ≡ tally_of self.old }
        ensures within { IsTallied self.old → IsTallied self.new }
        ensures used { AreUsed (windows_of self.old) → AreUsed (windows_of self.new) }
        ensures exact { (h : History) → IsHouse T.trade self.old h
            → Accepts T.trade self.new h (model.answer h (house_time self.old) (limits_of self.old) (asked_of q.now)) result }
        ensures contents { (h : History) → Represents T.trade self.old h
            → HasContents T.trade self.old h
            → KeepsContents T.trade self.new h (model.answer h (house_time self.old) (limits_of self.old) (asked_of q.now)) result }
    {
        self.state.keep_some();
        match self.respond(&Presented::of(*q), &mut Tally::none()) {
            Ok(number) => Ok(number.number()),
            Err(fault) => Err(fault),
        }
    }

    /// Accepts a request, as [`Bench::accept`] does, where replies are kept, and counts in a tally what is told to it.
    pub(crate) fn respond(
        &mut self,
        q: &Presented<'_>,
        tally: &mut Tally,
    ) -> Result<KeptNumber, BenchFault>
        requires keeps { 0 < self.old.state.kept.keep }
        ensures within { IsWithin self.old.state.count tally.old
            → IsWithin self.new.state.count tally.new }
        ensures counted { (h : History) → IsHouse T.trade self.old h
            → IsWithin self.old.state.count tally.old
            → tally.new ≡ tallied tally.old (told (model.answer h (house_time self.old) (limits_of self.old) q.now) (is_ok result) ∷ []) }
        ensures tally { tally_of self.new ≡ tally_of self.old }
        ensures grows { self.old.state.count ≤ self.new.state.count }
        ensures kept { IfOk result (KeepsReply self.new) }
        ensures site { IfErr result FaultIsOfSite }
        ensures time { house_time self.new ≡ house_time self.old }
        ensures limits { limits_of self.new ≡ limits_of self.old }
        ensures used { AreUsed (windows_of self.old) → AreUsed (windows_of self.new) }
        ensures exact { (h : History) → IsHouse T.trade self.old h
            → Accepts T.trade self.new h (model.answer h (house_time self.old) (limits_of self.old) q.now) result }
        ensures contents { (h : History) → Represents T.trade self.old h
            → HasContents T.trade self.old h
            → KeepsContents T.trade self.new h (model.answer h (house_time self.old) (limits_of self.old) q.now) result }
    {
        let authorization = match evaluate(&self.state, self.state.limits(), &self.trade, q) {
            Ok(authorization) => authorization,
            Err(stopped) => {
                tally.stop(&stopped);
                return stopped_with(stopped);
            }
        };
        match self.commit(q, &authorization) {
            Ok(number) => {
                tally.take(authorization.price(), authorization.change_worth());
                Ok(number)
            }
            Err(NoMemory) => {
                tally.refuse(&Refusal::NoMemory);
                Err(BenchFault::NoMemory)
            }
        }
    }

    /// Enters an entry by a command of the house's operator, whose moment is not before the last entry's, and
    /// answers its number, from 0. The house time is then raised to that moment where it is later. The only
    /// refusal is 33 JournalFull. After an `Err` the house is as it was, and so is its time.
    ///
    /// A Switch has to have the chain of the entries before it. A bench keeps no chain and compares none: whoever enters
    /// a Switch has to know it, and where it has another nothing is promised.
    pub fn enter(&mut self, r: &Record<'_>) -> Result<u64, EnterFault>
        requires fits { Fits (entry r.now) }
        requires command { IsCommand (entry r.now) }
        requires order { (h : History) → Represents T.trade self.old h
            → time h ≤ moment_of (entry r.now) }
        ensures time { MatchResult result
            (λ n. house_time self.new ≡ max (house_time self.old) (moment_of (entry r.now)))
            (λ f. house_time self.new ≡ house_time self.old) }
        ensures limits { limits_of self.new ≡ limits_of self.old }
        ensures tally { tally_of self.new ≡ tally_of self.old }
        ensures within { IsTallied self.old → IsTallied self.new }
        ensures used { AreUsed (windows_of self.old) → AreUsed (windows_of self.new) }
        // Of a Switch, that it tells the chain of the entries before it.
        ensures exact { (h : History) → Represents T.trade self.old h
            → TellsChain h (entry r.now)
            → Enters T.trade T.passes self.new (limits_of self.old) h (entry r.now) result }
        ensures contents { (h : History) → Represents T.trade self.old h
            → HasContents T.trade self.old h
            → MatchResult result (λ n. HasContents T.trade self.new (h ++ entry r.now ∷ []))
            (λ f. HasContents T.trade self.new h) }
        ensures refusals { IfErr result (FaultIsAmong (33 ∷ [])) }
    {
        let bytes = match self.make_room_for(r) {
            Ok(bytes) => bytes,
            Err(fault) => return Err(fault),
        };
        match self.apply_entry(r, bytes) {
            Ok(number) => Ok(number),
            Err(Unlawful) => Err(EnterFault::Unlawful),
        }
    }

    /// Makes room to enter an entry by a command of the house's operator, and answers how many bytes its
    /// payload has. The house stays as it is, after an `Err` too.
    pub(crate) fn make_room_for(&mut self, r: &Record<'_>) -> Result<u64, EnterFault>
        requires fits { Fits (entry r.now) }
        requires command { IsCommand (entry r.now) }
        ensures same { IsRoomed T.trade self.old self.new }
        ensures len { IfOk result (λ n. n ≡ length (payload (entry r.now))) }
        ensures fits { IfOk result
            (λ n. size_with self.new.state n ≤ self.new.state.limits.journal) }
        ensures room { IfOk result (λ n. size_with self.new.state n ≤ Limits.MOST_JOURNAL) }
        ensures fitted { (h : History) → Represents T.trade self.old h
            → OnOk result (model.fitted h (limits_of self.old) (entry r.now) ≡ Ok (entry r.now)) }
        ensures goes_on { OnOk result (GoesOn self.new.state (T.trade self.new.trade).site (entry r.now)) }
        ensures trade { OnOk result ((T.trade self.new.trade).has_room (entry r.now)) }
        ensures state { OnOk result (HasRoomFor self.new.state (entry r.now)) }
        ensures spent { windows_of self.new ≡ windows_of self.old }
        ensures fault { (h : History) → Represents T.trade self.old h
            → TellsChain h (entry r.now)
            → IfErr result
            (λ f. Enters T.trade T.passes self.new (limits_of self.old) h (entry r.now) (Err f)) }
        ensures refusals { IfErr result (FaultIsAmong (33 ∷ [])) }
    {
        let bytes = r.payload_len();
        match fitted(&self.state, self.state.limits().journal, bytes) {
            Ok(()) => (),
            Err(refusal) => return Err(EnterFault::Refused(refusal)),
        }
        match self.room_for(r) {
            Ok(()) => Ok(bytes),
            Err(LearnFault::Unlawful) => Err(EnterFault::Unlawful),
            Err(LearnFault::NoMemory) => Err(EnterFault::NoMemory),
        }
    }

    /// Makes room in the trade and in the state to enter an entry that accepts nothing. `Unlawful` comes only
    /// where the entry may not follow. The house stays as it is, after an `Err` too.
    pub(crate) fn room_for(&mut self, r: &Record<'_>) -> Result<(), LearnFault>
        requires fits { Fits (entry r.now) }
        requires command { IsCommand (entry r.now) }
        ensures same { IsRoomed T.trade self.old self.new }
        ensures goes_on { OnOk result (GoesOn self.new.state (T.trade self.new.trade).site (entry r.now)) }
        ensures trade { OnOk result ((T.trade self.new.trade).has_room (entry r.now)) }
        ensures state { OnOk result (HasRoomFor self.new.state (entry r.now)) }
        ensures spent { windows_of self.new ≡ windows_of self.old }
        ensures end { (h : History) → Represents T.trade self.old h
            → TellsChain h (entry r.now)
            → IfErr result
            (λ f. Follows T.trade T.passes self.new (limits_of self.old) h (entry r.now) (Err f)) }
    {
        if !self.state.goes_on(self.trade.kind(), r) {
            return Err(LearnFault::Unlawful);
        }
        match self.trade.reserve(r) {
            Ok(()) => (),
            Err(NoMemory) => return Err(LearnFault::NoMemory),
        }
        match self.state.reserve_for(r) {
            Ok(()) => Ok(()),
            Err(NoMemory) => Err(LearnFault::NoMemory),
        }
    }

    /// Enters such an entry, for which there is room, with a payload of so many bytes, and answers its
    /// number. Its moment is not before the last entry's; the house time is raised to it where it is later.
    /// `Err` comes where the trade's half of what makes it lawful does not hold, and leaves the house as it
    /// was. It takes no memory.
    pub(crate) fn apply_entry(&mut self, r: &Record<'_>, bytes: u64) -> Result<u64, Unlawful>
        requires fits { Fits (entry r.now) }
        requires command { IsCommand (entry r.now) }
        requires len { bytes ≡ length (payload (entry r.now)) }
        requires room { size_with self.old.state bytes ≤ Limits.MOST_JOURNAL }
        requires goes_on { GoesOn self.old.state (T.trade self.old.trade).site (entry r.now) }
        requires trade { (T.trade self.old.trade).has_room (entry r.now) }
        requires state { HasRoomFor self.old.state (entry r.now) }
        ensures time { MatchResult result
            (λ n. house_time self.new ≡ max (house_time self.old) (moment_of (entry r.now)))
            (λ f. house_time self.new ≡ house_time self.old) }
        ensures keep { self.new.state.kept.keep ≡ self.old.state.kept.keep }
        ensures limits { limits_of self.new ≡ limits_of self.old }
        ensures used { AreUsed (windows_of self.old) → AreUsed (windows_of self.new) }
        ensures tally { tally_of self.new ≡ tally_of self.old }
        ensures grows { self.old.state.count ≤ self.new.state.count }
        ensures exact { (h : History) → Represents T.trade self.old h
            → time h ≤ moment_of (entry r.now) → TellsChain h (entry r.now)
            → MatchResult result
            (λ n. MayEnter T.passes (limits_of self.old) h (entry r.now) × (n ≡ length h)
            × Represents T.trade self.new (h ++ entry r.now ∷ []))
            (λ f. (MayEnter T.passes (limits_of self.old) h (entry r.now) → ⊥)
            × Represents T.trade self.new h) }
        ensures contents { (h : History) → Represents T.trade self.old h
            → HasContents T.trade self.old h
            → MatchResult result (λ n. HasContents T.trade self.new (h ++ entry r.now ∷ []))
            (λ f. HasContents T.trade self.new h) }
    {
        let number = self.state.count();
        match self.trade.learn(number, r) {
            Ok(()) => (),
            Err(Unlawful) => return Err(Unlawful),
        }
        self.state.raise(r.moment());
        self.state.apply_entry(self.trade.kind(), r, bytes);
        Ok(number)
    }

    /// Enters the entry of an authorization, with room for it made first, and answers its number.
    pub(crate) fn commit(
        &mut self,
        q: &Presented<'_>,
        authorization: &Authorized<'_, '_>,
    ) -> Result<KeptNumber, NoMemory>
        requires new { IsOfNew self.old.state q.now authorization.now }
        requires held { OfDeed (OfGoods (T.trade self.old.trade).holds) authorization.now }
        requires ready { MayCommit self.old.state q.now.target authorization.now }
        requires brings { (h : History) → (T.trade self.old.trade).represents h
            → site_kind h ≡ Some (T.trade self.old.trade).site
            → BringsAs h q.now.target authorization.now }
        ensures kept { 0 < self.old.state.kept.keep → IfOk result (KeepsReply self.new) }
        ensures time { house_time self.new ≡ house_time self.old }
        ensures limits { limits_of self.new ≡ limits_of self.old }
        ensures tally { tally_of self.new ≡ tally_of self.old }
        ensures more { MatchResult result (λ n. self.new.state.count ≡ self.old.state.count + 1)
            (λ f. self.new.state.count ≡ self.old.state.count) }
        ensures used { AreUsed (windows_of self.old) → AreUsed (windows_of self.new) }
        ensures exact { (limits : Bounds) (h : History) → Represents T.trade self.old h
            → limits.series ≡ (limits_of self.old).series → limits.journal ≤ Limits.MOST_JOURNAL
            → model.answer h (house_time self.old) limits q.now ≡ model.Take (authorized_entry (house_time self.old) q.now.target authorization.now)
            → Takes T.trade self.new h (authorized_entry (house_time self.old) q.now.target authorization.now) result }
        ensures contents { (h : History) → Represents T.trade self.old h
            → HasContents T.trade self.old h → OfDeed (NamesInForce h) authorization.now
            → MatchResult result
            (λ n. HasContents T.trade self.new (h ++ authorized_entry (house_time self.old) q.now.target authorization.now ∷ [])) (λ f. HasContents T.trade self.new h) }
    {
        let _parts: Option<(PieceList<'_>, SiteTerms<'_>)> = None;
        let record = entry_of(self.state.time(), q.request(), authorization);
        match self.make_room(q, authorization, &record) {
            Ok(()) => (),
            Err(NoMemory) => return Err(NoMemory),
        }
        Ok(self.apply(q, authorization, &record))
    }

    /// Makes room to enter the entry of an authorization, in the trade and in the state. The house stays as it
    /// is, after an `Err` too.
    pub(crate) fn make_room(
        &mut self,
        q: &Presented<'_>,
        authorization: &Authorized<'_, '_>,
        r: &Record<'_>,
    ) -> Result<(), NoMemory>
        requires is { entry r.now ≡ authorized_entry (house_time self.old) q.now.target authorization.now }
        requires ready { MayCommit self.old.state q.now.target authorization.now }
        ensures same { IsRoomed T.trade self.old self.new }
        ensures trade { OnOk result ((T.trade self.new.trade).has_room (entry r.now)) }
        ensures state { OnOk result (HasRoomToCommit self.new.state q.now authorization.now) }
        ensures used { OnOk result (AreUsed (windows_of self.old)
            → AreUsedFor authorization.now (windows_of self.new)) }
        ensures left { OnErr result (windows_of self.new ≡ windows_of self.old) }
    {
        match self.trade.reserve(r) {
            Ok(()) => (),
            Err(NoMemory) => return Err(NoMemory),
        }
        self.state.make_room(q.request(), authorization)
    }

    /// Enters the entry of an authorization, for which there is room, and answers its number. It takes no
    /// memory.
    pub(crate) fn apply(
        &mut self,
        q: &Presented<'_>,
        authorization: &Authorized<'_, '_>,
        r: &Record<'_>,
    ) -> KeptNumber
        requires is { entry r.now ≡ authorized_entry (house_time self.old) q.now.target authorization.now }
        requires new { IsOfNew self.old.state q.now authorization.now }
        requires held { OfDeed (OfGoods (T.trade self.old.trade).holds) authorization.now }
        requires ready { MayCommit self.old.state q.now.target authorization.now }
        requires trade { (T.trade self.old.trade).has_room (entry r.now) }
        requires state { HasRoomToCommit self.old.state q.now authorization.now }
        ensures kept { 0 < self.old.state.kept.keep → KeepsReply self.new result }
        ensures time { house_time self.new ≡ house_time self.old }
        ensures keep { self.new.state.kept.keep ≡ self.old.state.kept.keep }
        ensures limits { limits_of self.new ≡ limits_of self.old }
        ensures tally { tally_of self.new ≡ tally_of self.old }
        ensures more { self.new.state.count ≡ self.old.state.count + 1 }
        ensures used { AreUsedFor authorization.now (windows_of self.old)
            → AreUsed (windows_of self.new) }
        ensures exact { (limits : Bounds) (h : History) → Represents T.trade self.old h
            → BringsAs h q.now.target authorization.now
            → limits.series ≡ (limits_of self.old).series → limits.journal ≤ Limits.MOST_JOURNAL
            → model.answer h (house_time self.old) limits q.now ≡ model.Take (authorized_entry (house_time self.old) q.now.target authorization.now)
            → (result ≡ length h)
            × Represents T.trade self.new (h ++ authorized_entry (house_time self.old) q.now.target authorization.now ∷ []) }
        ensures contents { (h : History) → Represents T.trade self.old h
            → HasContents T.trade self.old h → OfDeed (NamesInForce h) authorization.now
            → HasContents T.trade self.new (h ++ authorized_entry (house_time self.old) q.now.target authorization.now ∷ []) }
    {
        let number = self.state.count();
        // What the house answers may follow, so an `Err` comes only where it represents no history.
        let _learned = self.trade.learn(number, r);
        self.state.commit(q.request(), authorization)
    }
}

/// The entry of what was authorized at the house time.
pub(crate) fn entry_of<'a>(
    time: Moment,
    q: &Request<'a>,
    authorized: &Authorized<'_, 'a>,
) -> Record<'a>
    ensures same { entry result ≡ authorized_entry time q.now.target.now authorized.now }
    ensures fits { IsTarget q.now.target.now → Fits (entry result) }
{
    match authorized {
        Authorized::Scrip(a) => accept_record(time, q.target, a),
        Authorized::Draw(d) => draw_record(time, q.target, d),
    }
}

fn accept_record<'a>(time: Moment, target: &'a [u8], a: &Authorization<'_, 'a>) -> Record<'a>
    ensures same { entry result ≡ accept_entry time target.now a.now }
    ensures fits { IsTarget target.now → Fits (entry result) }
{
    authorization_fits(time, target, a);
    Record::Accept {
        moment: time,
        scrip: a.scrip.text(),
        target,
        sign: a.sign,
        price: a.price,
        change: a.change,
        deed: record_deed(&a.deed),
    }
}

fn draw_record<'a>(time: Moment, target: &'a [u8], d: &DrawAuthorization) -> Record<'a>
    ensures same { entry result ≡ draw_entry time target.now d.now }
    ensures fits { IsTarget target.now → Fits (entry result) }
{
    draw_fits(time, target, d);
    Record::Draw {
        moment: time,
        target,
        sign: d.sign,
        drawn: d.id,
    }
}

/// What comes of a request that makes no entry.
pub(crate) fn stopped_with(stopped: NotAuthorized) -> Result<KeptNumber, BenchFault>
    ensures { result ≡ stopped_with stopped }
{
    match stopped {
        NotAuthorized::Refused(refusal) => Err(BenchFault::Refused(refusal)),
        NotAuthorized::Again(number) => Ok(number),
    }
}

/// A kept deed as that of the entry.
pub(crate) fn record_deed(deed: &Deed) -> RecordDeed
    ensures { deed_of result ≡ entry_deed deed.now }
{
    match deed {
        Deed::Goods { .. } => RecordDeed::Goods,
        Deed::Sale { piece, stock, .. } => RecordDeed::Sale {
            stock: *stock,
            id: piece.id(),
        },
        Deed::Credit { balance } => RecordDeed::Credit { balance: *balance },
        Deed::Draw { piece, .. } => RecordDeed::Sale {
            stock: false,
            id: piece.id(),
        },
    }
}
