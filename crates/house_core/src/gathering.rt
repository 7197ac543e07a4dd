//! A house in memory whose new entries are gathered in a batch, which is committed later.

ghost use Rattle.std.specs.Prelude.{◌≡◌, ◌<◌, ◌≤◌, ◌++◌, ◌∷◌, [], Some, Ok, Err, IfOk, IfErr, MatchResult, max};
ghost use Rattle.mc_requests.specs.declared.limits.Limits.{Limits as Bounds};
ghost use Rattle.mc_requests.specs.declared.limits.TheConstants.Limits.{MOST_JOURNAL};
ghost use Rattle.scrip_form.specs.Texts.{IsTarget};
ghost use Rattle.scrip_journal.specs.Batches.{IsBatch};
ghost use Rattle.ledger_model.specs.Histories.{History};
ghost use Rattle.ledger_model.specs.Answer as model;
ghost use Rattle.ledger_model.specs.Houses.{site_kind};
ghost use Rattle.house_state.specs.Trade.{OfGoods, NamesInForce};
ghost use Rattle.house_state.specs.Verdicts.{authorized_entry, BringsAs, IsOfNew, MayCommit, OfDeed};
ghost use Rattle.house_core.specs.Bench.{Represents, HasContents, IsHouse, KeepsReply, Takes, Accepts, KeepsContents, FaultIsOfSite, house_time, limits_of, state_of};
ghost use Rattle.house_core.specs.Session.{raised, Says};
ghost use Rattle.house_state.specs.Replying.{IsOfSite};
ghost use Rattle.house_core.specs.Gathering.{Gathers, IsAhead, ReachesAhead};

use crate::bench::{Bench, entry_of, stopped_with};
use crate::fault::BenchFault;
use house_state::{Authorized, Presented, Trade, evaluate};
use kept_replies::KeptNumber;
use mc_base::{Moment, NoMemory};
use mc_outside::Disk;
use mc_records::{PieceList, SiteTerms};
use mc_requests::Refusal;
use scrip_journal::Batch;

impl<T: Trade> Bench<T> {
    /// Enters the entry of an authorization in memory, with room for it made first, and gathers it in the batch. Answers its
    /// number. Where memory is refused, or the batch has no room for it, nothing is changed.
    pub(crate) fn commit_into<D: Disk>(
        &mut self,
        q: &Presented<'_>,
        authorization: &Authorized<'_, '_>,
        batch: &mut Batch<D>,
    ) -> Result<KeptNumber, NoMemory>
        requires target { IsTarget q.now.target }
        requires new { IsOfNew self.old.state q.now authorization.now }
        requires held { OfDeed (OfGoods (T.trade self.old.trade).holds) authorization.now }
        requires ready { MayCommit self.old.state q.now.target authorization.now }
        requires brings { (h : History) → (T.trade self.old.trade).represents h
            → site_kind h ≡ Some (T.trade self.old.trade).site
            → BringsAs h q.now.target authorization.now }
        ensures kept { 0 < self.old.state.kept.keep → IfOk result (KeepsReply self.new) }
        ensures time { house_time self.new ≡ house_time self.old }
        ensures limits { limits_of self.new ≡ limits_of self.old }
        ensures disk { batch.new.disk ≡ batch.old.disk }
        ensures gathered { (h es : History) → IsBatch D.disk batch.old h es
            → MatchResult result
            (λ n. IsBatch D.disk batch.new h (es ++ authorized_entry (house_time self.old) q.now.target authorization.now ∷ []))
            (λ f. IsBatch D.disk batch.new h es) }
        ensures exact { (limits : Bounds) (h : History) → Represents T.trade self.old h
            → limits.series ≡ (limits_of self.old).series → limits.journal ≤ MOST_JOURNAL
            → model.answer h (house_time self.old) limits q.now ≡ model.Take (authorized_entry (house_time self.old) q.now.target authorization.now)
            → Takes T.trade self.new h (authorized_entry (house_time self.old) q.now.target authorization.now) result }
        ensures contents { (h : History) → Represents T.trade self.old h
            → HasContents T.trade self.old h → OfDeed (NamesInForce h) authorization.now
            → MatchResult result
            (λ n. HasContents T.trade self.new (h ++ authorized_entry (house_time self.old) q.now.target authorization.now ∷ [])) (λ f. HasContents T.trade self.new h) }
    {
        let _parts: Option<(PieceList<'_>, SiteTerms<'_>)> = None;
        let record = entry_of(self.state.time(), q.request(), authorization);
        match self.make_room(q, authorization, &record) {
            Ok(()) => (),
            Err(NoMemory) => return Err(NoMemory),
        }
        match batch.put(&record) {
            Some(_number) => Ok(self.apply(q, authorization, &record)),
            None => Err(NoMemory),
        }
    }

    /// Accepts a request at the house time where replies are kept: a new entry is entered in memory and gathered in the
    /// batch. Answers its number, or that of the entry that the request repeats.
    pub fn respond_into<D: Disk>(
        &mut self,
        q: &Presented<'_>,
        batch: &mut Batch<D>,
    ) -> Result<KeptNumber, BenchFault>
        requires keeps { 0 < self.old.state.kept.keep }
        requires target { IsTarget q.now.target }
        ensures kept { IfOk result (KeepsReply self.new) }
        ensures site { IfErr result FaultIsOfSite }
        ensures time { house_time self.new ≡ house_time self.old }
        ensures limits { limits_of self.new ≡ limits_of self.old }
        ensures disk { batch.new.disk ≡ batch.old.disk }
        ensures exact { (h : History) → IsHouse T.trade self.old h
            → Accepts T.trade self.new h (model.answer h (house_time self.old) (limits_of self.old) q.now) result }
        ensures contents { (h : History) → Represents T.trade self.old h
            → HasContents T.trade self.old h
            → KeepsContents T.trade self.new h (model.answer h (house_time self.old) (limits_of self.old) q.now) result }
        ensures gathered { (h es : History) → IsHouse T.trade self.old (h ++ es) → IsBatch D.disk batch.old h es
            → Gathers D.disk batch.new h es (model.answer (h ++ es) (house_time self.old) (limits_of self.old) q.now) result }
    {
        let authorization = match evaluate(&self.state, self.state.limits(), &self.trade, q) {
            Ok(authorization) => authorization,
            Err(stopped) => return stopped_with(stopped),
        };
        match self.commit_into(q, &authorization, batch) {
            Ok(number) => Ok(number),
            Err(NoMemory) => Err(BenchFault::NoMemory),
        }
    }

    /// What is said to a request at a reading of the clock, to which the house time is raised: the number of the entry whose
    /// first reply it gets, or the refusal. A new entry is gathered in the batch; it is said of it what may be told only
    /// when the batch is committed. Want of memory is refusal 90.
    pub fn answer_into<D: Disk>(
        &mut self,
        reading: Moment,
        q: &Presented<'_>,
        batch: &mut Batch<D>,
    ) -> Result<KeptNumber, Refusal>
        requires target { IsTarget q.now.target }
        ensures limits { limits_of self.new ≡ limits_of self.old }
        ensures time { house_time self.new ≡ max (house_time self.old) reading }
        ensures kept { IfOk result (KeepsReply self.new) }
        ensures site { IfErr result IsOfSite }
        ensures disk { batch.new.disk ≡ batch.old.disk }
        ensures went { (h es : History) → IsAhead D.disk T.trade self.old batch.old h es
            → ReachesAhead D.disk T.trade
            (Says (model.answer (h ++ es) (raised (state_of (h ++ es) self.old) reading).time (limits_of self.old) q.now) result (raised (state_of (h ++ es) self.old) reading)) self.new batch.new h }
    {
        self.raise(reading);
        self.state.keep_some();
        match self.respond_into(q, batch) {
            Ok(number) => Ok(number),
            Err(BenchFault::Refused(refusal)) => Err(refusal),
            Err(BenchFault::NoMemory) => Err(Refusal::NoMemory),
        }
    }
}
