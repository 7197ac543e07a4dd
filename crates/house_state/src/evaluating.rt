//! The answer to a request, a stage after the other.

ghost use Rattle.std.specs.Prelude.{◌≡◌, ◌<◌, ◌≤◌, Some, None, Ok, IfSome, IfOk, IfErr, OnOk};
ghost use Rattle.ledger_model.specs.Stages.{genuine_by, read_by};
ghost use Rattle.mc_records.specs.Entry.{IsKey};
ghost use Rattle.mc_requests.specs.Requests.{asked_of};
ghost use Rattle.kept_replies.specs.Kept.{found};
ghost use Rattle.ledger_model.specs.Histories.{History};
ghost use Rattle.ledger_model.specs.Houses.{site_kind};
ghost use Rattle.ledger_model.specs.Answer as model;
ghost use Rattle.ledger_model.specs.Answer.{answered, after_repeat, without_scrip};
ghost use Rattle.ledger_model.specs.Orders.{Order};
ghost use Rattle.ledger_model.specs.Lines.{as_line};
ghost use Rattle.house_state.specs.HouseState.{version_of, size_with};
ghost use Rattle.house_state.specs.Trade.{OfGoods, NamesInForce, BringsFor, asked_of_account};
ghost use Rattle.house_state.specs.Representation.{StateRepresents};
ghost use Rattle.house_state.specs.Replying.{IsOfSite};
ghost use Rattle.house_state.specs.Verdicts.{accept_entry, draw_entry, authorized_entry, payload_of, evaluated, BringsAs, IsDrawReady, IsOfNew, IsReady, MayCommit, OfDeed, RepeatsKept, StopIsOfSite, WasAsked};

use crate::house_state::HouseState;
use crate::lengths::{accept_len, draw_len};
use crate::offer::DrawAsk;
use crate::presented::{Presented, without_scrip};
use crate::stages::{change, drawable, fitted, genuine, next_own, payable, spendable};
use crate::trade::Trade;
use crate::verdict::{Authorization, Authorized, DrawAuthorization, NotAuthorized, Spendable};
use mc_requests::{Limits, Refusal, Request};
use scrip_form::ScripRef;

/// What is given for a piece that may be spent; refused where the trade refuses it, the series of the
/// change is full, or the entry does not fit.
fn taken<'q, 'a, T: Trade>(
    state: &HouseState,
    limits: Limits,
    trade: &T,
    q: &Request<'_>,
    scrip: &'q ScripRef<'a>,
    secret: &[u8; 16],
    spendable: Spendable,
) -> Result<Authorization<'q, 'a>, Refusal>
    requires series { limits.series ≡ state.now.limits.series }
    requires journal { limits.journal ≤ Limits.MOST_JOURNAL }
    requires sign { IfSome spendable.sign IsKey }
    requires live { state.now.time < scrip.now.piece.expires }
    requires fresh { WasAsked state.now scrip.now.piece.id spendable.fresh }
    requires secret { genuine_by state.now.name (version_of state.now) state.now.terms scrip.now ≡ Ok secret.now }
    ensures scrip { IfOk result (λ a. a.scrip.now ≡ scrip.now) }
    ensures ready { IfOk result (IsReady state.now q.now.target.now) }
    ensures room { IfOk result (λ a. size_with state.now a.payload ≤ limits.journal) }
    ensures held { IfOk result (λ a. OfGoods (T.trade trade.now).holds a.deed) }
    ensures in_force { (h : History) → (T.trade trade.now).represents h
        → site_kind h ≡ Some (T.trade trade.now).site → IfOk result (λ a. NamesInForce h a.deed) }
    ensures brings { (h : History) → (T.trade trade.now).represents h
        → site_kind h ≡ Some (T.trade trade.now).site
        → IfOk result (λ a. BringsFor h q.now.target.now a.deed) }
    ensures site { IfErr result IsOfSite }
    ensures lines { (h : History) → StateRepresents state.now h → (T.trade trade.now).represents h
        → site_kind h ≡ Some (T.trade trade.now).site
        → as_line (accept_entry state.now.time q.now.target.now) result ≡ model.taken h state.now.time limits (asked_of q.now) scrip.now spendable.sign }
{
    let value = scrip.piece().value();
    // A series has its range.
    let _limits = state.limits();
    let offer = match trade.offer(state.time(), limits, q.target, value) {
        Ok(offer) => offer,
        Err(refusal) => return Err(refusal),
    };
    let change = match change(state.own(), state.time(), offer.price, value.get()) {
        Ok(change) => change,
        Err(refusal) => return Err(refusal),
    };
    let Spendable { sign, fresh } = spendable;
    let payload = accept_len(scrip, q.target, &sign, &change, &offer.deed);
    match fitted(state, limits.journal, payload) {
        Ok(()) => Ok(Authorization {
            scrip,
            secret: *secret,
            sign,
            price: offer.price,
            change,
            deed: offer.deed,
            payload,
            fresh,
        }),
        Err(refusal) => Err(refusal),
    }
}

/// What is given for a piece that no request brought before.
fn evaluate_new<'q, 'a, T: Trade>(
    state: &HouseState,
    limits: Limits,
    trade: &T,
    q: &Request<'_>,
    scrip: &'q ScripRef<'a>,
) -> Result<Authorization<'q, 'a>, Refusal>
    requires series { limits.series ≡ state.now.limits.series }
    requires journal { limits.journal ≤ Limits.MOST_JOURNAL }
    ensures scrip { IfOk result (λ a. a.scrip.now ≡ scrip.now) }
    ensures ready { IfOk result (IsReady state.now q.now.target.now) }
    ensures room { IfOk result (λ a. size_with state.now a.payload ≤ limits.journal) }
    ensures held { IfOk result (λ a. OfGoods (T.trade trade.now).holds a.deed) }
    ensures in_force { (h : History) → (T.trade trade.now).represents h
        → site_kind h ≡ Some (T.trade trade.now).site → IfOk result (λ a. NamesInForce h a.deed) }
    ensures brings { (h : History) → (T.trade trade.now).represents h
        → site_kind h ≡ Some (T.trade trade.now).site
        → IfOk result (λ a. BringsFor h q.now.target.now a.deed) }
    ensures site { IfErr result IsOfSite }
    ensures lines { (h : History) → StateRepresents state.now h → (T.trade trade.now).represents h
        → site_kind h ≡ Some (T.trade trade.now).site
        → as_line (accept_entry state.now.time q.now.target.now) result ≡ after_repeat h state.now.time limits (asked_of q.now) scrip.now }
{
    let secret = match genuine(state, scrip) {
        Ok(secret) => secret,
        Err(refusal) => return Err(refusal),
    };
    let spendable = match spendable(state, &secret, q, scrip) {
        Ok(spendable) => spendable,
        Err(refusal) => return Err(refusal),
    };
    taken(state, limits, trade, q, scrip, &secret, spendable)
}

/// What is given for a request with scrip under some limits, or why nothing is: the number of an entry where
/// it comes again.
fn evaluate_scrip<'q, 'a, T: Trade>(
    state: &HouseState,
    limits: Limits,
    trade: &T,
    q: &'q Presented<'a>,
) -> Result<Authorization<'q, 'a>, NotAuthorized>
    requires series { limits.series ≡ state.now.limits.series }
    requires journal { limits.journal ≤ Limits.MOST_JOURNAL }
    ensures read { IfOk result (λ a. Ok a.scrip.now ≡ read_by q.now.scrip) }
    ensures new { OnOk result (found state.now.kept state.now.time q.now ≡ None) }
    ensures ready { IfOk result (IsReady state.now q.now.target) }
    ensures room { IfOk result (λ a. size_with state.now a.payload ≤ limits.journal) }
    ensures held { IfOk result (λ a. OfGoods (T.trade trade.now).holds a.deed) }
    ensures in_force { (h : History) → (T.trade trade.now).represents h
        → site_kind h ≡ Some (T.trade trade.now).site → IfOk result (λ a. NamesInForce h a.deed) }
    ensures brings { (h : History) → (T.trade trade.now).represents h
        → site_kind h ≡ Some (T.trade trade.now).site
        → IfOk result (λ a. BringsFor h q.now.target a.deed) }
    ensures site { IfErr result StopIsOfSite }
    ensures again { IfErr result (RepeatsKept state.now) }
    ensures exact { (h : History) → StateRepresents state.now h → (T.trade trade.now).represents h
        → site_kind h ≡ Some (T.trade trade.now).site
        → evaluated (accept_entry state.now.time q.now.target) result ≡ model.lines_within state.now.kept.keep h state.now.time limits q.now }
{
    let scrip = match q.scrip() {
        Ok(scrip) => scrip,
        Err(refusal) => return Err(NotAuthorized::Refused(refusal)),
    };
    let request = q.request();
    match state.repeated(request) {
        Some(number) => return Err(NotAuthorized::Again(number)),
        None => (),
    }
    match evaluate_new(state, limits, trade, request, scrip) {
        Ok(authorization) => Ok(authorization),
        Err(refusal) => Err(NotAuthorized::Refused(refusal)),
    }
}

/// What is given for a draw that a target asks for, or why nothing is, likewise. Its scrip text does not
/// count.
fn evaluate_draw(
    state: &HouseState,
    limits: Limits,
    q: &Request<'_>,
    ask: &DrawAsk,
) -> Result<DrawAuthorization, NotAuthorized>
    requires series { limits.series ≡ state.now.limits.series }
    requires journal { limits.journal ≤ Limits.MOST_JOURNAL }
    requires some { 0 < ask.now.amount }
    ensures new { OnOk result (found state.now.kept state.now.time (without_scrip (asked_of q.now)) ≡ None) }
    ensures ready { IfOk result (IsDrawReady state.now q.now.target.now) }
    ensures room { IfOk result (λ d. size_with state.now d.payload ≤ limits.journal) }
    ensures key { IfOk result (λ d. ask.now.key ≡ Some d.key) }
    ensures amount { IfOk result (λ d. d.amount ≡ ask.now.amount) }
    ensures site { IfErr result StopIsOfSite }
    ensures again { IfErr result (RepeatsKept state.now) }
    ensures exact { (h : History) (o : Order) → StateRepresents state.now h
        → ask.now ≡ asked_of_account h o
        → evaluated (draw_entry state.now.time q.now.target.now) result ≡ model.draw_lines_within state.now.kept.keep h state.now.time limits (asked_of q.now) o }
{
    match state.repeated(&without_scrip(q)) {
        Some(number) => return Err(NotAuthorized::Again(number)),
        None => (),
    }
    let key = match ask.key {
        Some(key) => key,
        None => return Err(NotAuthorized::Refused(Refusal::NoAccount)),
    };
    let sign = match drawable(&key, q) {
        Ok(sign) => sign,
        Err(refusal) => return Err(NotAuthorized::Refused(refusal)),
    };
    match payable(ask) {
        Ok(()) => (),
        Err(refusal) => return Err(NotAuthorized::Refused(refusal)),
    }
    let id = match next_own(state.own(), state.time()) {
        Ok(id) => id,
        Err(refusal) => return Err(NotAuthorized::Refused(refusal)),
    };
    let payload = draw_len(q.target);
    match fitted(state, limits.journal, payload) {
        Ok(()) => (),
        Err(refusal) => return Err(NotAuthorized::Refused(refusal)),
    }
    Ok(DrawAuthorization {
        key,
        sign,
        amount: ask.amount,
        id,
        payload,
    })
}

/// What is given for a request under some limits, or why nothing is: the number of an entry where it
/// comes again. Here alone a house tells whether it does, within the seconds for which it keeps replies.
pub fn evaluate<'q, 'a, T: Trade>(
    state: &HouseState,
    limits: Limits,
    trade: &T,
    q: &'q Presented<'a>,
) -> Result<Authorized<'q, 'a>, NotAuthorized>
    requires series { limits.series ≡ state.now.limits.series }
    requires journal { limits.journal ≤ Limits.MOST_JOURNAL }
    ensures new { IfOk result (IsOfNew state.now q.now) }
    ensures ready { IfOk result (MayCommit state.now q.now.target) }
    ensures room { IfOk result (λ a. size_with state.now (payload_of a) ≤ limits.journal) }
    ensures held { IfOk result (OfDeed (OfGoods (T.trade trade.now).holds)) }
    ensures in_force { (h : History) → (T.trade trade.now).represents h
        → site_kind h ≡ Some (T.trade trade.now).site → IfOk result (OfDeed (NamesInForce h)) }
    ensures brings { (h : History) → (T.trade trade.now).represents h
        → site_kind h ≡ Some (T.trade trade.now).site → IfOk result (BringsAs h q.now.target) }
    ensures site { IfErr result StopIsOfSite }
    ensures again { IfErr result (RepeatsKept state.now) }
    ensures exact { (h : History) → StateRepresents state.now h → (T.trade trade.now).represents h
        → site_kind h ≡ Some (T.trade trade.now).site
        → answered (evaluated (authorized_entry state.now.time q.now.target) result) ≡ model.answer_within state.now.kept.keep h state.now.time limits q.now }
{
    let request = q.request();
    match trade.draw(request.target) {
        Some(ask) => match evaluate_draw(state, limits, request, &ask) {
            Ok(draw) => return Ok(Authorized::Draw(draw)),
            Err(stopped) => return Err(stopped),
        },
        None => (),
    }
    match evaluate_scrip(state, limits, trade, q) {
        Ok(authorization) => Ok(Authorized::Scrip(authorization)),
        Err(stopped) => Err(stopped),
    }
}
