//! The table of answers, a stage after the other, and the answer that it gives.

ghost use Rattle.std.specs.Prelude.{◌≡◌, IfOk, IfSome};
ghost use Rattle.scrip_form.specs.Scrip.{IsScripText};
ghost use Rattle.scrip_form.specs.Texts.{IsTarget};
ghost use Rattle.mc_records.specs.Entry as entries;
ghost use Rattle.mc_requests.specs.Limits.{AreInRange};
ghost use Rattle.mc_requests.specs.Requests.{asked_of};
ghost use Rattle.mc_records.specs.Views.{deed_of};
ghost use Rattle.ledger_model.specs.Houses.{keeping};
ghost use Rattle.ledger_model.specs.Answer as model;
ghost use Rattle.slow_ledger.specs.Shown.{Shows};
ghost use Rattle.ledger_model.specs.Answer.{after_read, after_repeat, draw_in, column};
ghost use Rattle.slow_ledger.specs.Slow.{Evaluates};

use crate::counts::slow_repeat;
use crate::draws::evaluate_draw;
use crate::filters::{slow_is_broker, slow_keeping};
use crate::offers::{Purchase, offered};
use crate::prefix::Prefix;
use crate::stages::{Stopped, change_for, fitted, genuine, spendable};
use ledger_model::History;
use mc_base::{List, Moment, NoMemory};
use mc_records::{PieceList, Record, RecordDeed, SiteTerms, write_record};
use mc_requests::{Errand, Limits, Refusal, Request, read_errand};
use scrip_form::{Id, ScripRef, read_scrip};
use std::alloc::Global;

/// The answer of the definitions to a request.
#[derive(Drop)]
pub enum ModelAnswer {
    /// It is refused.
    Refused(Refusal),
    /// It was accepted within the keeping time, by the entry of this number, from 0.
    Again(u64),
    /// It is accepted, by the entry of this payload.
    Take(List<u8>),
}

/// What sixteen bytes know of themselves.
fn is_key(key: &[u8; 16])
    ensures { entries.IsKey key.now }
{}

/// What a signature knows of itself.
fn keys(sign: &Option<[u8; 16]>)
    ensures { IfSome sign.now entries.IsKey }
{
    match sign {
        Some(key) => is_key(key),
        None => (),
    }
}

/// What an identity knows of itself.
fn longs(change: &Option<Id>)
    ensures { IfSome change.now entries.IsLong }
{
    match change {
        Some(id) => {
            let _number = id.number();
        }
        None => (),
    }
}

/// What a balance knows of itself.
fn long(_balance: u64)
    ensures { entries.IsLong _balance }
{}

/// What a deed knows of itself.
fn deeds(deed: &RecordDeed)
    ensures { entries.DeedFits (deed_of deed.now) }
{
    match deed {
        RecordDeed::Goods => (),
        RecordDeed::Sale { id, .. } => {
            let _number = id.number();
        }
        RecordDeed::Credit { balance } => long(*balance),
    }
}

/// The parts of an Accept entry are in their ranges.
fn fit(
    moment: Moment,
    scrip: &[u8],
    target: &[u8],
    sign: &Option<[u8; 16]>,
    price: u64,
    change: &Option<Id>,
    deed: &RecordDeed,
)
    requires scrip { IsScripText scrip.now }
    requires target { IsTarget target.now }
    ensures { entries.Fits (entries.Accept moment scrip.now target.now sign.now price change.now (deed_of deed.now)) }
{
    let _seconds = moment.seconds();
    keys(sign);
    longs(change);
    deeds(deed);
}

/// The payload of an Accept entry.
fn accept_payload(
    alloc: Global,
    moment: Moment,
    scrip: &[u8],
    target: &[u8],
    sign: &Option<[u8; 16]>,
    offered: Purchase,
    change: Option<Id>,
) -> Result<Vec<u8>, NoMemory>
    requires scrip { IsScripText scrip.now }
    requires target { IsTarget target.now }
    ensures payload { IfOk result
        (λ v. v.items ≡ entries.payload (entries.Accept moment scrip.now target.now sign.now offered.price change (deed_of offered.deed))) }
    ensures fits { entries.Fits (entries.Accept moment scrip.now target.now sign.now offered.price change (deed_of offered.deed)) }
{
    let Purchase { price, deed } = offered;
    fit(moment, scrip, target, sign, price, &change, &deed);
    let _parts: Option<(PieceList<'_>, SiteTerms<'_>)> = None;
    let mut payload = Vec::new(alloc);
    let record = Record::Accept {
        moment,
        scrip,
        target,
        sign: *sign,
        price,
        change,
        deed,
    };
    write_record(&record, &mut payload)?;
    Ok(payload)
}

/// The payload of the entry that takes a piece.
fn taken(
    alloc: Global,
    h: &Prefix<'_>,
    time: Moment,
    limits: Limits,
    q: &Request<'_>,
    s: &ScripRef<'_>,
    sign: &Option<[u8; 16]>,
) -> Result<Vec<u8>, Stopped>
    requires { AreInRange limits }
    ensures { Evaluates result (model.taken h.now time limits (asked_of q.now) s.now sign.now) }
{
    let value = s.piece().value().get();
    let offered = match offered(h, time, limits, q.target, value) {
        Ok(offered) => offered,
        Err(stopped) => return Err(stopped),
    };
    let change = match change_for(h, time, limits, offered.price, value) {
        Ok(change) => change,
        Err(stopped) => return Err(stopped),
    };
    let payload = match accept_payload(alloc, time, s.text(), q.target, sign, offered, change) {
        Ok(payload) => payload,
        Err(NoMemory) => return Err(Stopped::NoMemory),
    };
    match fitted(h, limits, &payload) {
        Ok(()) => Ok(payload),
        Err(stopped) => Err(stopped),
    }
}

/// The payload of the entry for a piece that was read and is no repeat, or why there is none.
fn evaluate_new(
    alloc: Global,
    h: &Prefix<'_>,
    time: Moment,
    limits: Limits,
    q: &Request<'_>,
    s: &ScripRef<'_>,
) -> Result<Vec<u8>, Stopped>
    requires { AreInRange limits }
    ensures { Evaluates result (after_repeat h.now time limits (asked_of q.now) s.now) }
{
    let secret = match genuine(h, s) {
        Ok(secret) => secret,
        Err(refusal) => return Err(Stopped::Refused(refusal)),
    };
    let sign = match spendable(h, time, &secret, q.target, q.sign, s) {
        Ok(sign) => sign,
        Err(refusal) => return Err(Stopped::Refused(refusal)),
    };
    taken(alloc, h, time, limits, q, s, &sign)
}

/// The number of the entry of the same request, within the keeping time.
fn repeated(h: &Prefix<'_>, time: Moment, q: &Request<'_>, s: &ScripRef<'_>) -> Option<u64>
    ensures { result ≡ model.repeated h.now time s.now (asked_of q.now) }
{
    let asked = Request {
        target: q.target,
        scrip: Some(s.text()),
        sign: q.sign,
    };
    slow_repeat(h, slow_keeping(h), time, &asked)
}

/// The payload of the entry for a piece that was read, or why there is none: the number of an entry
/// where the request comes again.
fn evaluate_read(
    alloc: Global,
    h: &Prefix<'_>,
    time: Moment,
    limits: Limits,
    q: &Request<'_>,
    s: &ScripRef<'_>,
) -> Result<Vec<u8>, Stopped>
    requires { AreInRange limits }
    ensures { Evaluates result (after_read (keeping h.now) h.now time limits (asked_of q.now) s.now) }
{
    match repeated(h, time, q, s) {
        Some(number) => Err(Stopped::Again(number)),
        None => evaluate_new(alloc, h, time, limits, q, s),
    }
}

/// The payload of the entry of a request with scrip, or why there is none.
fn evaluate_scrip(
    alloc: Global,
    h: &Prefix<'_>,
    time: Moment,
    limits: Limits,
    q: &Request<'_>,
) -> Result<Vec<u8>, Stopped>
    requires { AreInRange limits }
    ensures { Evaluates result (model.lines h.now time limits (asked_of q.now)) }
{
    let Some(text) = q.scrip else {
        return Err(Stopped::Refused(Refusal::NoScrip));
    };
    match read_scrip(text) {
        Ok(s) => evaluate_read(alloc, h, time, limits, q, &s),
        Err(fault) => Err(Stopped::Refused(Refusal::BadScrip(fault.place as u64))),
    }
}

/// The payload of the entry of a request, by its column, or why there is none.
pub(crate) fn evaluate(
    alloc: Global,
    h: &Prefix<'_>,
    time: Moment,
    limits: Limits,
    q: &Request<'_>,
) -> Result<Vec<u8>, Stopped>
    requires { AreInRange limits }
    ensures { Evaluates result (column h.now time limits (asked_of q.now) (draw_in h.now q.now.target.now)) }
{
    if !slow_is_broker(h) {
        return evaluate_scrip(alloc, h, time, limits, q);
    }
    match read_errand(q.target) {
        Some(
            Errand::Draw {
                account,
                order,
                amount,
            },
        ) => evaluate_draw(alloc, h, time, limits, q, account, order, amount),
        _ => evaluate_scrip(alloc, h, time, limits, q),
    }
}

/// The answer of a history to a request at a house time, under some limits, by the definitions.
/// It goes over the whole history for each thing that it asks of it. Want of memory is free.
#[tactic(auto, unfolding(ledger_model::specs::Answer::answer))]
pub fn slow_answer(
    alloc: Global,
    h: &History,
    time: Moment,
    limits: Limits,
    q: &Request<'_>,
) -> Result<ModelAnswer, NoMemory>
    requires { AreInRange limits }
    ensures { IfOk result (λ a. Shows a (model.answer h.now time limits (asked_of q.now))) }
{
    match evaluate(alloc, &Prefix::whole(h), time, limits, q) {
        Ok(payload) => Ok(ModelAnswer::Take(List::of(payload))),
        Err(Stopped::Refused(refusal)) => Ok(ModelAnswer::Refused(refusal)),
        Err(Stopped::Again(number)) => Ok(ModelAnswer::Again(number)),
        Err(Stopped::NoMemory) => Err(NoMemory),
    }
}
