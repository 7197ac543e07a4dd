//! The column of a draw.

ghost use Rattle.std.specs.Prelude.{◌≡◌, IfOk, Some};
ghost use Rattle.scrip_form.specs.Texts.{IsTarget};
ghost use Rattle.mc_records.specs.Entry as entries;
ghost use Rattle.mc_requests.specs.Limits.{AreInRange};
ghost use Rattle.mc_requests.specs.Requests.{asked_of, seen};
ghost use Rattle.ledger_model.specs.Orders.{order_of};
ghost use Rattle.ledger_model.specs.Stages as stages;
ghost use Rattle.ledger_model.specs.Answer as model;
ghost use Rattle.ledger_model.specs.Lines.{as_line};
ghost use Rattle.slow_ledger.specs.Slow.{Tells, Evaluates, an_order, after_again};

use crate::accounts::{slow_balance, slow_key, slow_last_order};
use crate::counts::slow_repeat;
use crate::filters::slow_keeping;
use crate::offers::errand_is_target;
use crate::prefix::Prefix;
use crate::stages::{Stopped, fitted, next_own};
use mc_base::{Moment, NoMemory};
use mc_records::{PieceList, Record, SiteTerms, write_record};
use mc_requests::{Limits, Refusal, Request};
use scrip_certs::{hex_of, sign_request};
use scrip_form::Id;
use std::alloc::Global;

/// The signature of a draw, where it is signed by the key of its account.
fn drawable(key: &[u8; 16], target: &[u8], sign: Option<&[u8]>) -> Result<[u8; 16], Refusal>
    ensures { as_line (λ x. x) result ≡ stages.drawable_by key.now target.now (seen sign.entry) }
{
    let Some(text) = sign else {
        return Err(Refusal::NeedSignature);
    };
    let right = sign_request(b"-", target, key);
    if text == hex_of(&right).as_slice() {
        Ok(right)
    } else {
        Err(Refusal::BadSignature)
    }
}

/// Whether an account pays a draw: its order is above the last one, and its balance covers the amount.
fn payable(h: &Prefix<'_>, account: &[u8], order: u64, amount: u64) -> Result<(), Stopped>
    ensures { Tells (λ _. tt) result (stages.payable_by (an_order account.now order amount) (model.known_in h.now account.now)) }
{
    let last = slow_last_order(h, account);
    if order <= last {
        return Err(Stopped::Refused(Refusal::StaleOrder(last)));
    }
    match slow_balance(h, account) {
        Ok(balance) => if balance < amount {
            Err(Stopped::Refused(Refusal::PoorAccount(balance)))
        } else {
            Ok(())
        },
        Err(NoMemory) => Err(Stopped::NoMemory),
    }
}

/// The payload of a Draw entry.
fn draw_payload(
    alloc: Global,
    moment: Moment,
    target: &[u8],
    sign: [u8; 16],
    drawn: Id,
) -> Result<Vec<u8>, NoMemory>
    requires { IsTarget target.now }
    ensures payload { IfOk result
        (λ v. v.items ≡ entries.payload (entries.Draw moment target.now sign drawn)) }
    ensures fits { entries.Fits (entries.Draw moment target.now sign drawn) }
{
    let _seconds = moment.seconds();
    let _number = drawn.number();
    let _parts: Option<(PieceList<'_>, SiteTerms<'_>)> = None;
    let mut payload = Vec::new(alloc);
    let record = Record::Draw {
        moment,
        target,
        sign,
        drawn,
    };
    write_record(&record, &mut payload)?;
    Ok(payload)
}

/// The payload of the entry of a draw that may be paid.
fn drawn(
    alloc: Global,
    h: &Prefix<'_>,
    time: Moment,
    limits: Limits,
    q: &Request<'_>,
    sign: [u8; 16],
) -> Result<Vec<u8>, Stopped>
    requires limits { AreInRange limits }
    requires target { IsTarget q.now.target.now }
    ensures { Evaluates result (model.drawn h.now time limits (asked_of q.now) sign) }
{
    let id = match next_own(h, time, limits) {
        Ok(id) => id,
        Err(stopped) => return Err(stopped),
    };
    let payload = match draw_payload(alloc, time, q.target, sign, id) {
        Ok(payload) => payload,
        Err(NoMemory) => return Err(Stopped::NoMemory),
    };
    match fitted(h, limits, &payload) {
        Ok(()) => Ok(payload),
        Err(stopped) => Err(stopped),
    }
}

/// The payload of the entry of a draw that is no repeat, or why there is none.
fn evaluate_new(
    alloc: Global,
    h: &Prefix<'_>,
    time: Moment,
    limits: Limits,
    q: &Request<'_>,
    account: &[u8],
    order: u64,
    amount: u64,
) -> Result<Vec<u8>, Stopped>
    requires limits { AreInRange limits }
    requires target { IsTarget q.now.target.now }
    ensures { Evaluates result (after_again h.now time limits (asked_of q.now) (an_order account.now order amount)) }
{
    let Some(key) = slow_key(h, account) else {
        return Err(Stopped::Refused(Refusal::NoAccount));
    };
    let sign = match drawable(&key, q.target, q.sign) {
        Ok(sign) => sign,
        Err(refusal) => return Err(Stopped::Refused(refusal)),
    };
    match payable(h, account, order, amount) {
        Ok(()) => drawn(alloc, h, time, limits, q, sign),
        Err(stopped) => Err(stopped),
    }
}

/// The number of the entry of the same draw, within the keeping time.
fn repeated(h: &Prefix<'_>, time: Moment, q: &Request<'_>) -> Option<u64>
    ensures { result ≡ model.drawn_before h.now time (asked_of q.now) }
{
    let asked = Request {
        target: q.target,
        scrip: None,
        sign: q.sign,
    };
    slow_repeat(h, slow_keeping(h), time, &asked)
}

/// The payload of the entry of a draw, or why there is none: the number of an entry where the draw
/// comes again.
pub(crate) fn evaluate_draw(
    alloc: Global,
    h: &Prefix<'_>,
    time: Moment,
    limits: Limits,
    q: &Request<'_>,
    account: &[u8],
    order: u64,
    amount: u64,
) -> Result<Vec<u8>, Stopped>
    requires limits { AreInRange limits }
    requires draw { order_of q.now.target.now ≡ Some (an_order account.now order amount) }
    ensures { Evaluates result (model.draw_lines h.now time limits (asked_of q.now) (an_order account.now order amount)) }
{
    errand_is_target(q.target);
    match repeated(h, time, q) {
        Some(number) => Err(Stopped::Again(number)),
        None => evaluate_new(alloc, h, time, limits, q, account, order, amount),
    }
}
