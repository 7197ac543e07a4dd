//! What each kind of entry asks of the entries before it, and the first entry that breaks it.

ghost use Rattle.std.specs.Prelude.{◌≡◌, ◌≤◌, ◌<◌, ◌+◌, ◌↔◌, IsTrue, IsFalse, IsNone, IsSome, None, Some, IfOk, IfSome, slice_get, length, take};
ghost use Rattle.mc_records.specs.declared.ranges.TheConstants.{MOST_IN_ACCOUNT};
ghost use Rattle.mc_records.specs.Entry as entries;
ghost use Rattle.mc_records.specs.Entry.{Entry, Fits, payload};
ghost use Rattle.mc_requests.specs.Limits.{AreInRange};
ghost use Rattle.mc_requests.specs.declared.limits.Limits.{Limits as Bounds};
ghost use Rattle.mc_requests.specs.Requests.{seen};
ghost use Rattle.ledger_model.specs.declared.numbers.TheConstants.{MOST_IN_FORCE};
ghost use Rattle.ledger_model.specs.Houses as houses;
ghost use Rattle.ledger_model.specs.Houses.{is_vendor, is_broker};
ghost use Rattle.ledger_model.specs.Accounts.{account_in, balance};
ghost use Rattle.ledger_model.specs.Goods.{in_force};
ghost use Rattle.ledger_model.specs.Pieces.{has_reference, next_identity, own_count};
ghost use Rattle.ledger_model.specs.Answer.{answer, draw_in, column, Take};
ghost use Rattle.ledger_model.specs.Lawful.{unbounded, IsAllowed, MayFollow, IsLawful, IsFirstUnlawful};
ghost use Rattle.slow_ledger.specs.Slow.{Evaluates, asked_by, IsOperators};

use crate::accounts::{slow_balance, slow_key};
use crate::chains::{slow_is_site, switch_allowed};
use crate::counts::{slow_in_force, slow_own_count};
use crate::filters::{
    moment_at, slow_has_reference, slow_is_broker, slow_is_vendor, slow_terms, slow_time,
};
use crate::prefix::Prefix;
use crate::stages::{Stopped, own_series};
use crate::stock::{slow_are_stock, slow_licence};
use crate::table::evaluate;
use crate::upgrades::upgrade_allowed;
use ledger_model::{BROKER_KIND, History, MOST_IN_FORCE};
use mc_base::{Moment, NoMemory};
use mc_records::{MOST_IN_ACCOUNT, Record, no_payload_begins_another};
use mc_requests::{Limits, Request};
use scrip_certs::hex_of;
use scrip_form::Id;
use std::alloc::Global;

/// The limits with the greatest journal.
fn unbounded_of(limits: Limits) -> Limits
    requires { AreInRange limits }
    ensures value { result ≡ unbounded limits }
    ensures range { AreInRange result }
{
    Limits {
        journal: Limits::MOST_JOURNAL,
        series: limits.series,
    }
}

/// The answer to the request of an entry, as its column gives it.
fn evaluate_entry<'a>(
    alloc: Global,
    h: &Prefix<'_>,
    limits: Limits,
    moment: Moment,
    scrip: Option<&'a [u8]>,
    target: &'a [u8],
    sign: &Option<[u8; 16]>,
) -> Result<Vec<u8>, Stopped>
    requires { AreInRange limits }
    ensures { Evaluates result (column h.now moment (unbounded limits) (asked_by (seen scrip.entry) target.now sign.now) (draw_in h.now target.now)) }
{
    let limits = unbounded_of(limits);
    match sign {
        Some(sign) => {
            let digits = hex_of(sign);
            evaluate(
                alloc,
                h,
                moment,
                limits,
                &Request {
                    target,
                    scrip,
                    sign: Some(&digits),
                },
            )
        }
        None => evaluate(
            alloc,
            h,
            moment,
            limits,
            &Request {
                target,
                scrip,
                sign: None,
            },
        ),
    }
}

/// Whether the answer to the request of an entry is the very entry of this payload.
fn answer_allowed<'a>(
    alloc: Global,
    h: &Prefix<'_>,
    limits: Limits,
    moment: Moment,
    scrip: Option<&'a [u8]>,
    target: &'a [u8],
    sign: &Option<[u8; 16]>,
    spelled: &[u8],
) -> Result<bool, NoMemory>
    requires { AreInRange limits }
    ensures { IfOk result (λ b. (e : Entry) → Fits e → spelled.now ≡ payload e
        → IsTrue b ↔ (answer h.now moment (unbounded limits) (asked_by (seen scrip.entry) target.now sign.now) ≡ Take e)) }
{
    no_payload_begins_another();
    match evaluate_entry(alloc, h, limits, moment, scrip, target, sign) {
        Ok(found) => Ok(found.as_slice() == spelled),
        Err(Stopped::NoMemory) => Err(NoMemory),
        Err(Stopped::Refused(_)) => Ok(false),
        Err(Stopped::Again(_)) => Ok(false),
    }
}

fn has_room(limit: u64, own: u64, count: u64) -> bool
    ensures { IsTrue result ↔ (own + count ≤ limit) }
{
    own <= limit && count <= limit - own
}

/// Whether a vendor may mint these pieces.
fn mint_allowed(
    h: &Prefix<'_>,
    limits: Limits,
    moment: Moment,
    reference: &[u8],
    count: u16,
    first: Id,
) -> Result<bool, NoMemory>
    requires { AreInRange limits }
    ensures { IfOk result (λ b. IsTrue b ↔ (IsTrue (is_vendor h.now)
        × IsFalse (has_reference h.now reference.now)
        × (first ≡ next_identity h.now (houses.own_series h.now moment))
        × (own_count h.now (houses.own_series h.now moment) + count ≤ limits.series))) }
{
    if !slow_is_vendor(h) || slow_has_reference(h, reference) {
        return Ok(false);
    }
    let series = u64::from(own_series(h, moment));
    let own = slow_own_count(h, series)?;
    if !has_room(limits.series, own, u64::from(count)) {
        return Ok(false);
    }
    Ok(first.number() == series * (1 << 32) + own)
}

/// Whether a vendor may bring the goods that are the last of these entries.
fn goods_allowed(before: &Prefix<'_>, h: &Prefix<'_>) -> Result<bool, NoMemory>
    ensures { IfOk result (λ b. IsTrue b ↔ (IsTrue (is_vendor before.now)
        × (in_force h.now ≤ MOST_IN_FORCE))) }
{
    let all = slow_in_force(h)?;
    Ok(slow_is_vendor(before) && all <= MOST_IN_FORCE)
}

/// Whether a broker may enter a deposit.
fn deposit_allowed(
    h: &Prefix<'_>,
    name: &[u8],
    amount: u64,
    reference: &[u8],
) -> Result<bool, NoMemory>
    ensures { IfOk result (λ b. IsTrue b ↔ (IsTrue (is_broker h.now)
        × IsSome (account_in h.now name.now)
        × IsFalse (has_reference h.now reference.now)
        × (balance h.now name.now + amount ≤ MOST_IN_ACCOUNT))) }
{
    if !slow_is_broker(h) || slow_key(h, name).is_none() || slow_has_reference(h, reference) {
        return Ok(false);
    }
    let balance = slow_balance(h, name)?;
    Ok(has_room(MOST_IN_ACCOUNT, balance, amount))
}

/// Whether a broker may enter a withdrawal.
fn withdrawal_allowed(
    h: &Prefix<'_>,
    name: &[u8],
    amount: u64,
    reference: &[u8],
) -> Result<bool, NoMemory>
    ensures { IfOk result (λ b. IsTrue b ↔ (IsTrue (is_broker h.now)
        × IsSome (account_in h.now name.now)
        × IsFalse (has_reference h.now reference.now)
        × (amount ≤ balance h.now name.now))) }
{
    if !slow_is_broker(h) || slow_key(h, name).is_none() || slow_has_reference(h, reference) {
        return Ok(false);
    }
    let balance = slow_balance(h, name)?;
    Ok(amount <= balance)
}

/// Whether a house may enter the entry of a number, that its operator makes, after those before it: an upgrade, a
/// Switch or a Note, or at a broker what only brokers have.
fn operator_allowed(before: &Prefix<'_>, h: &Prefix<'_>, n: usize) -> Result<bool, NoMemory>
    requires { n < length h.now }
    ensures { IfOk result
        (λ b. IfSome (slice_get h.now n) (λ e. (limits : Bounds) → IsOperators e → IsTrue b ↔ IsAllowed limits before.now e)) }
{
    match h.record(n) {
        Record::Account { name, .. } => Ok(
            slow_is_broker(before) && slow_key(before, name).is_none(),
        ),
        Record::Deposit {
            name,
            amount,
            reference,
            ..
        } => deposit_allowed(before, name, amount, reference),
        Record::Withdraw {
            name,
            amount,
            reference,
            ..
        } => withdrawal_allowed(before, name, amount, reference),
        Record::Licence { vendor, .. } => Ok(
            slow_is_broker(before) && slow_licence(before, vendor).is_none(),
        ),
        Record::Stock { vendor, pieces, .. } => Ok(
            slow_is_broker(before) && slow_are_stock(before, vendor, &pieces),
        ),
        Record::Upgrade {
            moment,
            vendor,
            issuer,
            from,
        } => Ok(upgrade_allowed(before, moment, vendor, issuer, from)),
        Record::Switch { chain, .. } => Ok(switch_allowed(before, &chain)),
        Record::Note { .. } => Ok(slow_is_site(before)),
        _ => Ok(false),
    }
}

/// Whether the kind of the entry of a number allows it after those before it.
fn allowed(alloc: Global, h: &Prefix<'_>, n: usize, limits: Limits) -> Result<bool, NoMemory>
    requires number { n < length h.now }
    requires limits { AreInRange limits }
    ensures { IfOk result
        (λ b. IfSome (slice_get h.now n) (λ e. IsTrue b ↔ IsAllowed limits (take n h.now) e)) }
{
    let before = h.first(n);
    match h.record(n) {
        Record::Site { kind, .. } => Ok(n == 0 && kind <= BROKER_KIND),
        Record::Terms { terms, .. } => Ok(
            slow_is_vendor(&before) && slow_terms(&before, terms.issuer()).is_none(),
        ),
        Record::Goods { .. } => goods_allowed(&before, &h.through(n)),
        Record::Accept {
            moment,
            scrip,
            target,
            sign,
            ..
        } => answer_allowed(
            alloc,
            &before,
            limits,
            moment,
            Some(scrip),
            target,
            &sign,
            h.payload(n),
        ),
        Record::Mint {
            moment,
            reference,
            count,
            first,
            ..
        } => mint_allowed(&before, limits, moment, reference, count, first),
        Record::Draw {
            moment,
            target,
            sign,
            ..
        } => answer_allowed(
            alloc,
            &before,
            limits,
            moment,
            None,
            target,
            &Some(sign),
            h.payload(n),
        ),
        Record::Account { .. } => operator_allowed(&before, h, n),
        Record::Deposit { .. } => operator_allowed(&before, h, n),
        Record::Withdraw { .. } => operator_allowed(&before, h, n),
        Record::Licence { .. } => operator_allowed(&before, h, n),
        Record::Stock { .. } => operator_allowed(&before, h, n),
        Record::Upgrade { .. } => operator_allowed(&before, h, n),
        Record::Switch { .. } => operator_allowed(&before, h, n),
        Record::Note { .. } => operator_allowed(&before, h, n),
        _ => Ok(false),
    }
}

/// Whether the entry of a number may follow those before it.
fn may_follow(alloc: Global, h: &Prefix<'_>, n: usize, limits: Limits) -> Result<bool, NoMemory>
    requires number { n < length h.now }
    requires limits { AreInRange limits }
    ensures { IfOk result
        (λ b. IfSome (slice_get h.now n) (λ e. IsTrue b ↔ MayFollow limits (take n h.now) e)) }
{
    let in_order = slow_time(&h.first(n)) <= moment_at(h, n).seconds();
    let allowed = allowed(alloc, h, n, limits)?;
    Ok(in_order && allowed)
}

/// The number of the first entry that may not follow those before it; 0 where there are none.
fn first_unlawful(alloc: Global, h: &Prefix<'_>, limits: Limits) -> Result<Option<usize>, NoMemory>
    requires { AreInRange limits }
    ensures lawful { IfOk result (λ n. IsNone n ↔ IsLawful limits h.now) }
    ensures first { IfOk result (λ n. IfSome n (IsFirstUnlawful limits h.now)) }
{
    for n in 0..h.len() {
        if !may_follow(alloc, h, n, limits)? {
            return Ok(Some(n));
        }
    }
    if h.len() == 0 { Ok(Some(0)) } else { Ok(None) }
}

/// Whether a history is lawful under some limits, by the definitions: None exactly where it is; else
/// the number of the first entry that may not follow those before it, 0 for the empty history. Want
/// of memory is free.
pub fn slow_lawful(alloc: Global, h: &History, limits: Limits) -> Result<Option<usize>, NoMemory>
    requires { AreInRange limits }
    ensures lawful { IfOk result (λ n. IsNone n ↔ IsLawful limits h.now) }
    ensures first { IfOk result (λ n. IfSome n (IsFirstUnlawful limits h.now)) }
{
    first_unlawful(alloc, &Prefix::whole(h), limits)
}
