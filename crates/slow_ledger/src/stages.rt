//! The stages of the table of answers.

ghost use Rattle.std.specs.Prelude.{◌≡◌, ◌+◌, ◌<◌, ◌^◌, nat_lt};
ghost use Rattle.mc_records.specs.Entry as entries;
ghost use Rattle.mc_requests.specs.Limits.{AreInRange};
ghost use Rattle.mc_requests.specs.Requests.{seen};
ghost use Rattle.ledger_model.specs.Houses as houses;
ghost use Rattle.ledger_model.specs.Houses.{site_name, is_clear};
ghost use Rattle.ledger_model.specs.Pieces.{is_spent};
ghost use Rattle.ledger_model.specs.Stages as stages;
ghost use Rattle.ledger_model.specs.Answer as model;
ghost use Rattle.ledger_model.specs.Lines.{as_line};
ghost use Rattle.slow_ledger.specs.Slow.{Tells, certified_by};

use crate::chains::slow_has_switch;
use crate::counts::{slow_own_count, slow_size};
use crate::filters::{slow_is_clear, slow_is_spent, slow_name, slow_terms};
use crate::prefix::Prefix;
use crate::upgrades::slow_version;
use mc_base::{Moment, NoMemory};
use mc_records::tail_len;
use mc_requests::{Limits, Refusal};
use scrip_certs::{certificate, customer_secret, hex_of, sign_request};
use scrip_form::{Id, ScripRef, Terms};

/// Why the table gives no entry.
#[derive(Drop)]
pub(crate) enum Stopped {
    Refused(Refusal),
    Again(u64),
    NoMemory,
}

/// Whether a piece of these issuers is in the version of its series, and has its certificate: the secret of its customer.
fn certified(
    h: &Prefix<'_>,
    s: &ScripRef<'_>,
    terms: &Terms,
    customers: &Terms,
) -> Result<[u8; 16], Refusal>
    ensures { as_line
        (λ x. x) result ≡ certified_by (houses.version h.now (site_name h.now)) terms.now customers.now s.now }
{
    let piece = s.piece();
    let (id, cust) = (piece.id(), piece.cust());
    let version = slow_version(h, slow_name(h), id.series());
    if piece.version() != version {
        return Err(Refusal::WrongVersion(u64::from(version)));
    }
    if !(s.cert().as_slice() == certificate(terms, s.body(), id).as_slice()) {
        return Err(Refusal::BadCertificate);
    }
    let version = slow_version(h, slow_name(h), cust.series());
    Ok(customer_secret(customers, cust, version))
}

/// Whether the piece is one of the house's: the secret of its customer.
pub(crate) fn genuine(h: &Prefix<'_>, s: &ScripRef<'_>) -> Result<[u8; 16], Refusal>
    ensures { as_line (λ x. x) result ≡ model.genuine h.now s.now }
{
    let piece = s.piece();
    let (id, cust) = (piece.id(), piece.cust());
    if !(piece.vendor().bytes() == slow_name(h)) {
        return Err(Refusal::WrongVendor);
    }
    let (issuer, epoch, _) = id.parts();
    let Some(terms) = slow_terms(h, issuer) else {
        return Err(Refusal::UnknownIssuer);
    };
    let (customer, _, _) = cust.parts();
    let Some(customers) = slow_terms(h, customer) else {
        return Err(Refusal::UnknownIssuer);
    };
    let end = terms.series_end(epoch);
    if piece.expires() != end {
        return Err(Refusal::ExpiryMismatch(piece.expires(), end));
    }
    certified(h, s, &terms, &customers)
}

/// Whether the piece may be spent by a request: the signature for the entry.
pub(crate) fn spendable(
    h: &Prefix<'_>,
    time: Moment,
    secret: &[u8; 16],
    target: &[u8],
    sign: Option<&[u8]>,
    s: &ScripRef<'_>,
) -> Result<Option<[u8; 16]>, Refusal>
    ensures { as_line
        (λ x. x) result ≡ stages.spendable_by (is_clear h.now) (is_spent h.now s.now.piece.id) time secret.now target.now (seen sign.entry) s.now }
{
    let piece = s.piece();
    let now = time.seconds();
    if piece.expires() <= now {
        return Err(Refusal::Expired(piece.expires(), now));
    }
    if slow_is_spent(h, piece.id()) {
        return Err(Refusal::Spent);
    }
    let right = sign_request(s.text(), target, secret);
    match sign {
        None => if slow_is_clear(h) {
            Ok(None)
        } else {
            Err(Refusal::NeedSignature)
        },
        Some(text) => if text == hex_of(&right).as_slice() {
            Ok(Some(right))
        } else {
            Err(Refusal::BadSignature)
        },
    }
}

/// The series of the house's own at a moment.
pub(crate) fn own_series(h: &Prefix<'_>, time: Moment) -> u32
    ensures series { result ≡ houses.own_series h.now time }
    ensures small { result < 2 ^ 24 }
{
    match slow_terms(h, 0) {
        Some(terms) => terms.epoch_of(time),
        None => 0,
    }
}

/// The next identity of the house's own series at a moment.
pub(crate) fn next_own(h: &Prefix<'_>, time: Moment, limits: Limits) -> Result<Id, Stopped>
    requires { AreInRange limits }
    ensures { Tells (λ x. x) result (model.next_own h.now time limits) }
{
    let series = own_series(h, time);
    let count = match slow_own_count(h, u64::from(series)) {
        Ok(count) => count,
        Err(NoMemory) => return Err(Stopped::NoMemory),
    };
    if limits.series <= count {
        return Err(Stopped::Refused(Refusal::SeriesFull(u64::from(series))));
    }
    Ok(Id::of_parts(0, series, count as u32).unwrap())
}

/// The identity of the change, where the value is above the price.
pub(crate) fn change_for(
    h: &Prefix<'_>,
    time: Moment,
    limits: Limits,
    price: u64,
    value: u64,
) -> Result<Option<Id>, Stopped>
    requires { AreInRange limits }
    ensures { Tells
        (λ x. x) result (stages.needed (nat_lt price value) (model.next_own h.now time limits)) }
{
    if price < value {
        match next_own(h, time, limits) {
            Ok(id) => Ok(Some(id)),
            Err(stopped) => Err(stopped),
        }
    } else {
        Ok(None)
    }
}

/// Whether so many bytes more pass a limit.
fn pass(limit: u64, size: u64, more: u64) -> bool
    ensures { result ≡ nat_lt limit (size + more) }
{
    limit < size || limit - size < more
}

/// Whether an entry fits behind the history.
pub(crate) fn fitted(h: &Prefix<'_>, limits: Limits, payload: &[u8]) -> Result<(), Stopped>
    ensures { (e : entries.Entry) → payload.now ≡ entries.payload e
        → Tells (λ _. e) result (model.fitted h.now limits e) }
{
    let size = match slow_size(h) {
        Ok(size) => size,
        Err(NoMemory) => return Err(Stopped::NoMemory),
    };
    let len = payload.len() as u64;
    let more = len + tail_len(slow_has_switch(h)) + 5;
    if pass(limits.journal, size, more) {
        return Err(Stopped::Refused(Refusal::JournalFull(size, len)));
    }
    Ok(())
}
