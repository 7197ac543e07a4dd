//! The stages of the answer to a request, each over what it asks.

ghost use Rattle.std.specs.Prelude.{◌≡◌, ◌<◌, ◌≤◌, ◌==◌, nat_lt, find, length, option_map, IfOk, IfErr, IfSome, MatchOption, OnOk, OnErr};
ghost use Rattle.scrip_form.specs.Issuing.{series_at};
ghost use Rattle.mc_records.specs.Entry.{IsKey};
ghost use Rattle.mc_records.specs.Entry as entries;
ghost use Rattle.mc_requests.specs.Requests.{seen};
ghost use Rattle.change_issue.specs.Registers.{count_in, next_in};
ghost use Rattle.ledger_model.specs.Houses.{terms_by};
ghost use Rattle.ledger_model.specs.Stages.{genuine_by, spendable_by, next_by, needed, drawable_by, payable_by, fitted_by};
ghost use Rattle.ledger_model.specs.Lines.{as_line};
ghost use Rattle.house_state.specs.HouseState.{version_of, tail_of, size_with};
ghost use Rattle.house_state.specs.Replying.{IsOfSite};
ghost use Rattle.house_state.specs.Verdicts.{WasAsked, order_in, known_by};
ghost use Rattle.spent_windows.specs.Windows.{is_marked};

use crate::house_state::HouseState;
use crate::offer::DrawAsk;
use crate::verdict::Spendable;
use change_issue::Issuer;
use mc_base::Moment;
use mc_records::grown_size;
use mc_requests::{Refusal, Request};
use scrip_certs::{certificate, hex_of, sign_request};
use scrip_form::{Id, ScripRef, Terms};
use spent_windows::Look;

/// The terms of an issuer; None exactly where there are none.
pub fn terms_of(terms: &[Terms], issuer: u8) -> Option<&Terms>
    ensures { option_map (λ t. t.now) result ≡ terms_by terms.now issuer }
{
    terms.iter().find(|t| t.issuer() == issuer)
}

/// The secret of a piece's customer; refused where the vendor, an issuer, the end of the series, its version
/// or the certificate is not right.
pub(crate) fn genuine(state: &HouseState, scrip: &ScripRef<'_>) -> Result<[u8; 16], Refusal>
    ensures lines { as_line
        (λ s. s) result ≡ genuine_by state.now.name (version_of state.now) state.now.terms scrip.now }
    ensures site { IfErr result IsOfSite }
{
    let piece = scrip.piece();
    if piece.vendor().bytes() != state.name() {
        return Err(Refusal::WrongVendor);
    }
    let (issuer, epoch, _) = piece.id().parts();
    let Some(own) = terms_of(state.terms(), issuer) else {
        return Err(Refusal::UnknownIssuer);
    };
    let (customer, _, _) = piece.cust().parts();
    let Some(customers) = terms_of(state.terms(), customer) else {
        return Err(Refusal::UnknownIssuer);
    };
    let end = own.series_end(epoch);
    if piece.expires() != end {
        return Err(Refusal::ExpiryMismatch(piece.expires(), end));
    }
    let version = state.version(piece.id().series());
    if piece.version() != version {
        return Err(Refusal::WrongVersion(u64::from(version)));
    }
    let right = certificate(own, scrip.body(), piece.id());
    if scrip.cert().as_slice() != right.as_slice() {
        return Err(Refusal::BadCertificate);
    }
    Ok(state.secret_of(customers, piece.cust()))
}

/// What a request brings whose piece may be spent by it; refused where the piece is expired or was
/// accepted, or the signature is missing where there must be one, or not right.
pub(crate) fn spendable(
    state: &HouseState,
    secret: &[u8; 16],
    q: &Request<'_>,
    scrip: &ScripRef<'_>,
) -> Result<Spendable, Refusal>
    ensures lines { as_line
        (λ s. s.sign) result ≡ spendable_by state.now.clear (is_marked state.now.spent scrip.now.piece.id) state.now.time secret.now q.now.target.now (seen q.now.sign) scrip.now }
    ensures sign { IfOk result (λ s. IfSome s.sign IsKey) }
    ensures live { OnOk result (state.now.time < scrip.now.piece.expires) }
    ensures fresh { IfOk result (λ s. WasAsked state.now scrip.now.piece.id s.fresh) }
    ensures site { IfErr result IsOfSite }
{
    let piece = scrip.piece();
    let time = state.time().seconds();
    if piece.expires() <= time {
        return Err(Refusal::Expired(piece.expires(), time));
    }
    let fresh = match state.look(piece.id()) {
        Look::New(fresh) => fresh,
        Look::Marked => return Err(Refusal::Spent),
    };
    let Some(sign) = q.sign else {
        return if state.is_clear() {
            Ok(Spendable { sign: None, fresh })
        } else {
            Err(Refusal::NeedSignature)
        };
    };
    let right = sign_request(scrip.text(), q.target, secret);
    if sign == hex_of(&right).as_slice() {
        Ok(Spendable {
            sign: Some(right),
            fresh,
        })
    } else {
        Err(Refusal::BadSignature)
    }
}

/// The identity of the next piece of the series of a moment; refused where that is full.
pub(crate) fn next_own(own: &Issuer, time: Moment) -> Result<Id, Refusal>
    ensures lines { as_line
        (λ id. id) result ≡ next_by own.now.most (series_at own.now.terms time) (count_in own.now (series_at own.now.terms time)) }
    ensures site { IfErr result IsOfSite }
    ensures next { IfOk result (λ id. (count_in own.now (series_at own.now.terms time) < own.now.most)
        × (id ≡ next_in own.now (series_at own.now.terms time))) }
{
    match own.next(time) {
        Ok(id) => Ok(id),
        Err(full) => Err(Refusal::SeriesFull(u64::from(full.series))),
    }
}

/// The identity of the change of a value, where it is above the price; refused where the series of the
/// moment is full.
pub(crate) fn change(
    own: &Issuer,
    time: Moment,
    price: u64,
    value: u64,
) -> Result<Option<Id>, Refusal>
    ensures lines { as_line
        (λ id. id) result ≡ needed (nat_lt price value) (next_by own.now.most (series_at own.now.terms time) (count_in own.now (series_at own.now.terms time))) }
    ensures site { IfErr result IsOfSite }
    ensures next { IfOk result (λ c. MatchOption c (value ≤ price) (λ id. (price < value)
        × (count_in own.now (series_at own.now.terms time) < own.now.most)
        × (id ≡ next_in own.now (series_at own.now.terms time)))) }
{
    if value <= price {
        return Ok(None);
    }
    match next_own(own, time) {
        Ok(id) => Ok(Some(id)),
        Err(refusal) => Err(refusal),
    }
}

/// The signature of a draw under the key of its account; refused where the request has none, or another.
pub(crate) fn drawable(key: &[u8; 16], q: &Request<'_>) -> Result<[u8; 16], Refusal>
    ensures lines { as_line (λ s. s) result ≡ drawable_by key.now q.now.target.now (seen q.now.sign) }
    ensures sign { IfOk result IsKey }
    ensures site { IfErr result IsOfSite }
{
    let Some(sign) = q.sign else {
        return Err(Refusal::NeedSignature);
    };
    let right = sign_request(b"-", q.target, key);
    if sign == hex_of(&right).as_slice() {
        Ok(right)
    } else {
        Err(Refusal::BadSignature)
    }
}

/// Refused where the order of a draw is not above the last one of the account, or the account has less than
/// the amount.
pub(crate) fn payable(ask: &DrawAsk) -> Result<(), Refusal>
    ensures lines { as_line (λ u. u) result ≡ payable_by (order_in ask.now) (known_by ask.now) }
    ensures site { IfErr result IsOfSite }
{
    if ask.order <= ask.last {
        return Err(Refusal::StaleOrder(ask.last));
    }
    if ask.balance < ask.amount.get() {
        return Err(Refusal::PoorAccount(ask.balance));
    }
    Ok(())
}

/// Refused where the journal would pass a limit with one entry more, with a payload of so many bytes.
pub fn fitted(state: &HouseState, limit: u64, payload: u64) -> Result<(), Refusal>
    ensures lines { (e : entries.Entry) → payload ≡ length (entries.payload e)
        → as_line (λ u. e) result ≡ fitted_by limit state.now.size (tail_of state.now) e }
    ensures room { OnOk result (size_with state.now payload ≤ limit) }
    ensures full { OnErr result (limit < size_with state.now payload) }
    ensures site { IfErr result IsOfSite }
{
    match grown_size(state.size(), payload, state.is_switched(), limit) {
        Ok(_size) => Ok(()),
        Err(full) => Err(full),
    }
}
