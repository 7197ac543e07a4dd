//! What a broker says of a statement.

ghost use Rattle.std.specs.Prelude.{◌≡◌, ◌∷◌, [], IfErr, Ok};
ghost use Rattle.ledger_model.specs.Histories.{History};
ghost use Rattle.house_core.specs.Refusing.{IsAmong};
ghost use Rattle.settle_core.specs.Claims.{PaymentFits};
ghost use Rattle.settle_core.specs.Statements.{StatementFits, statement_text};
ghost use Rattle.settle_core.specs.Tasks.{paid_by_terms, pay_lines};
ghost use Rattle.counted_trade.specs.Counts.{CountsRepresent};
ghost use Rattle.counted_trade.specs.Tasks.{judged};

use crate::Counts;
use mc_base::Moment;
use mc_requests::Refusal;
use scrip_form::Terms;
use settle_core::{Payment, Statement, is_certified};

/// What there is to do for a statement, whose line this is: the payment that is to be made; None where it was made before;
/// or it is refused. It takes no memory.
pub(crate) fn judge(
    counts: &Counts,
    time: Moment,
    statement: &Statement,
    line: &[u8],
) -> Result<Option<Payment>, Refusal>
    requires fits { StatementFits statement.now }
    requires line { line.now ≡ statement_text statement.now }
    ensures exact { (h : History) → CountsRepresent counts.now h
        → judged statement.now.payment.claim.amount result ≡ pay_lines h time (Ok statement.now) }
    ensures refusals { IfErr result (IsAmong (43 ∷ 74 ∷ 75 ∷ 76 ∷ 77 ∷ [])) }
{
    let payment = &statement.payment;
    let Some(terms) = counts.licence(&payment.vendor) else {
        return Err(Refusal::NoVendor);
    };
    if terms.issuer() != payment.claim.issuer {
        return Err(Refusal::NoVendor);
    }
    if !is_certified(terms, statement, line) {
        return Err(Refusal::BadStatement);
    }
    judge_payment(counts, time, payment, terms)
}

/// The same of a payment under a licence of the vendor's, of the right issuer, whose statement is certified.
fn judge_payment(
    counts: &Counts,
    time: Moment,
    payment: &Payment,
    terms: &Terms,
) -> Result<Option<Payment>, Refusal>
    requires fits { PaymentFits payment.now }
    ensures exact { (h : History) → CountsRepresent counts.now h
        → judged payment.now.claim.amount result ≡ paid_by_terms h time payment.now terms.now }
    ensures refusals { IfErr result (IsAmong (74 ∷ 76 ∷ 77 ∷ [])) }
{
    let claim = &payment.claim;
    if let Some(paid) = counts.paid(&payment.vendor, claim.issuer, claim.epoch) {
        return if paid == claim.amount {
            Ok(None)
        } else {
            Err(Refusal::PaidTwice(paid))
        };
    }
    let end = terms.series_end(claim.epoch);
    let now = time.seconds();
    if now < end {
        return Err(Refusal::SeriesOpen(end, now));
    }
    let sold = counts.sold(&payment.vendor, claim.issuer, claim.epoch);
    if sold < claim.amount {
        return Err(Refusal::OverSold(sold));
    }
    Ok(Some(*payment))
}
