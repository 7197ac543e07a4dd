//! What a house offers for a target.

ghost use Rattle.std.specs.Prelude.{ℕ, Some, None, IfOk, IfSome, option_map};
ghost use Rattle.scrip_form.specs.Texts.{IsTarget};
ghost use Rattle.mc_requests.specs.Limits.{AreInRange};
ghost use Rattle.mc_requests.specs.Errands.{errand_of};
ghost use Rattle.mc_records.specs.Views.{deed_of};
ghost use Rattle.ledger_model.specs.Goods.{price_in};
ghost use Rattle.ledger_model.specs.Houses as houses;
ghost use Rattle.ledger_model.specs.Accounts as accounts;
ghost use Rattle.ledger_model.specs.Stock.{licence_in};
ghost use Rattle.ledger_model.specs.Stages as stages;
ghost use Rattle.ledger_model.specs.Answer as model;
ghost use Rattle.slow_ledger.specs.Slow.{Tells, offer_of, supplied_in};

use crate::accounts::{slow_balance, slow_key};
use crate::counts::sum;
use crate::filters::{slow_fee, slow_is_vendor, slow_price};
use crate::prefix::Prefix;
use crate::stages::Stopped;
use crate::stock::{slow_for_sale, slow_knows_vendor, slow_licence, slow_licensed_count};
use mc_base::{Moment, NoMemory};
use mc_records::{MOST_IN_ACCOUNT, RecordDeed};
use mc_requests::{Errand, Limits, Refusal, errands_are_texts, read_errand};
use scrip_form::{Id, Terms};

/// A price, and what it buys.
#[derive(Clone, Copy, Drop)]
pub(crate) struct Purchase {
    pub(crate) price: u64,
    pub(crate) deed: RecordDeed,
}

/// What a vendor offers: its goods.
fn shelf(h: &Prefix<'_>, target: &[u8], value: u64) -> Result<Purchase, Stopped>
    ensures offer { Tells offer_of result (stages.shelf_by (price_in h.now target.now) value) }
    ensures target { IfOk result (λ _. IsTarget target.now) }
{
    let Some(price) = slow_price(h, target) else {
        return Err(Stopped::Refused(Refusal::NoSuchGoods));
    };
    if value < price {
        return Err(Stopped::Refused(Refusal::TooLittle(price)));
    }
    Ok(Purchase {
        price,
        deed: RecordDeed::Goods,
    })
}

/// The next piece under a licence.
fn licensed(
    h: &Prefix<'_>,
    time: Moment,
    limits: Limits,
    vendor: &[u8],
    asked: u64,
    terms: &Terms,
) -> Result<RecordDeed, Stopped>
    requires { AreInRange limits }
    ensures { Tells deed_of result (supplied_in h.now limits.series time vendor.now asked (Some terms.now)) }
{
    let series = terms.series_at(time);
    let count = match slow_licensed_count(h, vendor, u64::from(series)) {
        Ok(count) => count,
        Err(NoMemory) => return Err(Stopped::NoMemory),
    };
    if limits.series <= count {
        return Err(Stopped::Refused(Refusal::SeriesFull(u64::from(series))));
    }
    let id = Id::of_number(u64::from(series) * (1 << 32) + count);
    Ok(RecordDeed::Sale { stock: false, id })
}

/// The first piece in stock that is for sale.
fn stocked(h: &Prefix<'_>, time: Moment, vendor: &[u8], asked: u64) -> Result<RecordDeed, Stopped>
    ensures { (limit : ℕ) → Tells deed_of result (supplied_in h.now limit time vendor.now asked None) }
{
    if !slow_knows_vendor(h, vendor) {
        return Err(Stopped::Refused(Refusal::NoVendor));
    }
    match slow_for_sale(h, time, vendor, asked) {
        Some(id) => Ok(RecordDeed::Sale { stock: true, id }),
        None => Err(Stopped::Refused(Refusal::NoStock(asked))),
    }
}

/// What a broker sells of a vendor.
fn supplied(
    h: &Prefix<'_>,
    time: Moment,
    limits: Limits,
    vendor: &[u8],
    asked: u64,
) -> Result<RecordDeed, Stopped>
    requires { AreInRange limits }
    ensures { Tells deed_of result (supplied_in h.now limits.series time vendor.now asked (licence_in h.now vendor.now)) }
{
    match slow_licence(h, vendor) {
        Some(terms) => licensed(h, time, limits, vendor, asked, &terms),
        None => stocked(h, time, vendor, asked),
    }
}

/// A broker's sale, which costs the fee too.
fn sold(
    h: &Prefix<'_>,
    time: Moment,
    limits: Limits,
    vendor: &[u8],
    asked: u64,
    value: u64,
) -> Result<Purchase, Stopped>
    requires { AreInRange limits }
    ensures { Tells offer_of result (stages.sale_by limits.series time (houses.fee h.now) (model.supply_of h.now time vendor.now asked) asked value) }
{
    let price = match sum(asked, slow_fee(h)) {
        Ok(price) => price,
        Err(NoMemory) => return Err(Stopped::NoMemory),
    };
    if value < price {
        return Err(Stopped::Refused(Refusal::TooLittle(price)));
    }
    match supplied(h, time, limits, vendor, asked) {
        Ok(deed) => Ok(Purchase { price, deed }),
        Err(stopped) => Err(stopped),
    }
}

/// A broker's credit of a whole piece in an account that stands.
fn credit(h: &Prefix<'_>, account: &[u8], value: u64) -> Result<Purchase, Stopped>
    ensures { Tells offer_of result (stages.credit_by (Some (accounts.balance h.now account.now)) value) }
{
    let balance = match slow_balance(h, account) {
        Ok(balance) => balance,
        Err(NoMemory) => return Err(Stopped::NoMemory),
    };
    let after = match sum(balance, value) {
        Ok(after) => after,
        Err(NoMemory) => return Err(Stopped::NoMemory),
    };
    if after > MOST_IN_ACCOUNT {
        return Err(Stopped::Refused(Refusal::AccountFull(balance)));
    }
    Ok(Purchase {
        price: value,
        deed: RecordDeed::Credit { balance: after },
    })
}

/// A broker's credit of a whole piece.
fn credited(h: &Prefix<'_>, account: &[u8], value: u64) -> Result<Purchase, Stopped>
    ensures { Tells offer_of result (stages.credit_by (option_map (λ _. accounts.balance h.now account.now) (accounts.account_in h.now account.now)) value) }
{
    match slow_key(h, account) {
        Some(_) => credit(h, account, value),
        None => Err(Stopped::Refused(Refusal::NoAccount)),
    }
}

/// The text of an errand is a target.
pub(crate) fn errand_is_target(target: &[u8])
    ensures { IfSome (errand_of target.now) (λ _. IsTarget target.now) }
{
    errands_are_texts();
}

/// What a broker offers: a sale or a credit.
#[tactic(auto, unfolding(ledger_model::specs::Answer::broker_offer))]
fn desk(
    h: &Prefix<'_>,
    time: Moment,
    limits: Limits,
    target: &[u8],
    value: u64,
) -> Result<Purchase, Stopped>
    requires { AreInRange limits }
    ensures offer { Tells offer_of result (model.broker_offer h.now time limits target.now value) }
    ensures target { IfOk result (λ _. IsTarget target.now) }
{
    errand_is_target(target);
    match read_errand(target) {
        Some(Errand::Buy { vendor, amount }) => sold(h, time, limits, vendor, amount, value),
        Some(Errand::Credit { account }) => credited(h, account, value),
        _ => Err(Stopped::Refused(Refusal::NoSuchGoods)),
    }
}

/// What a house offers for a target, where the value covers it.
pub(crate) fn offered(
    h: &Prefix<'_>,
    time: Moment,
    limits: Limits,
    target: &[u8],
    value: u64,
) -> Result<Purchase, Stopped>
    requires { AreInRange limits }
    ensures offer { Tells offer_of result (model.offer h.now time limits target.now value) }
    ensures target { IfOk result (λ _. IsTarget target.now) }
{
    if slow_is_vendor(h) {
        shelf(h, target, value)
    } else {
        desk(h, time, limits, target, value)
    }
}
