//! The accounts of a broker. A sum of 2^64 or more is told as want of memory.

ghost use Rattle.std.specs.Prelude.{◌≡◌, ◌<◌, ◌-◌, length, slice_get, IfSome, IfOk, Some, None, if◌then◌else◌, option_map, unwrap_or, sum_by};
ghost use Rattle.mc_requests.specs.Errands.{errand_of};
ghost use Rattle.ledger_model.specs.Orders as orders;
ghost use Rattle.ledger_model.specs.Accounts as model;
ghost use Rattle.ledger_model.specs.Accounts.{is_account_of, account_key, key_in, movement, moved, credited_for, amount_to, amount_from, order_at, order_drawn};

use crate::counts::sum;
use crate::prefix::Prefix;
use mc_base::NoMemory;
use mc_records::{Record, RecordDeed};
use mc_requests::{Errand, read_errand};

fn key_at(h: &Prefix<'_>, n: usize, name: &[u8]) -> Option<[u8; 16]>
    requires { n < length h.now }
    ensures { IfSome (slice_get h.now n)
        (λ e. result ≡ (if is_account_of name.now e then Some (account_key e) else None)) }
{
    match h.record(n) {
        Record::Account { name: at, key, .. } => if at == name { Some(key) } else { None },
        _ => None,
    }
}

/// The key of an account.
pub(crate) fn slow_key(h: &Prefix<'_>, name: &[u8]) -> Option<[u8; 16]>
    ensures { result ≡ key_in h.now name.now }
{
    for n in 0..h.len() {
        match key_at(h, n, name) {
            Some(key) => return Some(key),
            None => (),
        }
    }
    None
}

/// A price, where a target credits the account of a name.
fn credited(name: &[u8], target: &[u8], price: u64) -> u64
    ensures { result ≡ moved name.now (credited_for (errand_of target.now) price) }
{
    match read_errand(target) {
        Some(Errand::Credit { account }) => if account == name { price } else { 0 },
        _ => 0,
    }
}

fn put_at(h: &Prefix<'_>, n: usize, name: &[u8]) -> u64
    requires { n < length h.now }
    ensures { IfSome (slice_get h.now n) (λ e. result ≡ amount_to name.now e) }
{
    match h.record(n) {
        Record::Deposit {
            name: at,
            amount,
            ..
        } => if at == name { amount } else { 0 },
        Record::Accept {
            target,
            price,
            deed: RecordDeed::Credit { .. },
            ..
        } => credited(name, target, price),
        _ => 0,
    }
}

/// What was put into the account of a name.
fn slow_put(h: &Prefix<'_>, name: &[u8]) -> Result<u64, NoMemory>
    ensures { IfOk result (λ all. all ≡ sum_by (amount_to name.now) h.now) }
{
    let mut all = 0;
    for n in 0..h.len() {
        all = sum(all, put_at(h, n, name))?;
    }
    Ok(all)
}

/// An amount, where a target draws it from the account of a name.
fn drawn_from(name: &[u8], target: &[u8]) -> u64
    ensures { result ≡ moved name.now (option_map (λ o. movement o.account o.amount) (orders.order_of target.now)) }
{
    match read_errand(target) {
        Some(
            Errand::Draw {
                account,
                amount,
                ..
            },
        ) => if account == name { amount } else { 0 },
        _ => 0,
    }
}

fn taken_at(h: &Prefix<'_>, n: usize, name: &[u8]) -> u64
    requires { n < length h.now }
    ensures { IfSome (slice_get h.now n) (λ e. result ≡ amount_from name.now e) }
{
    match h.record(n) {
        Record::Withdraw {
            name: at,
            amount,
            ..
        } => if at == name { amount } else { 0 },
        Record::Draw { target, .. } => drawn_from(name, target),
        _ => 0,
    }
}

/// What was taken out of the account of a name.
fn slow_taken(h: &Prefix<'_>, name: &[u8]) -> Result<u64, NoMemory>
    ensures { IfOk result (λ all. all ≡ sum_by (amount_from name.now) h.now) }
{
    let mut all = 0;
    for n in 0..h.len() {
        all = sum(all, taken_at(h, n, name))?;
    }
    Ok(all)
}

/// The balance of an account.
pub fn slow_balance(h: &Prefix<'_>, name: &[u8]) -> Result<u64, NoMemory>
    ensures { IfOk result (λ all. all ≡ model.balance h.now name.now) }
{
    let put = slow_put(h, name)?;
    let taken = slow_taken(h, name)?;
    Ok(put.saturating_sub(taken))
}

/// The order of a target that draws from the account of a name; else the one before.
fn order_of(name: &[u8], target: &[u8], before: u64) -> u64
    ensures { result ≡ unwrap_or (order_at name.now (orders.order_of target.now)) before }
{
    match read_errand(target) {
        Some(Errand::Draw { account, order, .. }) => if account == name { order } else { before },
        _ => before,
    }
}

fn order_with(h: &Prefix<'_>, n: usize, name: &[u8], before: u64) -> u64
    requires { n < length h.now }
    ensures { IfSome (slice_get h.now n)
        (λ e. result ≡ unwrap_or (order_drawn name.now e) before) }
{
    match h.record(n) {
        Record::Draw { target, .. } => order_of(name, target, before),
        _ => before,
    }
}

/// The last order of an account, 0 before the first.
pub(crate) fn slow_last_order(h: &Prefix<'_>, name: &[u8]) -> u64
    ensures { result ≡ model.last_order h.now name.now }
{
    let mut last = 0;
    for n in 0..h.len() {
        last = order_with(h, n, name, last);
    }
    last
}
