//! The sums of a broker's book.

ghost use Rattle.std.specs.Prelude.{◌≡◌, ◌<◌, ℕ, List, Option, length, slice_get, IfOk, IfSome};
ghost use Rattle.mc_records.specs.Entry.{Accept};
ghost use Rattle.mc_records.specs.Views.{deed_of};
ghost use Rattle.ledger_model.specs.Accounts.{all_balances};
ghost use Rattle.ledger_model.specs.Sums as model;
ghost use Rattle.ledger_model.specs.Sums.{amount_in, amount_out, fee_of, paid_in, paid_out};
ghost use Rattle.slow_sums.specs.Sums.{balance_at, broker_sums};

use crate::handed::with_own;
use crate::left::{slow_lapsed, slow_outstanding, sum};
use mc_base::NoMemory;
use mc_records::{Record, RecordDeed};
use slow_ledger::{Prefix, slow_balance, slow_fee};
use std::alloc::Global;

/// The sums of a broker's book, in units.
#[derive(Clone, Copy, Drop)]
pub(crate) struct BrokerSums {
    pub(crate) paid_in: u128,
    pub(crate) paid_out: u128,
    pub(crate) accounts: u128,
    pub(crate) fees: u128,
    pub(crate) outstanding: u128,
    pub(crate) lapsed: u128,
}

fn in_at(h: &Prefix<'_>, n: usize) -> u64
    requires { n < length h.now }
    ensures { IfSome (slice_get h.now n) (λ e. result ≡ amount_in e) }
{
    match h.record(n) {
        Record::Deposit { amount, .. } => amount,
        _ => 0,
    }
}

/// The amounts of all deposits.
fn slow_paid_in(h: &Prefix<'_>) -> Result<u128, NoMemory>
    ensures { IfOk result (λ all. all ≡ paid_in h.now) }
{
    let mut all = 0;
    for n in 0..h.len() {
        all = sum(all, in_at(h, n))?;
    }
    Ok(all)
}

fn out_at(h: &Prefix<'_>, n: usize) -> u64
    requires { n < length h.now }
    ensures { IfSome (slice_get h.now n) (λ e. result ≡ amount_out e) }
{
    match h.record(n) {
        Record::Withdraw { amount, .. } => amount,
        _ => 0,
    }
}

/// The amounts of all withdrawals.
fn slow_paid_out(h: &Prefix<'_>) -> Result<u128, NoMemory>
    ensures { IfOk result (λ all. all ≡ paid_out h.now) }
{
    let mut all = 0;
    for n in 0..h.len() {
        all = sum(all, out_at(h, n))?;
    }
    Ok(all)
}

/// The balance of the account that the entry of a number opens; else 0.
fn balance_of(h: &Prefix<'_>, n: usize) -> Result<u64, NoMemory>
    requires { n < length h.now }
    ensures { IfSome (slice_get h.now n) (λ e. IfOk result (λ some. some ≡ balance_at h.now e)) }
{
    match h.record(n) {
        Record::Account { name, .. } => slow_balance(h, name),
        _ => Ok(0),
    }
}

/// The balances of all accounts.
fn slow_accounts(h: &Prefix<'_>) -> Result<u128, NoMemory>
    ensures { IfOk result (λ all. all ≡ all_balances h.now) }
{
    let mut all = 0;
    for n in 0..h.len() {
        all = sum(all, balance_of(h, n)?)?;
    }
    Ok(all)
}

fn fee_for(fee: u64, deed: &RecordDeed) -> u64
    ensures { (m price : ℕ) → (scrip target : List ℕ) → (sign : Option (List ℕ)) → (change : Option ℕ)
        → result ≡ fee_of fee (Accept m scrip target sign price change (deed_of deed.now)) }
{
    match deed {
        RecordDeed::Sale { .. } => fee,
        _ => 0,
    }
}

fn fee_at(h: &Prefix<'_>, n: usize, fee: u64) -> u64
    requires { n < length h.now }
    ensures { IfSome (slice_get h.now n) (λ e. result ≡ fee_of fee e) }
{
    match h.record(n) {
        Record::Accept { deed, .. } => fee_for(fee, &deed),
        _ => 0,
    }
}

/// The fees of all sales.
fn slow_fees(h: &Prefix<'_>) -> Result<u128, NoMemory>
    ensures { IfOk result (λ all. all ≡ model.fees h.now) }
{
    let fee = slow_fee(h);
    let mut all = 0;
    for n in 0..h.len() {
        all = sum(all, fee_at(h, n, fee))?;
    }
    Ok(all)
}

/// The sums of a broker's book.
pub(crate) fn slow_broker(alloc: Global, h: &Prefix<'_>) -> Result<BrokerSums, NoMemory>
    ensures { IfOk result (λ sums. sums ≡ broker_sums h.now) }
{
    let parts = with_own(Vec::new(alloc), h)?;
    Ok(BrokerSums {
        paid_in: slow_paid_in(h)?,
        paid_out: slow_paid_out(h)?,
        accounts: slow_accounts(h)?,
        fees: slow_fees(h)?,
        outstanding: slow_outstanding(&parts, h)?,
        lapsed: slow_lapsed(&parts, h)?,
    })
}
