//! What notes state and pay, and the tables of it.

ghost use Rattle.std.specs.Prelude.{◌≡◌, ◌+◌, ◌*◌, ◌<◌, ◌^◌, ◌++◌, ◌∷◌, [], IfSome, option_map, OnOk};
ghost use Rattle.mc_records.specs.Views.{entry};
ghost use Rattle.ledger_model.specs.Histories.{History};
ghost use Rattle.settle_core.specs.Claims.{ClaimFits, PaymentFits};
ghost use Rattle.settle_core.specs.Settlement.{noted, stated_by, paid_by, stated_amount, paid_amount, IsInOrder};
ghost use Rattle.counted_trade.specs.Notes.{StatedStand, PaidStand, HasRoomToState, HasRoomToPay};

use crate::put_key;
use mc_base::NoMemory;
use mc_records::Record;
use scrip_form::Name;
use settle_core::{Claim, Payment, read_claim, read_payment};
use sum_table::SumTable;

/// The bytes of a note with this tag.
pub(crate) fn noted<'a>(wanted: &[u8], r: &Record<'a>) -> Option<&'a [u8]>
    ensures { option_map (λ b. b.now) result ≡ noted wanted.now (entry r.now) }
{
    let Record::Note { tag, bytes, .. } = *r else {
        return None;
    };
    if tag == wanted { Some(bytes) } else { None }
}

/// What an entry states.
pub(crate) fn stated_in(r: &Record<'_>) -> Option<Claim>
    ensures is { result ≡ stated_by (entry r.now) }
    ensures fits { IfSome result ClaimFits }
{
    match noted(b"stated", r) {
        Some(bytes) => read_claim(bytes),
        None => None,
    }
}

/// What an entry pays.
pub(crate) fn paid_in(r: &Record<'_>) -> Option<Payment>
    ensures is { result ≡ paid_by (entry r.now) }
    ensures fits { IfSome result PaymentFits }
{
    match noted(b"pay", r) {
        Some(bytes) => read_payment(bytes),
        None => None,
    }
}

/// The number of a series.
pub(crate) fn series_number(issuer: u8, epoch: u32) -> u32
    requires { epoch < 2 ^ 24 }
    ensures { result ≡ issuer * 2 ^ 24 + epoch }
{
    u32::from(issuer) * (1 << 24) + epoch
}

/// Makes room for what an entry states.
pub(crate) fn reserve_stated(table: &mut SumTable, r: &Record<'_>) -> Result<(), NoMemory>
    ensures room { OnOk result (HasRoomToState table.new (entry r.now)) }
    ensures same { (h : History) → StatedStand table.old h → StatedStand table.new h }
{
    match stated_in(r) {
        Some(claim) => {
            let series = series_number(claim.issuer, claim.epoch);
            table.reserve(&series.to_be_bytes())
        }
        None => Ok(()),
    }
}

/// Makes room for what an entry pays.
pub(crate) fn reserve_paid(table: &mut SumTable, r: &Record<'_>) -> Result<(), NoMemory>
    ensures room { OnOk result (HasRoomToPay table.new (entry r.now)) }
    ensures same { (h : History) → PaidStand table.old h → PaidStand table.new h }
{
    match paid_in(r) {
        Some(payment) => {
            let claim = &payment.claim;
            let mut key = [0; 67];
            let series = series_number(claim.issuer, claim.epoch);
            let n = put_key(&mut key, series, payment.vendor.bytes());
            table.reserve(&key[..n])
        }
        None => Ok(()),
    }
}

/// Counts what the next entry states, for which there is room.
pub(crate) fn count_stated(table: &mut SumTable, r: &Record<'_>)
    requires room { HasRoomToState table.old (entry r.now) }
    ensures counted { (h : History) → StatedStand table.old h → IsInOrder h (entry r.now)
        → StatedStand table.new (h ++ entry r.now ∷ []) }
{
    match stated_in(r) {
        Some(claim) => table.put(claim.amount),
        None => (),
    }
}

/// Counts what the next entry pays, for which there is room.
pub(crate) fn count_paid(table: &mut SumTable, r: &Record<'_>)
    requires room { HasRoomToPay table.old (entry r.now) }
    ensures counted { (h : History) → PaidStand table.old h → IsInOrder h (entry r.now)
        → PaidStand table.new (h ++ entry r.now ∷ []) }
{
    match paid_in(r) {
        Some(payment) => table.put(payment.claim.amount),
        None => (),
    }
}

/// What was stated of a series.
pub(crate) fn stated_of(table: &SumTable, issuer: u8, epoch: u32) -> Option<u128>
    requires { epoch < 2 ^ 24 }
    ensures { (h : History) → StatedStand table.now h → result ≡ stated_amount h issuer epoch }
{
    table.get(&series_number(issuer, epoch).to_be_bytes())
}

/// What was paid for a series of a vendor's.
pub(crate) fn paid_for(table: &SumTable, vendor: &Name, issuer: u8, epoch: u32) -> Option<u128>
    requires { epoch < 2 ^ 24 }
    ensures { (h : History) → PaidStand table.now h → result ≡ paid_amount h vendor.now issuer epoch }
{
    let mut key = [0; 67];
    let n = put_key(&mut key, series_number(issuer, epoch), vendor.bytes());
    table.get(&key[..n])
}
