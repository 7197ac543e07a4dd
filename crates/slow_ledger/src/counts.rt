//! Numbers over the entries of a history, each in one pass. A sum of 2^64 or more is want of memory:
//! no memory holds a history that has it.

ghost use Rattle.std.specs.Prelude.{◌≡◌, ◌<◌, ◌+◌, ℕ, length, drop, slice_get, IfSome, IfOk, List, Option, option_to_list, count_by, position};
ghost use Rattle.std.specs.List.{list_any};
ghost use Rattle.mc_records.specs.Entry.{Accept, Draw, Deed};
ghost use Rattle.mc_requests.specs.Requests.{asked_of, seen};
ghost use Rattle.mc_records.specs.Sizes.{size};
ghost use Rattle.ledger_model.specs.Histories.{History};
ghost use Rattle.ledger_model.specs.Goods.{is_goods_of, bytes_in, in_force};
ghost use Rattle.ledger_model.specs.Pieces.{handed_piece, minted_pieces, run_from, own_count};
ghost use Rattle.ledger_model.specs.Stages.{is_same_scrip, is_same_sign, is_repeat};
ghost use Rattle.slow_ledger.specs.Slow.{is_of};

use crate::chains::switched_by;
use crate::prefix::Prefix;
use mc_base::{Moment, NoMemory};
use mc_records::{Record, tail_len};
use mc_requests::{Errand, Request, read_errand};
use scrip_certs::hex_of;
use scrip_form::{Id, read_scrip};

pub(crate) fn sum(a: u64, b: u64) -> Result<u64, NoMemory>
    ensures { IfOk result (λ all. all ≡ a + b) }
{
    match a.checked_add(b) {
        Some(all) => Ok(all),
        None => Err(NoMemory),
    }
}

/// How many of so many pieces, whose identities follow the first, are of a series.
fn minted_of(first: Id, count: u16, series: u64) -> u64
    ensures { (before : History) → (value : ℕ)
        → result ≡ count_by (is_of series) (run_from before value first count) }
{
    let high = first.number() / (1 << 32);
    let low = first.number() % (1 << 32);
    let mut found = 0;
    for k in 0..count {
        if high + (low + u64::from(k)) / (1 << 32) == series {
            found += 1;
        }
    }
    found
}

/// How many pieces of a series are handed out as change for a scrip text.
fn changes_of(scrip: &[u8], change: Option<Id>, series: u64) -> u64
    ensures { (before : History) → (m price : ℕ) → (target : List ℕ) → (sign : Option (List ℕ))
        → (deed : Deed)
        → result ≡ count_by (is_of series) (option_to_list (handed_piece before (Accept m scrip.now target sign price change deed))) }
{
    match change {
        Some(id) => match read_scrip(scrip) {
            Ok(_) => if u64::from(id.series()) == series {
                1
            } else {
                0
            },
            Err(_) => 0,
        },
        None => 0,
    }
}

/// How many pieces of a series are handed out by a draw.
fn draws_of(target: &[u8], drawn: Id, series: u64) -> u64
    ensures { (before : History) → (m : ℕ) → (sign : List ℕ)
        → result ≡ count_by (is_of series) (option_to_list (handed_piece before (Draw m target.now sign drawn))) }
{
    match read_errand(target) {
        Some(Errand::Draw { .. }) => if u64::from(drawn.series()) == series {
            1
        } else {
            0
        },
        _ => 0,
    }
}

/// How many pieces of a series an entry hands out or mints.
fn pieces_at(h: &Prefix<'_>, n: usize, series: u64) -> u64
    requires { n < length h.now }
    ensures { IfSome (slice_get h.now n) (λ e. (before : History)
        → result ≡ count_by (is_of series) (option_to_list (handed_piece before e)) + count_by (is_of series) (minted_pieces before e)) }
{
    match h.record(n) {
        Record::Accept { scrip, change, .. } => changes_of(scrip, change, series),
        Record::Mint { count, first, .. } => minted_of(first, count, series),
        Record::Draw { target, drawn, .. } => draws_of(target, drawn, series),
        _ => 0,
    }
}

/// How many pieces of a series of the house's own were handed out or minted.
pub(crate) fn slow_own_count(h: &Prefix<'_>, series: u64) -> Result<u64, NoMemory>
    ensures { IfOk result (λ all. all ≡ own_count h.now series) }
{
    let mut all = 0;
    for n in 0..h.len() {
        all = sum(all, pieces_at(h, n, series))?;
    }
    Ok(all)
}

/// How many bytes the journal of the entries has.
pub fn slow_size(h: &Prefix<'_>) -> Result<u64, NoMemory>
    ensures { IfOk result (λ all. all ≡ size h.now) }
{
    let mut all = 9;
    let mut switched = false;
    for n in 0..h.len() {
        all = sum(sum(all, h.payload(n).len() as u64)?, 5 + tail_len(switched))?;
        switched = switched_by(h, n, switched);
    }
    Ok(all)
}

fn is_goods_at(h: &Prefix<'_>, n: usize, target: &[u8]) -> bool
    requires { n < length h.now }
    ensures { IfSome (slice_get h.now n) (λ e. result ≡ is_goods_of target.now e) }
{
    match h.record(n) {
        Record::Goods { target: at, .. } => at == target,
        _ => false,
    }
}

fn has_goods_after(h: &Prefix<'_>, n: usize, target: &[u8]) -> bool
    requires { n < length h.now }
    ensures { result ≡ list_any (is_goods_of target.now) (drop (n + 1) h.now) }
{
    let len = h.len();
    for k in n + 1..len {
        if is_goods_at(h, k, target) {
            return true;
        }
    }
    false
}

fn bytes_at(h: &Prefix<'_>, n: usize) -> u64
    requires { n < length h.now }
    ensures { IfSome (slice_get h.now n) (λ e. result ≡ bytes_in (drop (n + 1) h.now) e) }
{
    match h.record(n) {
        Record::Goods {
            target,
            contents,
            ..
        } => if has_goods_after(h, n, target) {
            0
        } else {
            contents.len() as u64
        },
        _ => 0,
    }
}

/// How many bytes of contents are in force.
pub(crate) fn slow_in_force(h: &Prefix<'_>) -> Result<u64, NoMemory>
    ensures { IfOk result (λ all. all ≡ in_force h.now) }
{
    let mut all = 0;
    for n in 0..h.len() {
        all = sum(all, bytes_at(h, n))?;
    }
    Ok(all)
}

fn same_sign(sign: &Option<[u8; 16]>, text: Option<&[u8]>) -> bool
    ensures { result ≡ is_same_sign sign.now (seen text.entry) }
{
    match (sign, text) {
        (None, None) => true,
        (Some(sign), Some(text)) => hex_of(sign).as_slice() == text,
        _ => false,
    }
}

fn same_scrip(scrip: Option<&[u8]>, text: &[u8]) -> bool
    ensures { result ≡ is_same_scrip (seen scrip.entry) text.now }
{
    match scrip {
        Some(scrip) => text == scrip,
        None => false,
    }
}

fn repeats_at(h: &Prefix<'_>, n: usize, keep: u32, time: Moment, q: &Request<'_>) -> bool
    requires { n < length h.now }
    ensures { IfSome (slice_get h.now n) (λ e. result ≡ is_repeat keep time (asked_of q.now) e) }
{
    match h.record(n) {
        Record::Accept {
            moment,
            scrip,
            target,
            sign,
            ..
        } => same_scrip(q.scrip, scrip)
            && target == q.target
            && same_sign(&sign, q.sign)
            && time.seconds() < moment.seconds() + u64::from(keep),
        Record::Draw {
            moment,
            target,
            sign,
            ..
        } => q.scrip.is_none()
            && target == q.target
            && same_sign(&Some(sign), q.sign)
            && time.seconds() < moment.seconds() + u64::from(keep),
        _ => false,
    }
}

/// The number of the first entry of the same request within the keeping time.
pub(crate) fn slow_repeat(h: &Prefix<'_>, keep: u32, time: Moment, q: &Request<'_>) -> Option<u64>
    ensures { result ≡ position (is_repeat keep time (asked_of q.now)) h.now }
{
    for n in 0..h.len() {
        if repeats_at(h, n, keep, time, q) {
            return Some(n as u64);
        }
    }
    None
}
