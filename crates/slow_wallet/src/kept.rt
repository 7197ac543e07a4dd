//! The kept requests of a wallet's book by their places.

ghost use Rattle.std.specs.Prelude.{◌≡◌, ◌<◌, length, slice_get, option_map};
ghost use Rattle.wallet_model.specs.Requests.{kept_requests};
ghost use Rattle.slow_wallet.specs.Slow.{kept_view, kept_at};

use crate::requests::{slow_is_kept, slow_pending};
use slow_ledger::Prefix;
use wallet_core::RequestRef;

/// A request with the number of its entry.
#[derive(Clone, Copy, Drop)]
pub struct Numbered<'a> {
    pub number: u64,
    pub request: RequestRef<'a>,
}

/// How many kept requests the entry of a number is: one or none.
fn count_kept(h: &Prefix<'_>, n: usize) -> usize
    ensures { result ≡ length (kept_at h.now n) }
{
    if slow_is_kept(h, n as u64) { 1 } else { 0 }
}

/// The request of the entry of a number, where it is kept.
fn kept<'a>(h: &'a Prefix<'_>, n: usize) -> Option<Numbered<'a>>
    ensures { option_map kept_view result ≡ slice_get (kept_at h.now n) 0 }
{
    let number = n as u64;
    if !slow_is_kept(h, number) {
        return None;
    }
    match slow_pending(h, number) {
        Some(request) => Some(Numbered { number, request }),
        None => None,
    }
}

/// The kept request of this place, from 0, oldest first; None exactly where there are no more.
pub fn slow_kept<'a>(h: &'a Prefix<'_>, place: usize) -> Option<Numbered<'a>>
    ensures { option_map kept_view result ≡ slice_get (kept_requests h.now) place }
{
    let mut skip = place;
    for n in 0..h.len() {
        let count = count_kept(h, n);
        if skip < count {
            return kept(h, n);
        }
        skip -= count;
    }
    None
}
