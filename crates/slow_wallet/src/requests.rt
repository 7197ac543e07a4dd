//! The requests of a wallet's book.

ghost use Rattle.std.specs.Prelude.{◌≡◌, ◌<◌, length, slice_get, IfSome, option_map};
ghost use Rattle.std.specs.List.{list_any};
ghost use Rattle.mc_requests.specs.Requests.{seen};
ghost use Rattle.wallet_model.specs.Requests as model;
ghost use Rattle.wallet_model.specs.Requests.{settles};
ghost use Rattle.wallet_core.specs.Requests.{request_view};

use mc_records::Record;
use slow_ledger::Prefix;
use wallet_core::RequestRef;

/// The request of the entry of a number; None exactly where there is none.
pub fn slow_pending<'a>(h: &'a Prefix<'_>, number: u64) -> Option<RequestRef<'a>>
    ensures { option_map request_view result ≡ model.pending_in h.now number }
{
    let n = number as usize;
    if n >= h.len() {
        return None;
    }
    match h.record(n) {
        Record::Pend {
            ask,
            peer,
            target,
            scrip,
            secret,
            ..
        } => Some(RequestRef {
            ask,
            peer,
            target,
            scrip,
            secret,
        }),
        _ => None,
    }
}

fn settles_at(h: &Prefix<'_>, n: usize, number: u64) -> bool
    requires { n < length h.now }
    ensures { IfSome (slice_get h.now n) (λ e. result ≡ settles number e) }
{
    match h.record(n) {
        Record::Done { number: of, .. } => of == number,
        Record::Refused { number: of, .. } => of == number,
        _ => false,
    }
}

/// Whether an entry settles the request of a number.
pub(crate) fn slow_is_settled(h: &Prefix<'_>, number: u64) -> bool
    ensures { result ≡ list_any (settles number) h.now }
{
    for n in 0..h.len() {
        if settles_at(h, n, number) {
            return true;
        }
    }
    false
}

/// Whether the entry of a number is a request that no entry settles.
pub fn slow_is_kept(h: &Prefix<'_>, number: u64) -> bool
    ensures { result ≡ model.is_kept h.now number }
{
    slow_pending(h, number).is_some() && !slow_is_settled(h, number)
}

/// Whether a request pays with the piece of this text.
fn pays(text: &[u8], scrip: Option<&[u8]>) -> bool
    ensures { (p : model.Pending) → p.scrip ≡ seen scrip.entry → result ≡ model.pays text.now p }
{
    match scrip {
        Some(scrip) => scrip == text,
        None => false,
    }
}

/// Whether the request of a number pays with the piece of this text.
pub(crate) fn slow_pays_with(h: &Prefix<'_>, number: u64, text: &[u8]) -> bool
    ensures { result ≡ model.pays_with h.now number text.now }
{
    match slow_pending(h, number) {
        Some(p) => pays(text, p.scrip),
        None => false,
    }
}
