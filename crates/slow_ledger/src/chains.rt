//! The chain of the entries, and which Switch may follow.

ghost use Rattle.std.specs.Prelude.{◌≡◌, ◌<◌, ◌↔◌, ◌||◌, length, slice_get, IfSome, IsSome, IsTrue, IsFalse};
ghost use Rattle.mc_records.specs.Chains as chains;
ghost use Rattle.mc_records.specs.Chains.{is_switch, has_switch};
ghost use Rattle.ledger_model.specs.Houses.{site_kind};

use crate::prefix::Prefix;
use mc_records::{FIRST_CHAIN, PieceList, Record, SiteTerms, chain_after};

/// Whether a Switch stands among the entries up to and with that of a number, where it is known whether one stands
/// before it.
pub(crate) fn switched_by(h: &Prefix<'_>, n: usize, before: bool) -> bool
    requires { n < length h.now }
    ensures { IfSome (slice_get h.now n) (λ e. result ≡ (before || is_switch e)) }
{
    let _parts: Option<(PieceList<'_>, SiteTerms<'_>)> = None;
    before || h.record(n).is_switch()
}

/// Whether a Switch stands.
pub fn slow_has_switch(h: &Prefix<'_>) -> bool
    ensures { result ≡ has_switch h.now }
{
    let mut switched = false;
    for n in 0..h.len() {
        switched = switched_by(h, n, switched);
    }
    switched
}

/// The chain of the entries.
pub fn slow_chain(h: &Prefix<'_>) -> [u8; 32]
    ensures { result ≡ chains.chain h.now }
{
    let mut chain = FIRST_CHAIN;
    for n in 0..h.len() {
        chain = chain_after(&chain, h.payload(n));
    }
    chain
}

/// Whether they are a site's.
pub(crate) fn slow_is_site(h: &Prefix<'_>) -> bool
    ensures { IsTrue result ↔ IsSome (site_kind h.now) }
{
    if h.len() == 0 {
        return false;
    }
    match h.record(0) {
        Record::Site { .. } => true,
        _ => false,
    }
}

/// Whether a site may enter a Switch that tells a chain.
pub(crate) fn switch_allowed(h: &Prefix<'_>, chain: &[u8; 32]) -> bool
    ensures { IsTrue result ↔ (IsSome (site_kind h.now) × IsFalse (has_switch h.now) × (chain.now ≡ chains.chain h.now)) }
{
    slow_is_site(h) && !slow_has_switch(h) && chain.as_slice() == slow_chain(h).as_slice()
}
