//! Which books of wallets are lawful.

ghost use Rattle.std.specs.Prelude.{◌≡◌, ◌<◌, ◌↔◌, ◌&&◌, not, bytes_eq, length, take, slice_get, IsTrue, IsNone, IfSome};
ghost use Rattle.mc_records.specs.Chains.{chain, has_switch};
ghost use Rattle.mc_requests.specs.Requests.{seen};
ghost use Rattle.wallet_model.specs.Holdings.{has_held};
ghost use Rattle.wallet_model.specs.Follows as model;
ghost use Rattle.wallet_model.specs.Follows.{WalletFollows, IsWalletBook, IsFirstAgainst};

use crate::came::slow_has_held;
use crate::newness::{slow_are_new, slow_settled_new};
use crate::requests::slow_is_kept;
use ledger_model::History;
use mc_records::Record;
use scrip_form::read_scrip;
use slow_ledger::{Prefix, moment_at, slow_chain, slow_has_switch, slow_time};
use wallet_book::{asks_to_buy, asks_to_draw};

/// Whether the site is a wallet.
fn slow_is_wallet(h: &Prefix<'_>) -> bool
    ensures { result ≡ model.is_wallet h.now }
{
    if h.len() == 0 {
        return false;
    }
    match h.record(0) {
        Record::Site { kind, .. } => kind == 2,
        _ => false,
    }
}

fn is_of_vendor(vendor: &[u8], text: &[u8]) -> bool
    ensures { result ≡ model.is_of_vendor vendor.now text.now }
{
    match read_scrip(text) {
        Ok(scrip) => scrip.piece().vendor().bytes() == vendor,
        Err(_) => false,
    }
}

/// Whether a request pays with a held piece of its peer.
fn pays_peer(h: &Prefix<'_>, peer: &[u8], scrip: &[u8]) -> bool
    ensures { result ≡ (has_held h.now scrip.now && model.is_of_vendor peer.now scrip.now) }
{
    slow_has_held(h, scrip) && is_of_vendor(peer, scrip)
}

/// Whether a request asks as its kind may.
fn asks_rightly(h: &Prefix<'_>, ask: u8, peer: &[u8], target: &[u8], scrip: Option<&[u8]>) -> bool
    ensures { result ≡ model.asks_rightly h.now ask peer.now target.now (seen scrip.entry) }
{
    match scrip {
        Some(scrip) => match ask {
            0 => pays_peer(h, peer, scrip),
            1 => pays_peer(h, peer, scrip) && asks_to_buy(target),
            _ => false,
        },
        None => ask >= 2 && asks_to_draw(target),
    }
}

/// Whether a Switch that tells this chain may stand behind entries.
fn switches_rightly(h: &Prefix<'_>, told: &[u8]) -> bool
    ensures { result ≡ (not (has_switch h.now) && bytes_eq told.now (chain h.now)) }
{
    if slow_has_switch(h) {
        return false;
    }
    let own = slow_chain(h);
    told == own.as_slice()
}

/// Whether the kind of the entry of a number allows it after those before it.
fn allowed(h: &Prefix<'_>, n: usize) -> bool
    requires { n < length h.now }
    ensures { IfSome (slice_get h.now n) (λ e. result ≡ model.wallet_allows (take n h.now) e) }
{
    let before = h.first(n);
    let wallet = slow_is_wallet(&before);
    match h.record(n) {
        Record::Site { kind, .. } => n == 0 && kind == 2,
        Record::Got { pieces, .. } => wallet && slow_are_new(&before, &pieces),
        Record::Pend {
            ask,
            peer,
            target,
            scrip,
            ..
        } => wallet && asks_rightly(&before, ask, peer, target, scrip),
        Record::Done {
            number,
            change,
            got,
            ..
        } => wallet && (slow_is_kept(&before, number) && slow_settled_new(&before, change, got)),
        Record::Refused { number, .. } => wallet && slow_is_kept(&before, number),
        Record::Switch { chain, .. } => wallet && switches_rightly(&before, &chain),
        Record::Note { .. } => wallet,
        _ => false,
    }
}

/// Whether the entry of a number may follow those before it.
fn follows(h: &Prefix<'_>, n: usize) -> bool
    requires { n < length h.now }
    ensures { IfSome (slice_get h.now n) (λ e. IsTrue result ↔ WalletFollows (take n h.now) e) }
{
    slow_time(&h.first(n)) <= moment_at(h, n).seconds() && allowed(h, n)
}

/// The number of the first entry that may not follow those before it; 0 where there are none.
fn first_against(h: &Prefix<'_>) -> Option<usize>
    ensures lawful { IsNone result ↔ IsWalletBook h.now }
    ensures first { IfSome result (IsFirstAgainst h.now) }
{
    for n in 0..h.len() {
        if !follows(h, n) {
            return Some(n);
        }
    }
    if h.len() == 0 { Some(0) } else { None }
}

/// Whether a history is the lawful book of a wallet, by the definitions: None exactly where it is; else the
/// number of the first entry that may not follow those before it, 0 for the empty history.
pub fn slow_wallet_book(h: &History) -> Option<usize>
    ensures lawful { IsNone result ↔ IsWalletBook h.now }
    ensures first { IfSome result (IsFirstAgainst h.now) }
{
    first_against(&Prefix::whole(h))
}
