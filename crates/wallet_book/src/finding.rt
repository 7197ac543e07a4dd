//! Finding a kept request by what it asks.

ghost use Rattle.std.specs.Prelude.{◌≡◌, bytes_eq, find};
ghost use Rattle.wallet_book.specs.Kept.{is_get_of};

use crate::kept::Kept;

/// The first of some requests that is asked of a peer.
pub(crate) fn first_of_peer(kept: &[Kept], peer: &[u8]) -> Option<Kept>
    ensures { result ≡ find (λ k. bytes_eq k.peer peer.now) kept.now }
{
    for k in kept {
        if is_of_peer(k, peer) {
            return Some(*k);
        }
    }
    None
}

/// Whether a request is asked of a peer.
fn is_of_peer(k: &Kept, peer: &[u8]) -> bool
    ensures { result ≡ bytes_eq k.now.peer peer.now }
{
    k.peer.bytes() == peer
}

/// The first of some requests that asks a vendor for the goods of a target.
pub(crate) fn first_get(kept: &[Kept], vendor: &[u8], target: &[u8]) -> Option<Kept>
    ensures { result ≡ find (is_get_of vendor.now target.now) kept.now }
{
    for k in kept {
        if is_get(k, vendor, target) {
            return Some(*k);
        }
    }
    None
}

/// Whether a request asks a vendor for the goods of a target.
fn is_get(k: &Kept, vendor: &[u8], target: &[u8]) -> bool
    ensures { result ≡ is_get_of vendor.now target.now k.now }
{
    k.ask == 0 && k.peer.bytes() == vendor && k.target.bytes() == target
}
