//! The chain of the entries of a history: a digest of all of them, one entry after the other.

ghost use Rattle.std.specs.Prelude.{◌≡◌};
ghost use Rattle.mc_records.specs.Chains as chains;
ghost use Rattle.mc_records.specs.Chains.{is_switch};
ghost use Rattle.mc_records.specs.Entry.{Entry, payload};

use sha2::{Digest, Sha256};

/// The chain of no entries.
pub const FIRST_CHAIN: [u8; 32] = [0; 32];

/// The chain of some entries with one more, of this payload: the SHA-256 (FIPS 180-4) of the chain of those
/// before it and of the payload. It takes no memory.
#[tactic(auto, unfolding(crate::specs::Chains::chain_after))]
pub fn chain_after(chain: &[u8; 32], payload: &[u8]) -> [u8; 32]
    ensures { result ≡ chains.chain_after chain.now payload.now }
{
    let mut hasher = Sha256::new();
    hasher.update(chain);
    hasher.update(payload);
    hasher.finalize()
}

/// Whether the payload of an entry is that of a Switch, by its first byte alone. Of bytes that are no payload it says nothing.
pub fn begins_switch(bytes: &[u8]) -> bool
    ensures { (e : Entry) → bytes.now ≡ payload e → result ≡ is_switch e }
{
    match bytes {
        [kind, ..] => *kind == 17,
        [] => false,
    }
}
