//! Digests in the making, of either version.

ghost use Rattle.std.specs.Prelude.{◌≡◌, ◌++◌, ℕ, List, [], take};
ghost use Rattle.scrip_form.specs.Scrip.{text_version};
ghost use Rattle.scrip_certs.specs.Digests as digests;
ghost use Rattle.scrip_certs.specs.Hashing.{Hashes};

use md5::{Digest as Md5Digest, Md5};
use sha2::{Digest as Sha2Digest, Sha256};

/// A digest in the making: of version 1, which is MD5 (RFC 1321), or of version 2, which is the first 16
/// bytes of SHA-256 (FIPS 180-4).
#[derive(Drop)]
pub enum Hasher {
    /// Version 1.
    First(Md5),
    /// Version 2.
    Second(Sha256),
}

impl Hasher {
    /// That of a version: of the second for 2, else of the first. It was given no bytes.
    pub fn of_version(version: u8) -> Hasher
        ensures { Hashes result version [] }
    {
        if version == 2 {
            Hasher::Second(Sha256::new())
        } else {
            Hasher::First(Md5::new())
        }
    }

    /// That of the version of a scrip text, of which it may have the front alone: of the second exactly
    /// where it begins with `MS2|`.
    #[tactic(auto, unfolding(scrip_form::specs::Scrip::text_version))]
    pub fn of_text(text: &[u8]) -> Hasher
        ensures { Hashes result (text_version text.now) [] }
    {
        Hasher::of_version(if text.starts_with(b"MS2|") { 2 } else { 1 })
    }

    /// Gives it more bytes.
    pub fn update(&mut self, bytes: &[u8])
        ensures { (version : ℕ) (message : List ℕ) → Hashes self.old version message
            → Hashes self.new version (message ++ bytes.now) }
    {
        match self {
            Hasher::First(hasher) => hasher.update(bytes),
            Hasher::Second(hasher) => hasher.update(bytes),
        }
    }

    /// The digest of all bytes that it was given.
    #[tactic(auto, unfolding(crate::specs::Digests::digest))]
    pub fn finalize(self) -> [u8; 16]
        ensures { (version : ℕ) (message : List ℕ) → Hashes self version message
            → result ≡ digests.digest version message }
    {
        match self {
            Hasher::First(hasher) => hasher.finalize(),
            Hasher::Second(hasher) => first_half(&hasher.finalize()),
        }
    }
}

/// The first 16 bytes of a digest of 32.
fn first_half(digest: &[u8; 32]) -> [u8; 16]
    ensures { result ≡ take 16 digest.now }
{
    let mut half = [0; 16];
    half.copy_from_slice(&digest[..16]);
    half
}
