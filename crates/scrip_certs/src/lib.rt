//! The digests that scrip, requests and replies are proved by: certificates, customer secrets and
//! the signatures of requests and replies. Each is the digest of some bytes joined, MD5 (RFC 1321) in
//! version 1 and the first 16 bytes of SHA-256 (FIPS 180-4) in version 2, and each call hashes the parts
//! as they come.
//!
//! From the paper of 1995: a certificate is made of a piece's body and a secret of its issuer, a
//! customer secret of the customer identity and another secret, a signature of a message and the
//! customer secret. That a digest cannot be forged is claimed nowhere.
//!
//! No call of this crate takes memory.
#![tactic(auto)]

mod certificates;
mod hasher;
mod hex_text;
mod signatures;

pub use certificates::{certificate, certificate_of, customer_secret, write_certified};
pub use hasher::Hasher;
pub use hex_text::{hex_of, of_hex};
pub use signatures::{add_request, sign_reply, sign_request};
