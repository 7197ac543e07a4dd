//! The bytes of a request.

ghost use Rattle.std.specs.Prelude.{◌≡◌, ◌+◌, ◌≤◌, ◌++◌, length, take, codes};
ghost use Rattle.hex.specs.Hex.{encode_lower};
ghost use Rattle.scrip_certs.specs.Digests.{request_text};
ghost use Rattle.mc_requests.specs.Replies as texts;
ghost use Rattle.wallet_model.specs.Asks as model;
ghost use Rattle.wallet_core.specs.Requests.{pending_view};

use crate::request::{WalletRequest, scrip_bytes};
use mc_fields::put;
use millicent_http::{or_dash, put_field};
use scrip_certs::{hex_of, sign_request};

/// Writes the bytes of a request to the front of `out`, and answers how many there are. It takes no memory.
#[tactic(auto, unfolding(wallet_model::specs::Asks::request_bytes))]
pub fn put_request(p: &WalletRequest, out: &mut [u8; 2048]) -> usize
    ensures within { result ≤ 2048 }
    ensures bytes { take result out.new ≡ model.request_bytes (pending_view p.now) }
{
    let at = put_start(out, p.target.bytes());
    let at = put_field(out, at, b"Host", p.peer.bytes());
    let at = put_scrip(out, at, p);
    let at = put_field(out, at, b"Millicent-Sign", &sign_text(p));
    let at = put_field(out, at, b"Connection", b"close");
    put(out, at, b"\r\n")
}

/// Writes the line that a request begins with.
fn put_start(out: &mut [u8; 2048], target: &[u8]) -> usize
    requires { length target.now ≤ 512 }
    ensures end { result ≤ 527 }
    ensures written { take result out.new ≡ request_text target.now ++ codes " HTTP/1.1\r\n" }
{
    let at = put(out, 0, b"GET ");
    let at = put(out, at, target);
    put(out, at, b" HTTP/1.1\r\n")
}

/// Writes the field of the scrip text, where there is one.
fn put_scrip(out: &mut [u8; 2048], at: usize, p: &WalletRequest) -> usize
    requires { at ≤ 1024 }
    ensures end { result ≤ at + 312 }
    ensures written { take result out.new ≡ take at out.old ++ texts.field_if (codes "Millicent-Scrip") p.now.scrip }
{
    match scrip_bytes(p) {
        Some(text) => put_field(out, at, b"Millicent-Scrip", text),
        None => at,
    }
}

/// The signature of a request as it stands in its field.
fn sign_text(p: &WalletRequest) -> [u8; 32]
    ensures { result ≡ encode_lower (model.signature_of (pending_view p.now)) }
{
    hex_of(&sign_request(scrip_or_dash(p), p.target.bytes(), &p.secret))
}

/// The scrip text of a request, or `-`.
pub(crate) fn scrip_or_dash(p: &WalletRequest) -> &[u8]
    ensures { result.now ≡ texts.or_dash p.now.scrip }
{
    or_dash(scrip_bytes(p))
}
