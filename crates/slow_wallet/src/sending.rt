//! The bytes of a request.

ghost use Rattle.std.specs.Prelude.{◌≡◌, ◌++◌, IfOk, codes};
ghost use Rattle.mc_fields.specs.Puts.{Appends};
ghost use Rattle.mc_requests.specs.Replies as texts;
ghost use Rattle.mc_requests.specs.Requests.{seen};
ghost use Rattle.scrip_certs.specs.Digests.{request_text};
ghost use Rattle.hex.specs.Hex.{encode_lower};
ghost use Rattle.wallet_model.specs.Asks as model;
ghost use Rattle.wallet_core.specs.Requests.{request_view};

use mc_base::NoMemory;
use mc_fields::append_both;
use millicent_http::or_dash;
use scrip_certs::{hex_of, sign_request};
use std::alloc::{AllocError, Global};
use wallet_core::RequestRef;

fn write_field(out: &mut Vec<u8>, name: &[u8], value: &[u8]) -> Result<(), AllocError>
    ensures { Appends out.old.items out.new.items (texts.field name.now value.now) result }
{
    append_both(out, name, b": ")?;
    append_both(out, value, b"\r\n")
}

fn write_scrip(out: &mut Vec<u8>, scrip: Option<&[u8]>) -> Result<(), AllocError>
    ensures { Appends out.old.items out.new.items (texts.field_if (codes "Millicent-Scrip") (seen scrip.entry)) result }
{
    match scrip {
        Some(text) => write_field(out, b"Millicent-Scrip", text),
        None => Ok(()),
    }
}

fn write_start(out: &mut Vec<u8>, target: &[u8]) -> Result<(), AllocError>
    ensures { Appends out.old.items out.new.items (request_text target.now ++ codes " HTTP/1.1\r\n") result }
{
    append_both(out, b"GET ", target)?;
    append_both(out, b" HTTP/1.1", b"\r\n")
}

/// The signature of a request as it stands in its field.
fn sign_text(p: &RequestRef<'_>) -> [u8; 32]
    ensures { result ≡ encode_lower (model.signature_of (request_view p.now)) }
{
    hex_of(&sign_request(or_dash(p.scrip), p.target, &p.secret))
}

/// The bytes of a request, by the definitions. Want of memory is free.
#[tactic(auto, unfolding(wallet_model::specs::Asks::request_bytes))]
pub fn slow_request_bytes(alloc: Global, p: &RequestRef<'_>) -> Result<Vec<u8>, NoMemory>
    ensures { IfOk result (λ v. v.items ≡ model.request_bytes (request_view p.now)) }
{
    let mut out = Vec::new(alloc);
    write_start(&mut out, p.target)?;
    write_field(&mut out, b"Host", p.peer)?;
    write_scrip(&mut out, p.scrip)?;
    write_field(&mut out, b"Millicent-Sign", &sign_text(p))?;
    write_field(&mut out, b"Connection", b"close")?;
    out.extend_from_slice(b"\r\n")?;
    Ok(out)
}
