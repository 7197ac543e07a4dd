ghost use Rattle.std.specs.Prelude.{◌≡◌, ◌+◌, ◌≤◌, ◌<◌, ◌++◌, length, take, codes, decimal, IfSome, option_map};
ghost use Rattle.hex.specs.Hex.{encode_lower};
ghost use Rattle.mc_requests.specs.Dates.{date_of};
ghost use Rattle.mc_requests.specs.Refusals.{refusal_text};
ghost use Rattle.mc_requests.specs.Requests.{seen};
ghost use Rattle.mc_requests.specs.Replies as replies;
ghost use Rattle.mc_requests.specs.Replies.{field, field_if};
ghost use Rattle.millicent_http.specs.ReplyHeads.{IsReplyHead, reply_of, refusal_of};

use crate::reply::{ReplyHead, or_dash, put_field};
use httpdate::HttpDate;
use itoa::Buffer;
use mc_base::Moment;
use mc_fields::{put, put_number};
use mc_requests::{Refusal, date_of_its_second, put_refusal_text};

/// Writes the head of a reply at the front of the buffer, from its status line to the empty line
/// that ends it, and answers how many bytes it has.
pub fn write_reply_head(r: &ReplyHead<'_>, out: &mut [u8; 2048]) -> usize
    requires { IsReplyHead r.now }
    ensures within { result ≤ 2048 }
    ensures head { take result out.new ≡ replies.reply_head (reply_of r.now) }
{
    let at = put_status(out, 0, r.status);
    let at = put_date(out, at, r.date);
    let at = put_field(out, at, b"Cache-Control", b"no-store");
    let at = put_kind(out, at, r.kind);
    let at = put_allow(out, at, r.status);
    let at = put_length(out, at, r.length);
    let at = put_refusal(out, at, r.refusal);
    let at = put_price(out, at, r.price);
    let at = put_change(out, at, r.change);
    let at = put_sign(out, at, r.sign);
    put(out, at, b"\r\n")
}

/// The reason of a status of a site (RFC 9110, 15).
fn reason(status: u16) -> &'static [u8]
    ensures text { result.now ≡ replies.reason status }
    ensures short { length result.now ≤ 31 }
{
    match status {
        200 => b"OK",
        400 => b"Bad Request",
        402 => b"Payment Required",
        403 => b"Forbidden",
        404 => b"Not Found",
        405 => b"Method Not Allowed",
        409 => b"Conflict",
        410 => b"Gone",
        413 => b"Content Too Large",
        431 => b"Request Header Fields Too Large",
        500 => b"Internal Server Error",
        _ => b"Service Unavailable",
    }
}

fn put_status(out: &mut [u8], at: usize, status: u16) -> usize
    requires { at + 63 ≤ length out.old }
    ensures short { result ≤ at + 63 }
    ensures put { take result out.new ≡ take at out.old ++ replies.status_line status }
{
    let at = put(out, at, b"HTTP/1.1 ");
    let at = put_number(out, at, u64::from(status));
    let at = put(out, at, b" ");
    let at = put(out, at, reason(status));
    put(out, at, b"\r\n")
}

fn put_date(out: &mut [u8], at: usize, date: Moment) -> usize
    requires { at + 37 ≤ length out.old }
    ensures short { result ≤ at + 37 }
    ensures put { take result out.new ≡ take at out.old ++ field (codes "Date") (date_of date) }
{
    put_field(out, at, b"Date", &date_text(date))
}

/// The date of a moment, as HTTP writes it.
fn date_text(date: Moment) -> [u8; 29]
    ensures { result ≡ date_of date }
{
    date_of_its_second();
    HttpDate::from_unix_secs(date.seconds()).unwrap().to_bytes()
}

/// The line on the kind of contents, where there are any.
fn put_kind(out: &mut [u8], at: usize, kind: Option<u8>) -> usize
    requires { at + 42 ≤ length out.old }
    ensures short { result ≤ at + 42 }
    ensures put { take result out.new ≡ take at out.old ++ field_if (codes "Content-Type") (option_map replies.media_type kind) }
{
    match kind {
        None => at,
        Some(kind) => put_field(out, at, b"Content-Type", media_type(kind)),
    }
}

fn media_type(kind: u8) -> &'static [u8]
    ensures text { result.now ≡ replies.media_type kind }
    ensures short { length result.now ≤ 25 }
{
    match kind {
        0 => b"application/octet-stream",
        1 => b"text/plain; charset=utf-8",
        _ => b"text/html; charset=utf-8",
    }
}

/// The line that says which method is allowed, where another was not.
fn put_allow(out: &mut [u8], at: usize, status: u16) -> usize
    requires { at + 12 ≤ length out.old }
    ensures short { result ≤ at + 12 }
    ensures put { take result out.new ≡ take at out.old ++ replies.allow_line status }
{
    if status == 405 {
        put_field(out, at, b"Allow", b"GET")
    } else {
        at
    }
}

fn put_length(out: &mut [u8], at: usize, contents: u32) -> usize
    requires { at + 38 ≤ length out.old }
    ensures short { result ≤ at + 38 }
    ensures put { take result out.new ≡ take at out.old ++ field (codes "Content-Length") (decimal contents) }
{
    put_field(
        out,
        at,
        b"Content-Length",
        Buffer::new().format(contents).as_bytes(),
    )
}

/// The line of a refusal, where it is one.
fn put_refusal(out: &mut [u8], at: usize, refusal: Option<&Refusal>) -> usize
    requires { at + 149 ≤ length out.old }
    ensures short { result ≤ at + 149 }
    ensures put { take result out.new ≡ take at out.old ++ field_if (codes "Millicent-Refusal") (option_map refusal_text (refusal_of refusal.entry)) }
{
    let Some(refusal) = refusal else {
        return at;
    };
    let at = put(out, at, b"Millicent-Refusal: ");
    let at = put_refusal_text(out, at, refusal);
    put(out, at, b"\r\n")
}

fn put_price(out: &mut [u8], at: usize, price: Option<u64>) -> usize
    requires { at + 39 ≤ length out.old }
    ensures short { result ≤ at + 39 }
    ensures put { take result out.new ≡ take at out.old ++ field (codes "Millicent-Price") (replies.or_dash (option_map decimal price)) }
{
    match price {
        None => put_field(out, at, b"Millicent-Price", b"-"),
        Some(n) => put_field(
            out,
            at,
            b"Millicent-Price",
            Buffer::new().format(n).as_bytes(),
        ),
    }
}

fn put_change(out: &mut [u8], at: usize, change: Option<&[u8]>) -> usize
    requires room { at + 313 ≤ length out.old }
    requires scrip { IfSome change (λ text. length text.now ≤ 293) }
    ensures short { result ≤ at + 313 }
    ensures put { take result out.new ≡ take at out.old ++ field (codes "Millicent-Change") (replies.or_dash (seen change.entry)) }
{
    put_field(out, at, b"Millicent-Change", or_dash(change))
}

fn put_sign(out: &mut [u8], at: usize, sign: Option<[u8; 16]>) -> usize
    requires { at + 50 ≤ length out.old }
    ensures short { result ≤ at + 50 }
    ensures put { take result out.new ≡ take at out.old ++ field (codes "Millicent-Sign") (replies.or_dash (option_map encode_lower sign)) }
{
    match sign {
        None => put_field(out, at, b"Millicent-Sign", b"-"),
        Some(sign) => put_field(out, at, b"Millicent-Sign", &hex_digits(sign)),
    }
}

fn hex_digits(sign: [u8; 16]) -> [u8; 32]
    ensures { result ≡ encode_lower sign }
{
    let mut digits = [0; 32];
    hex::encode_to_slice(sign, &mut digits).unwrap();
    digits
}
