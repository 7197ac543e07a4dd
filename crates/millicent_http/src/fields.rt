ghost use Rattle.std.specs.Prelude.{◌≡◌, ◌≤◌, ◌==◌, List, ℕ, length, map, codes, slice_range, All};
ghost use Rattle.std.specs.List.{list_any, list_all, slice_split};
ghost use Rattle.httparse.specs.Grammar.{trim_ows, is_ows};
ghost use Rattle.httparse.specs.Spans.{IsWithin, IsHeaderWithin, header_bytes, span_bytes};
ghost use Rattle.millicent_http.specs.Fields.{same_name, values, host_is_fit, is_host_byte, is_host, says_body, says_close, has_close};
ghost use Rattle.millicent_http.specs.Occurs.{Occurred};
ghost use Rattle.scrip_form.specs.Texts.{is_target};

use crate::occurs::Occurs;
use httparse::spans::{HeaderSpan, Span};
use mc_fields::is_text;
use scrip_form::TargetRule;

/// Whether these Host fields are right for a head of this version.
pub(crate) fn host_is_fit(minor: u8, hosts: Occurs<'_>) -> bool
    ensures { (values : List (List ℕ)) → Occurred values hosts.entry
        → result ≡ host_is_fit minor values }
{
    match hosts {
        Occurs::Never => minor == 0,
        Occurs::Once(value) => is_host(value),
        Occurs::Again => false,
    }
}

/// Whether two names are one, without case.
pub(crate) fn same_name(a: &[u8], b: &[u8]) -> bool
    ensures { result ≡ same_name a.now b.now }
{
    a.eq_ignore_ascii_case(b)
}

/// The values of the fields of that name.
pub(crate) fn find_field<'b>(text: &'b [u8], fields: &[HeaderSpan], name: &[u8]) -> Occurs<'b>
    requires { All (IsHeaderWithin (length text.now)) fields.now }
    ensures { Occurred (values name.now (map (header_bytes text.now) fields.now)) result }
{
    let mut found = Occurs::Never;
    for field in fields {
        if same_name(field.name.of(text), name) {
            found = found.and(field.value.of(text));
        }
    }
    found
}

/// Whether this is a byte of a Host value.
#[tactic(auto, unfolding(crate::specs::Fields::is_host_byte))]
fn is_host_byte(b: u8) -> bool
    ensures { result ≡ is_host_byte b }
{
    b.is_ascii_alphanumeric() || is_one_of(b, b"-._~:[]%!$&'()*+,;=")
}

/// Whether the byte is one of these.
fn is_one_of(b: u8, bytes: &[u8]) -> bool
    ensures { result ≡ list_any (λ c. c == b) bytes.now }
{
    bytes.iter().any(|c| *c == b)
}

fn all_host_bytes(value: &[u8]) -> bool
    ensures { result ≡ list_all is_host_byte value.now }
{
    value.iter().all(|b| is_host_byte(*b))
}

/// Whether this is a value of a Host field.
#[tactic(auto, unfolding(crate::specs::Fields::is_host))]
pub(crate) fn is_host(value: &[u8]) -> bool
    ensures { result ≡ is_host value.now }
{
    value.len() <= 255 && all_host_bytes(value)
}

/// Whether this is a target.
pub(crate) fn is_target(bytes: &[u8]) -> bool
    ensures { result ≡ is_target bytes.now }
{
    is_text::<TargetRule>(bytes)
}

/// Whether this field says that a body follows.
#[tactic(auto, unfolding(crate::specs::Fields::says_body))]
fn says_body(text: &[u8], field: &HeaderSpan) -> bool
    requires { IsHeaderWithin (length text.now) field.now }
    ensures { result ≡ says_body (header_bytes text.now field.now) }
{
    let name = field.name.of(text);
    same_name(name, b"transfer-encoding")
        || same_name(name, b"content-length") && field.value.of(text) != b"0".as_slice()
}

/// Whether a field says that a body follows.
pub(crate) fn any_body(text: &[u8], fields: &[HeaderSpan]) -> bool
    requires { All (IsHeaderWithin (length text.now)) fields.now }
    ensures { result ≡ list_any says_body (map (header_bytes text.now) fields.now) }
{
    for field in fields {
        if says_body(text, field) {
            return true;
        }
    }
    false
}

fn is_ows(b: u8) -> bool
    ensures { result ≡ is_ows b }
{
    b == b' ' || b == b'\t'
}

/// Whether the member is close, without the spaces and tabs around it.
fn is_close(member: &[u8]) -> bool
    ensures { result ≡ same_name (trim_ows member.now) (codes "close") }
{
    same_name(trim_ows(member), b"close")
}

/// The text without the spaces and tabs at both ends.
fn trim_ows(text: &[u8]) -> &[u8]
    ensures { result.now ≡ trim_ows text.now }
{
    trim(text, 0, text.len()).of(text)
}

/// The part of `start..end` without the spaces and tabs at both ends.
fn trim(buf: &[u8], mut start: usize, mut end: usize) -> Span
    requires ordered { start ≤ end }
    requires in_range { end ≤ length buf.now }
    ensures within { IsWithin end result }
    ensures value { span_bytes buf.now result ≡ trim_ows (slice_range buf.now start end) }
{
    while start < end && is_ows(buf[start]) {
        start += 1;
    }
    while start < end && is_ows(buf[end - 1]) {
        end -= 1;
    }
    Span { start, end }
}

/// Whether close stands between the commas.
fn has_close_member(value: &[u8]) -> bool
    ensures { result ≡ list_any
        (λ member. same_name (trim_ows member) (codes "close")) (slice_split
        (λ b. b == 44) value.now) }
{
    value.split(|b| *b == b',').any(|member| is_close(member))
}

/// Whether this field closes the link.
#[tactic(auto, unfolding(crate::specs::Fields::says_close, crate::specs::Fields::has_close))]
fn says_close(text: &[u8], field: &HeaderSpan) -> bool
    requires { IsHeaderWithin (length text.now) field.now }
    ensures { result ≡ says_close (header_bytes text.now field.now) }
{
    same_name(field.name.of(text), b"connection") && has_close_member(field.value.of(text))
}

/// Whether a field closes the link.
pub(crate) fn any_close(text: &[u8], fields: &[HeaderSpan]) -> bool
    requires { All (IsHeaderWithin (length text.now)) fields.now }
    ensures { result ≡ list_any says_close (map (header_bytes text.now) fields.now) }
{
    for field in fields {
        if says_close(text, field) {
            return true;
        }
    }
    false
}
