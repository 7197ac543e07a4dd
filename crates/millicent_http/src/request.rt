ghost use Rattle.std.specs.Prelude.{◌≡◌, ◌==◌, ◌||◌, ◌&&◌, if◌then◌else◌, List, ℕ, codes, length, map, All};
ghost use Rattle.httparse.specs.Spans.{IsWithin, IsHeaderWithin, header_bytes, span_bytes};
ghost use Rattle.std.specs.List.{list_any};
ghost use Rattle.std.specs.Str.{bytes_eq};
ghost use Rattle.millicent_http.specs.Fields.{says_close, at_most_one, first_of};
ghost use Rattle.millicent_http.specs.Occurs.{Occurred};
ghost use Rattle.mc_requests.specs.declared.refusal.Refusal.TheVariants.{RepeatedField};
ghost use Rattle.millicent_http.specs.Items.{ReadsItem, judged, request, refused};
ghost use Rattle.millicent_http.specs.Takes.{item_of};

use crate::fields::{any_body, any_close, find_field, host_is_fit, is_target};
use crate::item::{HeadRefusal, ItemRef};
use crate::occurs::Occurs;
use httparse::Status;
use httparse::spans::{EMPTY_HEADER_SPAN, HeaderSpan, RequestSpans, parse_request};
use mc_requests::Request;

/// The most fields that a head may have.
const MAX_FIELDS: usize = 64;

/// Room for where the fields of a head are, for one head after another. What it has after a call is free.
pub(crate) type FieldRoom = [HeaderSpan; MAX_FIELDS];

/// Room for the fields of a head.
pub(crate) const FIELD_ROOM: FieldRoom = [EMPTY_HEADER_SPAN; MAX_FIELDS];

/// Reads the text up to the first empty line's end.
pub(crate) fn read_item<'b>(text: &'b [u8], headers: &mut FieldRoom) -> ItemRef<'b>
    ensures { ReadsItem text.now (item_of result) }
{
    match parse_request(text, headers) {
        Ok(Status::Complete(head)) if head.len == text.len() => {
            judge(text, head, &headers[..head.headers])
        }
        _ => ItemRef::Refused(HeadRefusal::BadHead, true),
    }
}

/// What a head of the grammar is.
fn judge<'b>(text: &'b [u8], head: RequestSpans, fields: &[HeaderSpan]) -> ItemRef<'b>
    requires method { IsWithin (length text.now) head.method }
    requires path { IsWithin (length text.now) head.path }
    requires fields { All (IsHeaderWithin (length text.now)) fields.now }
    ensures { item_of result ≡ judged (span_bytes text.now head.method) (span_bytes text.now head.path) head.version
        (map (header_bytes text.now) fields.now) }
{
    let close = closes(text, head.version, fields);
    if !host_is_fit(head.version, find_field(text, fields, b"host")) {
        return ItemRef::Refused(HeadRefusal::NoHost, close);
    }
    if any_body(text, fields) {
        return ItemRef::Refused(HeadRefusal::BodyRefused, true);
    }
    let target = head.path.of(text);
    if !is_target(target) {
        return ItemRef::Refused(HeadRefusal::BadTarget, close);
    }
    if !is_get(head.method.of(text)) {
        return ItemRef::Refused(HeadRefusal::BadMethod, close);
    }
    let scrip = find_field(text, fields, b"millicent-scrip");
    let sign = find_field(text, fields, b"millicent-sign");
    ask(target, scrip, sign, close)
}

/// The request, if neither field is there more than once.
fn ask<'b>(target: &'b [u8], scrip: Occurs<'b>, sign: Occurs<'b>, close: bool) -> ItemRef<'b>
    ensures { (scrips signs : List (List ℕ)) → Occurred scrips scrip.entry
        → Occurred signs sign.entry
        → item_of result ≡ (if at_most_one scrips && at_most_one signs
        then request (record { target = target.now; scrip = first_of scrips; sign = first_of signs }) close
        else refused RepeatedField close) }
{
    match (scrip.at_most_one(), sign.at_most_one()) {
        (Some(scrip), Some(sign)) => ItemRef::Request(
            Request {
                target,
                scrip,
                sign,
            },
            close,
        ),
        _ => ItemRef::Refused(HeadRefusal::RepeatedField, close),
    }
}

fn is_get(method: &[u8]) -> bool
    ensures { result ≡ bytes_eq method.now (codes "GET") }
{
    method == b"GET".as_slice()
}

/// Whether the link ends after the reply.
fn closes(text: &[u8], minor: u8, fields: &[HeaderSpan]) -> bool
    requires { All (IsHeaderWithin (length text.now)) fields.now }
    ensures { result ≡ (minor == 0 || list_any says_close (map (header_bytes text.now) fields.now)) }
{
    minor == 0 || any_close(text, fields)
}
