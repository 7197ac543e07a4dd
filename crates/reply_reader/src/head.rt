ghost use Rattle.std.specs.Prelude.{◌≡◌, ◌≤◌, Some, None, codes, length, map, option_map, All, IfSome, IfNone};
ghost use Rattle.httparse.specs.Spans.{IsHeaderWithin, header_bytes, span_bytes};
ghost use Rattle.mc_records.specs.declared.ranges.TheConstants.{MOST_CONTENTS};
ghost use Rattle.millicent_http.specs.Fields.{values};
ghost use Rattle.reply_reader.specs.Said.{said_by, length_said, refusal_said, HeadSays, SaysNothing};
ghost use Rattle.reply_reader.specs.Places.{MayBeWithin, AreWithin, said_at};
ghost use Rattle.reply_reader.specs.Replies.{received_with};
ghost use Rattle.reply_reader.specs.Seen.{received_of};

use crate::decimals::{decimal_of, is_refusal_text};
use crate::places::{Place, find_one, find_place};
use crate::reply::ReplyRef;
use httparse::Status;
use httparse::spans::{EMPTY_HEADER_SPAN, HeaderSpan, Span, parse_response};
use mc_records::MOST_CONTENTS;

/// The most fields that a head may have.
const MAX_FIELDS: usize = 64;

/// Where the values of a reply's head stand in its text, and how many bytes of contents it says.
#[derive(Clone, Copy)]
pub(crate) struct HeadPlaces {
    pub status: u16,
    pub refusal: Option<Span>,
    pub price: Span,
    pub change: Span,
    pub sign: Span,
    pub length: usize,
}

impl HeadPlaces {
    /// The reply with this head and these contents.
    pub(crate) fn reply<'b>(self, text: &'b [u8], contents: &'b [u8]) -> ReplyRef<'b>
        requires { AreWithin (length text.now) self }
        ensures { received_of result ≡ received_with (said_at text.now self) contents.now }
    {
        ReplyRef {
            status: self.status,
            refusal: self.refusal.map(|place| place.of(text)),
            price: self.price.of(text),
            change: self.change.of(text),
            sign: self.sign.of(text),
            contents,
        }
    }
}

/// Reads the text up to the first empty line's end; None where it is no head of a reply.
pub(crate) fn read_head(text: &[u8]) -> Option<HeadPlaces>
    ensures within { IfSome result (AreWithin (length text.now)) }
    ensures says { IfSome result (λ h. HeadSays text.now (said_at text.now h)) }
    ensures none { IfNone result (SaysNothing text.now) }
{
    let mut fields = [EMPTY_HEADER_SPAN; MAX_FIELDS];
    match parse_response(text, &mut fields) {
        Ok(Status::Complete(head)) if head.len == text.len() => {
            read_fields(text, head.code, &fields[..head.headers])
        }
        _ => None,
    }
}

/// What a head of the grammar says, by its status and its fields.
fn read_fields(text: &[u8], status: u16, fields: &[HeaderSpan]) -> Option<HeadPlaces>
    requires { All (IsHeaderWithin (length text.now)) fields.now }
    ensures within { IfSome result (AreWithin (length text.now)) }
    ensures says { IfSome result
        (λ h. said_by status (map (header_bytes text.now) fields.now) ≡ Some (said_at text.now h)) }
    ensures none { IfNone result (said_by status (map (header_bytes text.now) fields.now) ≡ None) }
{
    let length = read_length(text, fields)?;
    let price = find_one(text, fields, b"millicent-price")?;
    let change = find_one(text, fields, b"millicent-change")?;
    let sign = find_one(text, fields, b"millicent-sign")?;
    let refusal = read_refusal(text, status, fields)?;
    Some(HeadPlaces {
        status,
        refusal,
        price,
        change,
        sign,
        length,
    })
}

/// How many bytes of contents the head says, if it says that once and as it must.
fn read_length(text: &[u8], fields: &[HeaderSpan]) -> Option<usize>
    requires { All (IsHeaderWithin (length text.now)) fields.now }
    ensures says { result
        ≡ length_said (values (codes "content-length") (map (header_bytes text.now) fields.now)) }
    ensures within { IfSome result (λ n. n ≤ MOST_CONTENTS) }
{
    let place = find_one(text, fields, b"content-length")?;
    let length = decimal_of(MOST_CONTENTS as u64, place.of(text))?;
    Some(length as usize)
}

/// Where the refusal stands, if there is one exactly where the status is no 200.
fn read_refusal(text: &[u8], status: u16, fields: &[HeaderSpan]) -> Option<Option<Span>>
    requires { All (IsHeaderWithin (length text.now)) fields.now }
    ensures within { IfSome result (MayBeWithin (length text.now)) }
    ensures some { IfSome result (λ place. refusal_said status
        (values (codes "millicent-refusal") (map (header_bytes text.now) fields.now))
        ≡ Some (option_map (span_bytes text.now) place)) }
    ensures none { IfNone result (refusal_said status
        (values (codes "millicent-refusal") (map (header_bytes text.now) fields.now)) ≡ None) }
{
    match find_place(text, fields, b"millicent-refusal") {
        Place::Nowhere if status == 200 => Some(None),
        Place::Once(place) if status != 200 && is_refusal_text(place.of(text)) => Some(Some(place)),
        _ => None,
    }
}
