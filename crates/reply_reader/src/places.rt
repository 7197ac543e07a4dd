ghost use Rattle.std.specs.Prelude.{◌≡◌, ◌++◌, ◌∷◌, [], List, ℕ, length, map, All, IfSome, IfNone, Some, None};
ghost use Rattle.httparse.specs.Spans.{IsWithin, IsHeaderWithin, header_bytes, span_bytes};
ghost use Rattle.millicent_http.specs.Fields.{same_name, values};
ghost use Rattle.reply_reader.specs.Said.{the_one};
ghost use Rattle.reply_reader.specs.Places.{Stands};

use httparse::spans::{HeaderSpan, Span};

/// Where the value of a field stands, by how often the field occurs.
#[derive(Clone, Copy)]
pub(crate) enum Place {
    Nowhere,
    Once(Span),
    Again,
}

impl Place {
    /// The same with one more field, which has its value here.
    fn and(self, value: Span) -> Place
        ensures { (text : List ℕ) (values : List (List ℕ)) → IsWithin (length text) value
            → Stands text values self → Stands text (values ++ span_bytes text value ∷ []) result }
    {
        match self {
            Place::Nowhere => Place::Once(value),
            Place::Once(_) | Place::Again => Place::Again,
        }
    }
}

/// Where the value of the field of that name stands in the text.
pub(crate) fn find_place(text: &[u8], fields: &[HeaderSpan], name: &[u8]) -> Place
    requires { All (IsHeaderWithin (length text.now)) fields.now }
    ensures { Stands text.now (values name.now (map (header_bytes text.now) fields.now)) result }
{
    let mut found = Place::Nowhere;
    for field in fields {
        if same_name(field.name.of(text), name) {
            found = found.and(field.value);
        }
    }
    found
}

/// Where the value of the field of that name stands, if there is exactly one.
pub(crate) fn find_one(text: &[u8], fields: &[HeaderSpan], name: &[u8]) -> Option<Span>
    requires { All (IsHeaderWithin (length text.now)) fields.now }
    ensures within { IfSome result (IsWithin (length text.now)) }
    ensures some { IfSome result (λ s. the_one (values name.now (map (header_bytes text.now) fields.now))
        ≡ Some (span_bytes text.now s)) }
    ensures none { IfNone result
        (the_one (values name.now (map (header_bytes text.now) fields.now)) ≡ None) }
{
    match find_place(text, fields, name) {
        Place::Once(value) => Some(value),
        Place::Nowhere | Place::Again => None,
    }
}

/// Whether two names are one, without case.
fn same_name(a: &[u8], b: &[u8]) -> bool
    ensures { result ≡ same_name a.now b.now }
{
    a.eq_ignore_ascii_case(b)
}
