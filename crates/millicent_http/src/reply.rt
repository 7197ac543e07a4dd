ghost use Rattle.std.specs.Prelude.{◌≡◌, ◌+◌, ◌≤◌, ◌++◌, length, take};
ghost use Rattle.mc_requests.specs.Requests.{seen};
ghost use Rattle.mc_requests.specs.Replies.{field, or_dash};

use mc_base::Moment;
use mc_fields::put;
use mc_requests::Refusal;

/// The values of a reply's head. A 200 has a kind of contents and no refusal; any other status is
/// that of a refusal, which has no kind. No price, no change and no signature is written as `-`.
#[derive(Clone, Copy)]
pub struct ReplyHead<'a> {
    /// The status in HTTP: 200, or that of the refusal.
    pub status: u16,
    /// The moment of the date.
    pub date: Moment,
    /// 0 for bytes, 1 for plain text, 2 for HTML.
    pub kind: Option<u8>,
    /// How many bytes of contents follow the head.
    pub length: u32,
    pub refusal: Option<&'a Refusal>,
    pub price: Option<u64>,
    /// The scrip text of the change.
    pub change: Option<&'a [u8]>,
    /// The reply signature, which is written in hex digits.
    pub sign: Option<[u8; 16]>,
}

/// Writes a field line, `NAME: VALUE` and its line end, at a place of the buffer, and answers the place behind it.
pub fn put_field(out: &mut [u8], at: usize, name: &[u8], value: &[u8]) -> usize
    requires { at + length name.now + length value.now + 4 ≤ length out.old }
    ensures end { result ≡ at + length name.now + length value.now + 4 }
    ensures put { take result out.new ≡ take at out.old ++ field name.now value.now }
{
    let at = put(out, at, name);
    let at = put(out, at, b": ");
    let at = put(out, at, value);
    put(out, at, b"\r\n")
}

/// The value, or a dash where there is none, as it stands in fields and in what is signed.
pub fn or_dash<'a>(value: Option<&'a [u8]>) -> &'a [u8]
    ensures { result.now ≡ or_dash (seen value.entry) }
{
    value.unwrap_or(b"-")
}
