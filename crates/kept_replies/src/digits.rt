//! Numbers by as many bytes as they need, the least byte first.

ghost use Rattle.std.specs.Prelude.{◌≡◌, ◌+◌, ◌≤◌, ◌<◌, ◌^◌, vec_len, vec_capacity, slice_range};
ghost use Rattle.kept_replies.specs.Parts.{StaysIn, number_in};

use crate::span::put;

/// Puts the bytes of a number behind what the buffer holds, and answers where they end. What stood there
/// before stands there still.
pub(crate) fn put_number(buffer: &mut Vec<u8>, number: u64) -> u16
    requires room { vec_len buffer.old + 8 ≤ vec_capacity buffer.old }
    requires short { vec_len buffer.old + 8 < 2 ^ 16 }
    ensures end { result ≡ vec_len buffer.new }
    ensures longer { vec_len buffer.old ≤ result }
    ensures most { result ≤ vec_len buffer.old + 8 }
    ensures capacity { vec_capacity buffer.old ≤ vec_capacity buffer.new }
    ensures stays { StaysIn buffer.old.items buffer.new.items }
    ensures number { number_in (slice_range buffer.new.items (vec_len buffer.old) result) ≡ number }
{
    let bytes = number.to_le_bytes();
    let mut len = bytes.len();
    while len > 0 && bytes[len - 1] == 0 {
        len -= 1;
    }
    put(buffer, &bytes[..len])
}

/// The number of these bytes.
pub(crate) fn number_of(bytes: &[u8]) -> u64
    requires { number_in bytes.now < 2 ^ 64 }
    ensures { result ≡ number_in bytes.now }
{
    match bytes {
        [] => 0,
        [first, rest @ ..] => u64::from(*first) + 256 * number_of(rest),
    }
}
