ghost use Rattle.std.specs.Prelude.{◌≡◌, ◌^◌, ◌≤◌, IfSome};
ghost use Rattle.millicent_http.specs.Decimals.{decimal_of};
ghost use Rattle.reply_reader.specs.Said.{is_refusal_text};

use mc_fields::{number_of, read_number};

/// The number of at most `most` that the bytes spell whole, in decimal and without a leading zero; 0 is
/// such a number.
pub(crate) fn decimal_of(most: u64, bytes: &[u8]) -> Option<u64>
    requires { most ≤ 2 ^ 60 }
    ensures number { result ≡ decimal_of most bytes.now }
    ensures within { IfSome result (λ n. n ≤ most) }
{
    if bytes == b"0".as_slice() {
        Some(0)
    } else {
        number_of(most, bytes)
    }
}

/// Whether the text begins with a decimal number of at most 65,535 and a space.
pub(crate) fn is_refusal_text(text: &[u8]) -> bool
    ensures { result ≡ is_refusal_text text.now }
{
    if text.starts_with(b"0") {
        text.starts_with(b"0 ")
    } else {
        read_number(65_535, b' ', text).is_ok()
    }
}
