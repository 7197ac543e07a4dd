//! Parts of texts that are shown on standard error.

use command_table::{MOST_NUMBER, number_from};

/// The most bytes of a text that are shown.
const MOST_SHOWN: usize = 120;

/// The bytes before the first space.
pub(crate) fn before_space(bytes: &[u8]) -> &[u8] {
    match bytes.iter().position(|b| *b == b' ') {
        Some(n) if n <= bytes.len() => &bytes[..n],
        _ => bytes,
    }
}

/// The front of a text that can be shown: printable characters of ASCII, and not too many.
pub(crate) fn shown(bytes: &[u8]) -> &str {
    let front = &bytes[..bytes.len().min(MOST_SHOWN)];
    let text = match front.iter().position(|b| !matches!(*b, b' '..=b'~')) {
        Some(n) if n <= front.len() => &front[..n],
        _ => front,
    };
    str::from_utf8(text).unwrap_or("")
}

/// The word of this number, from 0, without those that stand for nothing; none where there are fewer.
pub fn word(words: &[String], number: usize) -> &str {
    let mut left = number;
    for word in words {
        if word.as_str() == "--" {
            continue;
        }
        if left == 0 {
            return word.as_str();
        }
        left -= 1;
    }
    ""
}

/// The number with which a text begins, up to a space.
pub(crate) fn leading_number(text: &str) -> Option<u64> {
    number_from(0, MOST_NUMBER, before_space(text.as_bytes()))
}
