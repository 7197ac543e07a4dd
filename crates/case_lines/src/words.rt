//! The words of a line, and what they spell.

ghost use Rattle.std.specs.Prelude.{◌≤◌, length};

use crate::fault::Fault;
use std::alloc::Global;

/// The words of a line, which blanks part; a blank between quotation marks parts none.
pub fn tokens<'a>(alloc: Global, line: &'a [u8]) -> Result<Vec<&'a [u8]>, Fault> {
    let mut all = Vec::new(alloc);
    let mut rest = line;
    for _ in 0..line.len() {
        rest = rest.trim_ascii_start();
        let end = end_of(rest);
        if end == 0 {
            break;
        }
        let (token, behind) = rest.split_at(end);
        all.push(token)?;
        rest = behind;
    }
    Ok(all)
}

/// Where the first word of the line ends.
fn end_of(line: &[u8]) -> usize
    ensures { result ≤ length line.now }
{
    let mut is_quoted = false;
    let mut is_escaped = false;
    for (at, byte) in line.iter().enumerate() {
        match byte {
            b' ' if !is_quoted => return at,
            b'"' if !is_escaped => is_quoted = !is_quoted,
            _ => {}
        }
        is_escaped = is_quoted && !is_escaped && *byte == b'\\';
    }
    line.len()
}

/// The number that a word spells.
pub fn number(token: &[u8]) -> Result<u64, Fault> {
    match str::from_utf8(token) {
        Ok(text) => match text.parse::<u64>() {
            Ok(n) => Ok(n),
            Err(_) => Err(Fault::Number),
        },
        Err(_) => Err(Fault::Number),
    }
}

/// The numbers that words spell.
pub(crate) fn numbers(alloc: Global, tokens: &[&[u8]]) -> Result<Vec<u64>, Fault> {
    let mut all = Vec::new(alloc);
    for token in tokens {
        all.push(number(token)?)?;
    }
    Ok(all)
}

/// A number of at most 32 bits.
pub fn small(token: &[u8]) -> Result<u32, Fault> {
    match u32::try_from(number(token)?) {
        Ok(n) => Ok(n),
        Err(_) => Err(Fault::Number),
    }
}
