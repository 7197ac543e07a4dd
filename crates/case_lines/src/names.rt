//! Bytes as cases spell them, and the names that they are given.

ghost use Rattle.std.specs.Prelude.{◌<◌, ◌≤◌, length, IfOk};

use crate::fault::Fault;
use crate::words::number;
use std::alloc::Global;

/// Bytes that have a name.
#[derive(Drop)]
struct Named {
    name: Vec<u8>,
    bytes: Vec<u8>,
}

/// The names that bytes were given.
#[derive(Drop)]
pub struct Names {
    alloc: Global,
    all: Vec<Named>,
}

/// The most bytes that one part may be repeated to.
const MOST: usize = 1 << 24;

impl Names {
    pub(crate) fn new(alloc: Global) -> Names {
        Names {
            alloc,
            all: Vec::new(alloc),
        }
    }

    /// Gives bytes a name, in place of older ones.
    pub(crate) fn put(&mut self, name: &[u8], bytes: Vec<u8>) -> Result<(), Fault> {
        if name.is_empty() || !name.iter().all(|byte| is_of_name(*byte)) {
            return Err(Fault::Name);
        }
        for named in self.all.iter_mut() {
            if named.name.as_slice() == name {
                named.bytes = bytes;
                return Ok(());
            }
        }
        let name = Vec::from_slice(self.alloc, name)?;
        self.all.push(Named { name, bytes })?;
        Ok(())
    }

    fn get(&self, name: &[u8]) -> Result<&[u8], Fault> {
        for named in &self.all {
            if named.name.as_slice() == name {
                return Ok(named.bytes.as_slice());
            }
        }
        Err(Fault::Name)
    }

    /// The bytes that a word spells, part by part.
    pub fn bytes(&self, token: &[u8]) -> Result<Vec<u8>, Fault> {
        let mut all = Vec::new(self.alloc);
        let mut rest = token;
        for _ in 0..token.len() {
            let mut part = Vec::new(self.alloc);
            rest = self.part(rest, &mut part)?;
            rest = self.changed(rest, &mut part)?;
            all.extend_from_slice(&part)?;
            match rest.split_first() {
                None => return Ok(all),
                Some((b'+', behind)) => rest = behind,
                Some(_) => return Err(Fault::Bytes),
            }
        }
        Err(Fault::Bytes)
    }

    /// The bytes that a word spells, or none where it is `-`.
    pub(crate) fn some_bytes(&self, token: &[u8]) -> Result<Option<Vec<u8>>, Fault> {
        if token == b"-".as_slice() {
            return Ok(None);
        }
        match self.bytes(token) {
            Ok(bytes) => Ok(Some(bytes)),
            Err(fault) => Err(fault),
        }
    }

    /// The text of a word of the program: as it stands, or the bytes that it spells.
    pub(crate) fn word(&self, token: &[u8]) -> Result<String, Fault> {
        match token {
            [b'"' | b'$', ..] => text_of(self.alloc, &self.bytes(token)?),
            _ => text_of(self.alloc, token),
        }
    }

    /// The words of a program.
    pub fn words(&self, tokens: &[&[u8]]) -> Result<Vec<String>, Fault> {
        let mut all = Vec::new(self.alloc);
        for token in tokens {
            all.push(self.word(token)?)?;
        }
        Ok(all)
    }

    /// Reads one part without what may stand behind it, and answers what follows.
    fn part<'a>(&self, text: &'a [u8], out: &mut Vec<u8>) -> Result<&'a [u8], Fault> {
        match text.split_first() {
            Some((b'"', rest)) => quoted(rest, out),
            Some((b'x', rest)) => digits(rest, out),
            Some((b'$', rest)) => {
                let (name, behind) = rest.split_at(name_of(rest));
                out.extend_from_slice(self.get(name)?)?;
                Ok(behind)
            }
            _ => Err(Fault::Bytes),
        }
    }

    /// Takes ranges of a part, and repeats it, as what stands behind it says; answers what follows.
    fn changed<'a>(&self, text: &'a [u8], part: &mut Vec<u8>) -> Result<&'a [u8], Fault> {
        let mut rest = text;
        for _ in 0..text.len() {
            match rest.split_first() {
                Some((b'[', behind)) => rest = cut(behind, part)?,
                Some((b'*', behind)) => rest = self.repeat(behind, part)?,
                _ => break,
            }
        }
        Ok(rest)
    }

    fn repeat<'a>(&self, text: &'a [u8], part: &mut Vec<u8>) -> Result<&'a [u8], Fault> {
        let (times, rest) = text.split_at(digits_of(text));
        let times = number(times)?;
        let once = Vec::from_slice(self.alloc, part)?;
        part.clear();
        for _ in 0..times {
            if part.len() > MOST {
                return Err(Fault::Bytes);
            }
            part.extend_from_slice(&once)?;
        }
        Ok(rest)
    }
}

fn is_of_name(byte: u8) -> bool {
    byte.is_ascii_lowercase() || byte.is_ascii_digit() || byte == b'_'
}

fn text_of(alloc: Global, bytes: &[u8]) -> Result<String, Fault> {
    match str::from_utf8(bytes) {
        Ok(text) => Ok(String::from_str(alloc, text)?),
        Err(_) => Err(Fault::Bytes),
    }
}

/// How many bytes of a name stand in front.
fn name_of(text: &[u8]) -> usize
    ensures { result ≤ length text.now }
{
    for (at, byte) in text.iter().enumerate() {
        if !is_of_name(*byte) {
            return at;
        }
    }
    text.len()
}

/// How many decimal digits stand in front.
fn digits_of(text: &[u8]) -> usize
    ensures { result ≤ length text.now }
{
    for (at, byte) in text.iter().enumerate() {
        if !byte.is_ascii_digit() {
            return at;
        }
    }
    text.len()
}

/// Reads a text up to its quotation mark, and answers what follows.
fn quoted<'a>(text: &'a [u8], out: &mut Vec<u8>) -> Result<&'a [u8], Fault> {
    let mut rest = text;
    for _ in 0..text.len() {
        rest = match rest {
            [b'"', behind @ ..] => return Ok(behind),
            [b'\\', b'n', behind @ ..] => pushed(b'\n', behind, out)?,
            [b'\\', b'r', behind @ ..] => pushed(b'\r', behind, out)?,
            [b'\\', b'x', high, low, behind @ ..] => pushed(byte_of(*high, *low)?, behind, out)?,
            [b'\\', byte, behind @ ..] => pushed(*byte, behind, out)?,
            [byte, behind @ ..] => pushed(*byte, behind, out)?,
            [] => break,
        };
    }
    Err(Fault::Bytes)
}

fn pushed<'a>(byte: u8, rest: &'a [u8], out: &mut Vec<u8>) -> Result<&'a [u8], Fault> {
    out.push(byte)?;
    Ok(rest)
}

/// Reads bytes by two hex digits each, and answers what follows.
fn digits<'a>(text: &'a [u8], out: &mut Vec<u8>) -> Result<&'a [u8], Fault> {
    let mut rest = text;
    for _ in 0..text.len() {
        rest = match rest {
            [high, low, behind @ ..] if high.is_ascii_hexdigit() => {
                pushed(byte_of(*high, *low)?, behind, out)?
            }
            _ => break,
        };
    }
    Ok(rest)
}

/// The byte of two hex digits.
fn byte_of(high: u8, low: u8) -> Result<u8, Fault> {
    Ok(digit(high)? * 16 + digit(low)?)
}

fn digit(byte: u8) -> Result<u8, Fault>
    ensures { IfOk result (λ n. n < 16) }
{
    match byte {
        b'0'..=b'9' => Ok(byte - b'0'),
        b'a'..=b'f' => Ok(byte - b'a' + 10),
        _ => Err(Fault::Bytes),
    }
}

/// Takes the range `A:B]` of a part, and answers what follows.
fn cut<'a>(text: &'a [u8], part: &mut Vec<u8>) -> Result<&'a [u8], Fault> {
    let (first, rest) = text.split_at(digits_of(text));
    let Some((b':', rest)) = rest.split_first() else {
        return Err(Fault::Range);
    };
    let (last, rest) = rest.split_at(digits_of(rest));
    let Some((b']', behind)) = rest.split_first() else {
        return Err(Fault::Range);
    };
    let from = place(first, 0)?;
    let to = place(last, part.len())?;
    if from > to || to > part.len() {
        return Err(Fault::Range);
    }
    part.truncate(to);
    part.copy_within(from..to, 0);
    part.truncate(to - from);
    Ok(behind)
}

/// The place that digits name; another one where there are none.
fn place(digits: &[u8], other: usize) -> Result<usize, Fault> {
    if digits.is_empty() {
        return Ok(other);
    }
    Ok(number(digits)? as usize)
}
