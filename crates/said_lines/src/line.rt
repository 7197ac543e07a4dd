//! A line with room for its end.

ghost use Rattle.std.specs.Prelude.{◌≡◌, ◌++◌, ◌≤◌, ◌+◌, ℕ, List as Items, length, decimal, IfOk, vec_len, vec_capacity};
ghost use Rattle.said_lines.specs.Lines.{ready, with_number};

use itoa::Buffer;
use mc_base::NoMemory;
use scrip_form::Name;
use std::alloc::Global;

/// How many bytes are made ready behind the words that a line begins with: as many as any line goes on with that is
/// ended without memory.
pub const READY: usize = 128;

/// A line of a word and a name, and what stands behind them.
pub fn begin(alloc: Global, word: &[u8], name: &Name, behind: &[u8]) -> Result<Vec<u8>, NoMemory>
    ensures { IfOk result (λ line. line.items ≡ word.now ++ name.now ++ behind.now) }
{
    let mut line = Vec::new(alloc);
    line.extend_from_slice(word)?;
    line.extend_from_slice(name.bytes())?;
    line.extend_from_slice(behind)?;
    Ok(line)
}

/// These words, and behind them bytes that hold the place of the rest.
pub fn ready(mut words: Vec<u8>) -> Result<Vec<u8>, NoMemory>
    ensures { IfOk result (λ line. line.items ≡ ready words.items) }
{
    words.extend_from_slice(&[0; READY])?;
    Ok(words)
}

/// Takes away the bytes that held the place of the rest of a line, for which there is room then.
pub fn lay_bare(line: &mut Vec<u8>)
    requires { (words : Items ℕ) × (line.old.items ≡ ready words) }
    ensures words { (words : Items ℕ) → line.old.items ≡ ready words → line.new.items ≡ words }
    ensures room { vec_len line.new + READY ≤ vec_capacity line.new }
{
    let kept = line.len() - READY;
    line.truncate(kept);
}

/// Ends a line, which has room for it, by a number. It takes no memory.
pub fn end_line(line: &mut Vec<u8>, number: u64)
    requires { vec_len line.old + READY ≤ vec_capacity line.old }
    ensures { line.new.items ≡ with_number line.old.items number }
{
    put_number(line, number);
    put(line, b"\n");
}

/// Appends a number in decimal, for which there is room. It takes no memory.
pub fn put_number(line: &mut Vec<u8>, number: u64)
    requires { vec_len line.old + 20 ≤ vec_capacity line.old }
    ensures items { line.new.items ≡ line.old.items ++ decimal number }
    ensures len { vec_len line.new ≤ vec_len line.old + 20 }
    ensures capacity { vec_capacity line.old ≤ vec_capacity line.new }
{
    let mut digits = Buffer::new();
    put(line, digits.format(number).as_bytes());
}

/// Appends bytes, for which there is room. It takes no memory.
pub fn put(line: &mut Vec<u8>, bytes: &[u8])
    requires { vec_len line.old + length bytes.now ≤ vec_capacity line.old }
    ensures items { line.new.items ≡ line.old.items ++ bytes.now }
    ensures len { vec_len line.new ≡ vec_len line.old + length bytes.now }
    ensures capacity { vec_capacity line.old ≤ vec_capacity line.new }
{
    match line.extend_from_slice(bytes) {
        Ok(()) => (),
        Err(_) => unreachable!(),
    }
}
