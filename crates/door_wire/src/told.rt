//! What is told at a door.

ghost use Rattle.std.specs.Prelude.{map, string_bytes, ◌≡◌, option_map, decimal, bytes_eq, IfOk, IfSome, IsNone};
ghost use Rattle.door_wire.specs.Wire.{IsTold, HasNoText, Pushes, TellsNoWords, told_parts, words_of};

use itoa::Buffer;
use mc_base::NoMemory;
use mc_fields::cut;
use std::alloc::Global;

/// The words of a command that is told, and its input.
#[derive(Drop)]
pub struct Told<'a> {
    pub words: Vec<String>,
    pub input: &'a [u8],
}

/// The words and the input that are told; None exactly where the bytes tell none.
pub fn read_told<'a>(alloc: Global, told: &'a [u8]) -> Result<Option<Told<'a>>, NoMemory>
    ensures some { IfOk result (λ r. IfSome r
        (λ t. IsTold told.entry.now (map string_bytes t.words.items) t.input.now)) }
    ensures none { IfOk result (λ r. IsNone r → TellsNoWords told.entry.now) }
{
    let Some((line, input)) = parts(told) else {
        return Ok(None);
    };
    match words_in(alloc, line)? {
        Some(words) => Ok(Some(Told { words, input })),
        None => Ok(None),
    }
}

/// The line of the words, and the input.
fn parts(told: &[u8]) -> Option<(&[u8], &[u8])>
    ensures { option_map (λ x. (x.0.now, x.1.now)) result ≡ told_parts told.now }
{
    let (head, input) = cut(b'\n', told)?;
    let (number, line) = cut(b' ', head)?;
    if is_spelled(input.len(), number) {
        Some((line, input))
    } else {
        None
    }
}

/// Whether the bytes are the decimal text of a number.
pub(crate) fn is_spelled(number: usize, bytes: &[u8]) -> bool
    ensures { result ≡ bytes_eq (decimal number) bytes.now }
{
    let mut digits = Buffer::new();
    digits.format(number).as_bytes() == bytes
}

/// The words of a line, which is cut at each space; None where one is no text.
fn words_in(alloc: Global, line: &[u8]) -> Result<Option<Vec<String>>, NoMemory>
    ensures some { IfOk result (λ r. IfSome r
        (λ words. map string_bytes words.items ≡ words_of line.now)) }
    ensures none { IfOk result (λ r. IsNone r → HasNoText (words_of line.now)) }
{
    let mut words = Vec::new(alloc);
    let mut rest = line;
    'words: loop {
        match cut(b' ', rest) {
            Some((word, behind)) => {
                if !push_word(alloc, &mut words, word)? {
                    return Ok(None);
                }
                rest = behind;
            }
            None => {
                if !push_word(alloc, &mut words, rest)? {
                    return Ok(None);
                }
                return Ok(Some(words));
            }
        }
    }
}

/// Appends a word; false where it is no text.
fn push_word(alloc: Global, words: &mut Vec<String>, word: &[u8]) -> Result<bool, NoMemory>
    ensures { IfOk result (λ is_text. Pushes is_text word.now
        (map string_bytes words.old.items) (map string_bytes words.new.items)) }
{
    let Ok(text) = str::from_utf8(word) else {
        return Ok(false);
    };
    words.push(String::from_str(alloc, text)?)?;
    Ok(true)
}
