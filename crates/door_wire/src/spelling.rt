//! What a client tells at a door.

ghost use Rattle.std.specs.Prelude.{◌≡◌, ◌++◌, map, string_bytes, decimal, length, codes, IsTrue, OnOk};
ghost use Rattle.std.specs.List.{list_all};
ghost use Rattle.door_wire.specs.Wire.{IsTold, are_plain, is_plain, spaced, told_of, with_dash};

use itoa::Buffer;
use mc_base::NoMemory;

/// Whether a door can be told the words, those after the program's name: there are three or more, and none but the third has a
/// space or an end of a line.
pub fn can_be_told(words: &[String]) -> bool
    ensures { result ≡ are_plain (map string_bytes words.now) }
{
    if words.len() < 3 {
        return false;
    }
    have_no_space(&words[..2]) && have_no_space(&words[3..])
}

/// Whether none of the words has a space or an end of a line.
fn have_no_space(words: &[String]) -> bool
    ensures { result ≡ list_all (λ word. is_plain (string_bytes word)) words.now }
{
    words.iter().all(|word| is_plain(word))
}

/// Whether a word has no space and no end of a line.
fn is_plain(word: &str) -> bool
    ensures { result ≡ is_plain word.now }
{
    word.as_bytes()
        .iter()
        .all(|byte| *byte != b' ' && *byte != b'\n')
}

/// Appends what a door is told for these words, those after the program's name, and this input, with a hyphen in the place of
/// the third word, which names the door. After an `Err` a part of it may stand behind the bytes from before.
pub fn put_told(words: &[String], input: &[u8], out: &mut Vec<u8>) -> Result<(), NoMemory>
    requires plain { IsTrue (are_plain (map string_bytes words.now)) }
    ensures put { OnOk result (out.new.items
        ≡ out.old.items ++ told_of (with_dash (map string_bytes words.now)) input.now) }
    ensures told { OnOk result (IsTold
        (told_of (with_dash (map string_bytes words.now)) input.now)
        (with_dash (map string_bytes words.now)) input.now) }
{
    let mut digits = Buffer::new();
    out.extend_from_slice(digits.format(input.len()).as_bytes())?;
    put_words(&words[..2], out)?;
    out.extend_from_slice(b" -")?;
    put_words(&words[3..], out)?;
    out.extend_from_slice(b"\n")?;
    out.extend_from_slice(input)?;
    Ok(())
}

/// Appends each word behind a space.
fn put_words(words: &[String], out: &mut Vec<u8>) -> Result<(), NoMemory>
    ensures { OnOk result (out.new.items
        ≡ out.old.items ++ spaced (map string_bytes words.now)) }
{
    for word in words {
        out.extend_from_slice(b" ")?;
        out.extend_from_slice(word.as_bytes())?;
    }
    Ok(())
}
