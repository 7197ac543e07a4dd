//! Which word of bad words is wrong.

ghost use Rattle.std.specs.Prelude.{◌<◌, ◌↔◌, length, map, string_bytes, IfOk, IsTrue};
ghost use Rattle.mc_words.specs.Wrong.{GoOn, IsFirstWrong, IsShown, IsToldOf};

use command_table::{COMMANDS, may_begin, reads_secrets};
use std::alloc::{AllocError, Global};

/// What is told of a wrong word.
#[derive(Clone, Copy)]
pub enum WrongWord<'a> {
    /// Its text.
    Word(&'a str),
    /// Its place, counted from 1, and nothing of its text: the command reads secrets, and one of them may
    /// stand there.
    Place(usize),
}

/// The first word that no command could have there, given the words before; None where each could be there, so
/// that words lack. An Err is want of memory alone.
pub fn wrong_word<'a>(
    alloc: Global,
    words: &'a [String],
) -> Result<Option<WrongWord<'a>>, AllocError>
    ensures { IfOk result (IsToldOf (map string_bytes words.entry.now)) }
{
    let Some(place) = first_wrong(alloc, words)? else {
        return Ok(None);
    };
    Ok(Some(shown(words, place)))
}

/// What is shown of the word at this place.
fn shown<'a>(words: &'a [String], place: usize) -> WrongWord<'a>
    requires { place < length words.now }
    ensures { IsShown (map string_bytes words.entry.now) place result }
{
    if place >= 2 && reads_secrets(words) {
        return WrongWord::Place(place + 1);
    }
    WrongWord::Word(words[place].as_str())
}

/// The place of the first word that is wrong, counted from 0.
fn first_wrong(alloc: Global, words: &[String]) -> Result<Option<usize>, AllocError>
    ensures { IfOk result (IsFirstWrong (map string_bytes words.now)) }
{
    for place in 0..words.len() {
        if !go_on(alloc, &words[..place + 1])? {
            return Ok(Some(place));
        }
    }
    Ok(None)
}

/// Whether the words of a command may begin with these.
fn go_on(alloc: Global, words: &[String]) -> Result<bool, AllocError>
    ensures { IfOk result (λ r. IsTrue r ↔ GoOn (map string_bytes words.now)) }
{
    for name in &COMMANDS {
        if may_begin(alloc, *name, words)? {
            return Ok(true);
        }
    }
    Ok(false)
}
