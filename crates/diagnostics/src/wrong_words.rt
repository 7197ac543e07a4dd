//! What is told of words that are of no command.

use command_help::meaning_of;
use command_table::{Parameter, Shape, Sort, unfit_parameter, usage_of};
use mc_words::{WrongWord, wrong_word};
use std::alloc::{AllocError, Global};

/// Tells on standard error which word is wrong, where one is, by its place where it may be a secret, and what may be
/// written there, or which word is missing; and which words the command has that these begin with, or which commands
/// there are.
pub fn tell_usage(rt: &impl Eprint, alloc: Global, words: &[String]) {
    match wrong_word(alloc, words) {
        Ok(Some(WrongWord::Word(word))) => {
            let _ = eprintln!(rt; "millicent: {word}: wrong word");
            tell_of_word(rt, alloc, words, word);
        }
        Ok(Some(WrongWord::Place(place))) => {
            let _ = eprintln!(rt; "millicent: word {place}: wrong word");
            if let Some(word) = words.get(place.saturating_sub(1)) {
                tell_of_word(rt, alloc, words, word);
            }
        }
        Ok(None) => tell_missing(rt, alloc, words),
        Err(_) => {}
    }
    let line = usage_of(words);
    let _ = eprintln!(rt; "{line}");
    let _ = eprintln!(rt; "see millicent --help");
}

/// Tells what is wrong with a word, and what may be written in its place.
fn tell_of_word(rt: &impl Eprint, alloc: Global, words: &[String], word: &str) {
    tell_capitals(rt, alloc, words, word);
    if is_below_zero(word) {
        let Ok(others) = without_text(alloc, words, word) else {
            return;
        };
        tell_values(rt, alloc, &others);
    } else {
        tell_values(rt, alloc, words);
    }
}

/// Whether the word is a number with a hyphen before it, which is read as an option.
fn is_below_zero(word: &str) -> bool {
    matches!(word.as_bytes(), [b'-', b'0'..=b'9', ..])
}

/// The words, with none of its text in those that are this one, so that each is the value of no number.
fn without_text(alloc: Global, words: &[String], word: &str) -> Result<Vec<String>, AllocError> {
    let mut others = Vec::new(alloc);
    for other in words {
        if other.as_str() == word {
            others.push(String::new(alloc))?;
        } else {
            others.push(other.clone()?)?;
        }
    }
    Ok(others)
}

/// Tells which values a parameter has, where a word spells none of them.
fn tell_values(rt: &impl Eprint, alloc: Global, words: &[String]) {
    if let Ok(Some(parameter)) = unfit_parameter(alloc, words) {
        tell_form(rt, parameter);
    }
}

/// Tells which word is missing, what it is for, and which values it has: the one that an empty word behind the others
/// would be. Contents alone may be empty, and nothing is told of them.
fn tell_missing(rt: &impl Eprint, alloc: Global, words: &[String]) {
    let Ok(others) = with_one_more(alloc, words) else {
        return;
    };
    let Ok(Some(parameter)) = unfit_parameter(alloc, &others) else {
        return;
    };
    let name = parameter.name();
    match parameter.shape() {
        Shape::Setting(_) => {
            let _ = eprintln!(rt; "millicent: --{name} has no value");
        }
        _ => {
            let meaning = meaning_of(parameter);
            let _ = eprintln!(rt; "millicent: {name} is missing: {meaning}");
        }
    }
    tell_form(rt, parameter);
}

/// The words, with an empty one behind them.
fn with_one_more(alloc: Global, words: &[String]) -> Result<Vec<String>, AllocError> {
    let mut others = Vec::new(alloc);
    for other in words {
        others.push(other.clone()?)?;
    }
    others.push(String::new(alloc))?;
    Ok(others)
}

/// Tells which words a parameter has.
fn tell_form(rt: &impl Eprint, parameter: Parameter) {
    let name = parameter.name();
    match parameter.shape() {
        Shape::One(sort) => tell_sort(rt, "", name, sort),
        Shape::Places => tell_sort(rt, "", name, Sort::Place),
        Shape::Setting(sort) => match parameter {
            Parameter::Kind => {
                let _ = eprintln!(rt; "millicent: --{name} is 0 (bytes), 1 (text) or 2 (HTML)");
            }
            _ => tell_sort(rt, "--", name, sort),
        },
        Shape::Flag => {}
    }
}

/// Tells which words of this sort the parameter of this name has.
fn tell_sort(rt: &impl Eprint, hyphens: &str, name: &str, sort: Sort) {
    let what = match sort {
        Sort::Number(least, most) => {
            let _ = eprintln!(rt; "millicent: {hyphens}{name} is a number from {least} to {most}");
            return;
        }
        Sort::Place => "1 to 255 bytes",
        Sort::Listen => {
            "a host or address, a colon and a port, as 127.0.0.1:8081, or a path of 2 to 107 bytes, the first /"
        }
        Sort::Connect => "a host or address, a colon and a port, as 127.0.0.1:8081",
        Sort::Socket => "the path of a Unix socket, of 2 to 107 bytes, the first /",
        Sort::Name => {
            "1 to 63 of a to z, 0 to 9, - and ., the first a letter or a digit; no capitals, no blank, no /"
        }
        Sort::Target => {
            "1 to 512 visible characters of ASCII, the first /; write others as %C3%A4"
        }
        Sort::Contents => "65,536 bytes at most",
        Sort::Secret => "32 of 0 to 9 and a to f",
        Sort::Secrets => "1 to 16 times 32 of 0 to 9 and a to f, with a comma between each two",
    };
    let _ = eprintln!(rt; "millicent: {hyphens}{name} is {what}");
}

/// Tells where it is the capital letters for which the word is wrong.
fn tell_capitals(rt: &impl Eprint, alloc: Global, words: &[String], word: &str) {
    let Ok(small) = in_small_letters(alloc, words, word) else {
        return;
    };
    let is_wrong_still = match wrong_word(alloc, &small) {
        Ok(Some(WrongWord::Word(other))) => other.eq_ignore_ascii_case(word),
        Ok(Some(WrongWord::Place(place))) => match small.get(place.saturating_sub(1)) {
            Some(other) => other.eq_ignore_ascii_case(word),
            None => true,
        },
        Ok(None) => false,
        Err(_) => true,
    };
    if !is_wrong_still {
        let _ = eprintln!(rt; "millicent: capital letters are wrong there, small ones are right");
    }
}

/// The words, with small letters in those that are this one.
fn in_small_letters(
    alloc: Global,
    words: &[String],
    word: &str,
) -> Result<Vec<String>, AllocError> {
    let mut small = Vec::new(alloc);
    for other in words {
        let mut copy = other.clone()?;
        if other.as_str() == word {
            copy.make_ascii_lowercase();
        }
        small.push(copy)?;
    }
    Ok(small)
}
