ghost use Rattle.std.specs.Prelude.{◌≡◌, true, List, [], map, string_bytes, IfOk};
ghost use Rattle.clap.specs.Simple.{app_of};
ghost use Rattle.clap.specs.Walk.{Rule};
ghost use Rattle.command_words.specs.Arguments.{command, found, is_exact, optional};

use crate::argument::AsArgument;
use crate::found::Found;
use clap::Command;
use clap::error::ErrorKind;
use std::alloc::{AllocError, Global};

/// Reads the words of a command that has these arguments: what `clap` finds in them, and None exactly
/// where it doesn't take them. The words are those behind the name of the command, and what is found
/// borrows them.
///
/// It takes memory, of bad words as well, since `clap` makes the text of its error; an Err is want of
/// memory alone. `is_exact` computes: for arguments that a program writes down `refl` proves it, with
/// `is_exact` and `command` unfolded. It fails where positional arguments stand behind `Positionals`.
pub fn read_words<'a, A: AsArgument>(
    alloc: Global,
    arguments: &[A],
    words: &'a [String],
) -> Result<Option<Found<'a>>, AllocError>
    requires { is_exact (map A.rule arguments.now) ≡ true }
    ensures { IfOk result (λ r. r ≡ found (map A.rule arguments.now) (map string_bytes words.entry.now)) }
{
    let command = command_of(alloc, arguments)?;
    read_by(command, words)
}

/// Reads words with which those of a command may begin: as `read_words`, where no argument is required.
pub fn read_beginning<'a, A: AsArgument>(
    alloc: Global,
    arguments: &[A],
    words: &'a [String],
) -> Result<Option<Found<'a>>, AllocError>
    requires { is_exact (map optional (map A.rule arguments.now)) ≡ true }
    ensures { IfOk result (λ r. r ≡ found (map optional (map A.rule arguments.now))
        (map string_bytes words.entry.now)) }
{
    let command = beginning_of(alloc, arguments)?;
    read_by(command, words)
}

/// What a command of `clap` finds in the words.
fn read_by<'a>(app: Command<'a>, words: &'a [String]) -> Result<Option<Found<'a>>, AllocError>
    ensures { (rules : List Rule) → app_of app.entry ≡ command rules → is_exact rules ≡ true
        → IfOk result (λ r. r ≡ found rules (map string_bytes words.entry.now)) }
{
    match app.try_get_matches_from(words) {
        Ok(matches) => Ok(Some(Found::of(matches))),
        Err(error) => match error.kind() {
            ErrorKind::OutOfMemory => Err(AllocError),
            _ => Ok(None),
        },
    }
}

/// The command of `clap` with these arguments and nothing else.
fn command_of<'a, A: AsArgument>(alloc: Global, arguments: &[A]) -> Result<Command<'a>, AllocError>
    ensures { IfOk result (λ c. app_of c ≡ command (map A.rule arguments.now)) }
{
    let mut command = no_arguments(alloc);
    for argument in arguments {
        command = command.arg(argument.as_argument().arg(alloc))?;
    }
    Ok(command)
}

/// The command of `clap` that has these arguments, none of them required.
fn beginning_of<'a, A: AsArgument>(
    alloc: Global,
    arguments: &[A],
) -> Result<Command<'a>, AllocError>
    ensures { IfOk result (λ c. app_of c ≡ command (map optional (map A.rule arguments.now))) }
{
    let mut command = no_arguments(alloc);
    for argument in arguments {
        command = command.arg(argument.as_argument().arg(alloc).required(false))?;
    }
    Ok(command)
}

/// The command of `clap` with no arguments. Its name is written in the texts of errors alone, which nobody
/// reads.
fn no_arguments<'a>(alloc: Global) -> Command<'a>
    ensures { app_of result ≡ command [] }
{
    Command::new(alloc, "millicent")
        .no_binary_name(true)
        .disable_help_flag(true)
}
