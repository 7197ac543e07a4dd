ghost use Rattle.std.specs.Prelude.{◌≡◌, false};
ghost use Rattle.clap.specs.Walk.{Rule, rule_of};
ghost use Rattle.command_words.specs.Arguments.{rule_of_argument};

use clap::{Arg, ArgAction};
use std::alloc::Global;

/// An argument of a command, by its name, under which what is found of it is asked for. The name of
/// an option or a flag is written behind two hyphens, whole and as it is here. A word that begins with
/// a hyphen is no positional argument, unless it is a hyphen alone or stands behind the word `--`.
#[derive(Clone, Copy)]
pub enum Argument {
    /// One word, which has to be there. The positional arguments have their words in their order.
    Positional(&'static str),
    /// One word or more, in their order; the last of the positional arguments.
    Positionals(&'static str),
    /// An option with a value, `--NAME VALUE` or `--NAME=VALUE`, at most once. The value may be empty;
    /// one that begins with a hyphen has the second form, unless it is a hyphen alone.
    Value(&'static str),
    /// An option without a value, `--NAME`, at most once.
    Flag(&'static str),
}

/// What tells an argument of a command.
pub trait AsArgument {
    // Its rule of `clap`.
    ghost rule: { Self → Rule };

    /// The argument that it tells.
    fn as_argument(&self) -> Argument
        ensures { rule_of_argument result ≡ rule self.now };
}

impl Argument {
    /// The argument as `clap` takes it: its one long form is its name, and it has no short form.
    pub(crate) fn arg<'a>(&self, alloc: Global) -> Arg<'a>
        ensures rule { rule_of result ≡ rule_of_argument self.now }
        ensures global { result.global ≡ false }
    {
        match self {
            Argument::Positional(name) => {
                Arg::new(alloc, name).required(true).action(ArgAction::Set)
            }
            Argument::Positionals(name) => Arg::new(alloc, name)
                .required(true)
                .action(ArgAction::Append),
            Argument::Value(name) => Arg::new(alloc, name).long(name).action(ArgAction::Set),
            Argument::Flag(name) => Arg::new(alloc, name).long(name).action(ArgAction::SetTrue),
        }
    }
}
