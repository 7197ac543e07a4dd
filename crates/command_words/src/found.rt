ghost use Rattle.std.specs.Prelude.{◌≡◌, map, option_map};
ghost use Rattle.clap.specs.Matches.{found_of};
ghost use Rattle.clap.specs.Walk.{rows_of};
ghost use Rattle.command_words.specs.Arguments.{has_flag, value_of, values_of};

use clap::ArgMatches;
use std::marker::Model;

/// What `clap` finds in the words of a command. It borrows the words, and none of its calls takes
/// memory. Contracts see it as the rows of the matches of `clap`, a row for each argument that is
/// there or has a default.
#[derive(Drop)]
pub struct Found<'a> {
    matches: ArgMatches<'a>,
}

impl<'a> Model for Found<'a> {
    ghost use Rattle.std.specs.Prelude.{List};
    ghost use Rattle.clap.specs.Matches.{found_of};
    ghost use Rattle.clap.specs.Walk.{Row, rows_of};

    ghost Value = { List Row };

    ghost view = { λ f. rows_of (found_of f.matches) };
}

impl<'a> Found<'a> {
    pub(crate) fn of(matches: ArgMatches<'a>) -> Found<'a>
        ensures { result ≡ rows_of (found_of matches.entry) }
    {
        Found { matches }
    }

    /// The word of a positional argument, or the value of an option; None where it is not there. Of
    /// several words it is the first.
    pub fn value_of(&self, name: &str) -> Option<&'a str>
        ensures { option_map (λ s. s.now) result ≡ value_of self.now name.now }
    {
        self.matches.get_str(name)
    }

    /// The words of a positional argument that takes several, in their order; None where it is not
    /// there.
    pub fn values_of(&self, name: &str) -> Option<&[&'a str]>
        ensures { option_map (λ s. map (λ v. v.now) s.now) result ≡ values_of self.now name.now }
    {
        self.matches.get_strs(name)
    }

    /// Whether a flag is there.
    pub fn has_flag(&self, name: &str) -> bool
        ensures { result ≡ has_flag self.now name.now }
    {
        match self.value_of(name) {
            Some(text) => text == "true",
            None => false,
        }
    }
}
