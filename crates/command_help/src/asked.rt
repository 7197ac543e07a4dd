//! Which words ask for help.

ghost use Rattle.std.specs.Prelude.{◌∷◌, [], map, string_bytes, IfSome};
ghost use Rattle.command_help.specs.Asking.{AreOfNone};

use command_table::{COMMANDS, CommandName};

/// A page of help.
#[derive(Clone, Copy)]
pub enum Page {
    /// The commands of all roles.
    Program,
    /// The commands of this role of the table.
    Role(&'static str),
    /// A command and its parameters.
    Command(CommandName),
    /// The version of the program, and of the formats that it reads.
    Version,
}

/// The page that words ask for, those after the program's name; None where they ask for none. `--help` and `-h` ask as the
/// last word, after nothing, a role, or the role and the name of a command; `help` asks as the first word, and after a role.
/// Words that ask for a page are read as those of no command.
pub fn page_of(words: &[String]) -> Option<Page>
    ensures no_command { IfSome result (λ page. AreOfNone (map string_bytes words.now)) }
{
    match words {
        [word] => page_of_one(word),
        [first, second] => page_of_two(first, second),
        [first, second, third] => page_of_three(first, second, third),
        _ => None,
    }
}

/// The page that one word asks for.
fn page_of_one(word: &str) -> Option<Page> {
    match word {
        "--help" | "-h" | "help" => Some(Page::Program),
        "--version" => Some(Page::Version),
        _ => None,
    }
}

/// The page that two words ask for.
fn page_of_two(first: &str, second: &str) -> Option<Page>
    ensures { IfSome result (λ page. AreOfNone (first.now ∷ second.now ∷ [])) }
{
    if first == "help" {
        return role_page(second);
    }
    if second == "--help" || second == "-h" || second == "help" {
        return role_page(first);
    }
    None
}

/// The page that three words ask for.
fn page_of_three(first: &str, second: &str, third: &str) -> Option<Page>
    ensures { IfSome result (λ page. AreOfNone (first.now ∷ second.now ∷ third.now ∷ [])) }
{
    if first == "help" {
        return command_page(second, third);
    }
    if second == "help" {
        return command_page(first, third);
    }
    if third == "--help" || third == "-h" {
        return command_page(first, second);
    }
    None
}

/// The page of this role, where the table has it.
fn role_page(role: &str) -> Option<Page> {
    for name in &COMMANDS {
        if name.role() == role {
            return Some(Page::Role(name.role()));
        }
    }
    None
}

/// The page of the command of this role and name, where the table has it.
fn command_page(role: &str, command: &str) -> Option<Page> {
    for name in &COMMANDS {
        if name.role() == role && name.name() == command {
            return Some(Page::Command(*name));
        }
    }
    None
}
