//! What is told of words that are of no command.

ghost use Rattle.std.specs.Prelude.{◌≡◌, Some, map, option_map, string_bytes};
ghost use Rattle.std.specs.List.{list_any};
ghost use Rattle.command_table.specs.Usage as lines;
ghost use Rattle.command_table.specs.Usage.{is_of, told_of};
ghost use Rattle.command_table.specs.declared.table.TheConstants as tables;

use crate::parameter::{Parameter, Shape};
use crate::table::{COMMANDS, CommandName, named};
use std::fmt;
use std::marker::Model;

/// One line for standard error that tells which words the program has. Contracts see it as the bytes of the line.
#[derive(Drop)]
pub struct Usage<'a> {
    name: Option<CommandName>,
    role: Option<&'a str>,
}

impl<'a> Model for Usage<'a> {
    ghost use Rattle.std.specs.Prelude.{ℕ, List, option_map};
    ghost use Rattle.command_table.specs.Usage.{line_of};

    ghost Value = { List ℕ };

    ghost view = { λ u. line_of u.name (option_map (λ r. r.now) u.role) };
}

/// The line for these words: of the command that they begin with, or else of the commands whose role is the first
/// word, or else of all commands. It takes no memory.
pub fn usage_of<'a>(words: &'a [String]) -> Usage<'a>
    ensures { result ≡ told_of (map string_bytes words.entry.now) }
{
    Usage {
        name: named(words),
        role: role_of(words),
    }
}

/// The first word, where it is a role.
#[tactic(auto, unfolding(crate::specs::Usage::role_of))]
fn role_of<'a>(words: &'a [String]) -> Option<&'a str>
    ensures { option_map (λ r. r.now) result ≡ lines.role_of (map string_bytes words.entry.now) }
{
    let (word, _) = words.split_first()?;
    let role = word.as_str();
    if is_role(role) { Some(role) } else { None }
}

/// Whether a command has this role.
fn is_role(role: &str) -> bool
    ensures { result ≡ list_any (is_of (Some role.now)) tables.COMMANDS }
{
    COMMANDS.iter().any(|name| name.form().role == role)
}

impl<'a> fmt::Display for Usage<'a> {
    ghost output = { λ u. Some u };

    fn fmt<W: fmt::Write>(&self, f: &mut fmt::Formatter<W>) -> fmt::Result {
        match self.name {
            Some(name) => write!(f, "{}", CommandLine { name }),
            None => write!(f, "{}", AllCommands { role: self.role }),
        }
    }
}

/// The line of a command.
#[derive(Drop)]
struct CommandLine {
    name: CommandName,
}

impl fmt::Display for CommandLine {
    ghost use Rattle.command_table.specs.Table.{form_of};
    ghost use Rattle.command_table.specs.Usage.{usage_line};

    ghost output = { λ c. Some (usage_line (form_of c.name)) };

    fn fmt<W: fmt::Write>(&self, f: &mut fmt::Formatter<W>) -> fmt::Result {
        let form = self.name.form();
        let role = form.role;
        let name = form.name;
        let words = AllParameters {
            parameters: form.parameters,
        };
        write!(f, "usage: millicent {role} {name}{words}")
    }
}

/// The parameters of a command in its line.
#[derive(Drop)]
struct AllParameters {
    parameters: &'static [Parameter],
}

impl fmt::Display for AllParameters {
    ghost use Rattle.std.specs.Prelude.{flat_map};
    ghost use Rattle.command_table.specs.Usage.{shown};

    ghost output = { λ a. Some (flat_map shown a.parameters.now) };

    fn fmt<W: fmt::Write>(&self, f: &mut fmt::Formatter<W>) -> fmt::Result {
        for parameter in self.parameters {
            write!(f, "{parameter}")?;
        }
        Ok(())
    }
}

impl fmt::Display for Parameter {
    ghost use Rattle.command_table.specs.Usage.{shown};

    ghost output = { λ p. Some (shown p) };

    fn fmt<W: fmt::Write>(&self, f: &mut fmt::Formatter<W>) -> fmt::Result {
        let name = self.name();
        let value = self.value_name();
        match self.shape() {
            Shape::One(_) => write!(f, " {name}"),
            Shape::Places => write!(f, " {name}.."),
            Shape::Setting(_) => write!(f, " [--{name} {value}]"),
            Shape::Flag => write!(f, " [--{name}]"),
        }
    }
}

/// The line of the commands of a role, or of all.
#[derive(Drop)]
struct AllCommands<'a> {
    role: Option<&'a str>,
}

impl<'a> fmt::Display for AllCommands<'a> {
    ghost use Rattle.std.specs.Prelude.{option_map};
    ghost use Rattle.command_table.specs.Usage.{commands};

    ghost output = { λ a. Some (commands (option_map (λ r. r.now) a.role)) };

    fn fmt<W: fmt::Write>(&self, f: &mut fmt::Formatter<W>) -> fmt::Result {
        let mut before = None;
        for name in &COMMANDS {
            if has_role(*name, self.role) {
                let next = NextName {
                    before,
                    name: *name,
                };
                write!(f, "{next}")?;
                before = Some(*name);
            }
        }
        write!(f, " ..")
    }
}

/// Whether the command has this role, as each has where none is given.
fn has_role(name: CommandName, role: Option<&str>) -> bool
    ensures { result ≡ is_of (option_map (λ r. r.now) role.entry) name }
{
    match role {
        Some(role) => name.form().role == role,
        None => true,
    }
}

/// The name of a command in that line, behind that of another one.
#[derive(Drop)]
struct NextName {
    before: Option<CommandName>,
    name: CommandName,
}

impl fmt::Display for NextName {
    ghost use Rattle.command_table.specs.Table.{form_of};
    ghost use Rattle.command_table.specs.Usage.{next_name};

    ghost output = { λ n. Some (next_name n.before (form_of n.name)) };

    fn fmt<W: fmt::Write>(&self, f: &mut fmt::Formatter<W>) -> fmt::Result {
        let form = self.name.form();
        let role = form.role;
        let name = form.name;
        match self.before {
            None => write!(f, "usage: millicent {role} {name}"),
            Some(before) if before.form().role == role => write!(f, "|{name}"),
            Some(_) => write!(f, " .. or {role} {name}"),
        }
    }
}
