//! The pages of help.

use crate::asked::Page;
use crate::commands::{role_line, text_of};
use crate::parameters::{form_of, meaning_of};
use crate::version::RELEASE;
use command_table::{COMMANDS, CommandName, Parameter, Shape};
use std::fmt;

impl fmt::Display for Page {
    fn fmt<W: fmt::Write>(&self, f: &mut fmt::Formatter<W>) -> fmt::Result {
        match self {
            Page::Program => write!(f, "{}", AllCommands),
            Page::Role(role) => write!(f, "{}", RoleCommands { role }),
            Page::Command(name) => write!(f, "{}", OneCommand { name: *name }),
            Page::Version => writeln!(f, "millicent {RELEASE} (book 1; scrip MS1, MS2)"),
        }
    }
}

/// The page of the program: the commands of each role.
#[derive(Drop)]
struct AllCommands;

impl fmt::Display for AllCommands {
    fn fmt<W: fmt::Write>(&self, f: &mut fmt::Formatter<W>) -> fmt::Result {
        writeln!(f, "usage: millicent ROLE COMMAND WORDS..")?;
        let mut before = "";
        for name in &COMMANDS {
            let role = name.role();
            if role != before {
                writeln!(f, "\nmillicent {role}: {}", role_line(role))?;
            }
            before = role;
            write!(f, "{}", CommandLine { name: *name })?;
        }
        writeln!(
            f,
            "\n`millicent ROLE COMMAND --help` explains a command and its words."
        )?;
        writeln!(
            f,
            "`millicent --version` prints the version. Amounts, prices and values are"
        )?;
        writeln!(f, "thousandths of a cent.")
    }
}

/// The page of a role: its commands, with their words.
#[derive(Drop)]
struct RoleCommands<'a> {
    role: &'a str,
}

impl<'a> fmt::Display for RoleCommands<'a> {
    fn fmt<W: fmt::Write>(&self, f: &mut fmt::Formatter<W>) -> fmt::Result {
        let role = self.role;
        writeln!(f, "millicent {role}: {}\n", role_line(role))?;
        for name in &COMMANDS {
            if name.role() == role {
                write!(f, "{}", Synopsis { name: *name })?;
                writeln!(f, "\n    {}", text_of(*name).line)?;
            }
        }
        writeln!(
            f,
            "\n`millicent {role} COMMAND --help` explains a command and its words."
        )
    }
}

/// A command in a list: its name, and what it does.
#[derive(Drop)]
struct CommandLine {
    name: CommandName,
}

impl fmt::Display for CommandLine {
    fn fmt<W: fmt::Write>(&self, f: &mut fmt::Formatter<W>) -> fmt::Result {
        let command = self.name.name();
        writeln!(f, "  {command:<9}  {}", text_of(self.name).line)
    }
}

/// The words of a command.
#[derive(Drop)]
struct Synopsis {
    name: CommandName,
}

impl fmt::Display for Synopsis {
    fn fmt<W: fmt::Write>(&self, f: &mut fmt::Formatter<W>) -> fmt::Result {
        let role = self.name.role();
        let command = self.name.name();
        write!(f, "millicent {role} {command}")?;
        for parameter in self.name.parameters() {
            write!(f, "{parameter}")?;
        }
        Ok(())
    }
}

/// The page of a command.
#[derive(Drop)]
struct OneCommand {
    name: CommandName,
}

impl fmt::Display for OneCommand {
    fn fmt<W: fmt::Write>(&self, f: &mut fmt::Formatter<W>) -> fmt::Result {
        let text = text_of(self.name);
        let role = self.name.role();
        let command = self.name.name();
        writeln!(f, "usage: {}\n", Synopsis { name: self.name })?;
        writeln!(f, "millicent {role} {command} {}.", text.line)?;
        writeln!(f, "{}", text.more)?;
        for parameter in self.name.parameters() {
            write!(
                f,
                "{}",
                Explained {
                    parameter: *parameter
                }
            )?;
        }
        write!(f, "\nexample:\n    {}", text.example)
    }
}

/// What a parameter means, and the form of its words.
#[derive(Drop)]
struct Explained {
    parameter: Parameter,
}

impl fmt::Display for Explained {
    fn fmt<W: fmt::Write>(&self, f: &mut fmt::Formatter<W>) -> fmt::Result {
        let name = self.parameter.name();
        let meaning = meaning_of(self.parameter);
        let form = form_of(self.parameter);
        match self.parameter.shape() {
            Shape::One(_) | Shape::Places => {
                writeln!(f, "  {name:<9}  {meaning}:\n             {form}")
            }
            Shape::Setting(_) => writeln!(f, "  --{name:<7}  {meaning}:\n             {form}"),
            Shape::Flag => writeln!(f, "  --{name:<7}  {meaning}"),
        }
    }
}
