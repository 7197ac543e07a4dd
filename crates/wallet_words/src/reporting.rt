//! A report that is made of books.

ghost use Rattle.std.specs.Prelude.{◌≡◌, ◌<◌, length, map};
ghost use Rattle.command_table.specs.Table.{Gives};
ghost use Rattle.command_table.specs.declared.table.CommandName.TheVariants.{AuditReport};
ghost use Rattle.wallet_words.specs.Words.{reporting_values};

use command_table::{Books, Parameter, books_in, flag_in};
use command_words::Found;

/// Of which books a report is made, and how.
#[derive(Drop)]
pub struct Reporting<'a> {
    /// The books, in the order of the words.
    pub books: Books<'a>,
    /// Whether the report is JSON, or else lines.
    pub json: bool,
}

impl<'a> Reporting<'a> {
    /// `audit report BOOK.. [--json]`.
    #[tactic(auto, unfolding(command_table::specs::Table::form_of, crate::specs::Words::reporting_values))]
    pub fn read(found: Found<'a>) -> Option<Reporting<'a>>
        ensures { Gives AuditReport reporting_values found.entry result }
    {
        let json = flag_in(&found, Parameter::Json);
        let books = books_in(found)?;
        Some(Reporting { books, json })
    }

    /// The books, of which there is one at least.
    pub fn books(&self) -> &[&'a str]
        ensures value { map (λ book. book.now) result.now ≡ self.now.books }
        ensures some { 0 < length self.now.books }
    {
        self.books.list()
    }

    /// Whether the report is JSON, or else lines.
    pub fn is_json(&self) -> bool
        ensures { result ≡ self.now.json }
    {
        self.json
    }
}
