//! Books of which an auditor is told something, without an option.

ghost use Rattle.command_table.specs.Table.{Gives};
ghost use Rattle.command_table.specs.declared.table.CommandName.TheVariants.{AuditChain};
ghost use Rattle.wallet_words.specs.Words.{audit_books_values};

use command_table::{Books, books_in};
use command_words::Found;

/// The books whose chains are told, or of which a tree is reported.
#[derive(Drop)]
pub struct AuditBooks<'a> {
    /// The books, in the order of the words.
    pub books: Books<'a>,
}

impl<'a> AuditBooks<'a> {
    /// `audit chain BOOK..`, and `audit tree` likewise.
    #[tactic(auto, unfolding(command_table::specs::Table::form_of, crate::specs::Words::audit_books_values))]
    pub fn read(found: Found<'a>) -> Option<AuditBooks<'a>>
        ensures { Gives AuditChain audit_books_values found.entry result }
    {
        let books = books_in(found)?;
        Some(AuditBooks { books })
    }
}
