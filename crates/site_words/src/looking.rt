//! Books that are looked at.

ghost use Rattle.command_table.specs.Table.{Gives};
ghost use Rattle.command_table.specs.declared.table.CommandName.TheVariants.{VendorList};
ghost use Rattle.site_words.specs.Words.{looking_values};

use command_table::{Parameter, Place, place_in};
use command_words::Found;

/// A book that is looked at, in which nothing is entered.
#[derive(Drop)]
pub struct Looking<'a> {
    /// The book of the site.
    pub book: Place<'a>,
}

impl<'a> Looking<'a> {
    /// `vendor list BOOK`, and `vendor status`, `broker list` and `broker status` likewise.
    #[tactic(auto, unfolding(command_table::specs::Table::form_of, crate::specs::Words::looking_values))]
    pub fn read(found: &Found<'a>) -> Option<Looking<'a>>
        ensures { Gives VendorList looking_values found.now result }
    {
        let book = place_in(found, Parameter::Book)?;
        Some(Looking { book })
    }
}
