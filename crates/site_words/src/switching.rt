//! Books whose chain is switched on.

ghost use Rattle.command_table.specs.Table.{Gives};
ghost use Rattle.command_table.specs.declared.table.CommandName.TheVariants.{VendorChain};
ghost use Rattle.site_words.specs.Words.{switching_values};

use command_table::{Parameter, Place, place_in};
use command_words::Found;

/// A book whose chain is switched on, and told.
#[derive(Drop)]
pub struct Switching<'a> {
    /// The book of the site.
    pub book: Place<'a>,
}

impl<'a> Switching<'a> {
    /// `vendor chain BOOK`, and `broker chain` likewise.
    #[tactic(auto, unfolding(command_table::specs::Table::form_of, crate::specs::Words::switching_values))]
    pub fn read(found: &Found<'a>) -> Option<Switching<'a>>
        ensures { Gives VendorChain switching_values found.now result }
    {
        let book = place_in(found, Parameter::Book)?;
        Some(Switching { book })
    }
}
