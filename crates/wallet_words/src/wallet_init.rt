//! A wallet that is founded.

ghost use Rattle.std.specs.Prelude.{◌≡◌};
ghost use Rattle.command_table.specs.Table.{Gives};
ghost use Rattle.command_table.specs.declared.table.CommandName.TheVariants.{WalletInit};
ghost use Rattle.wallet_words.specs.Words.{wallet_founder_values};

use command_table::{Parameter, Place, name_in, place_in};
use command_words::Found;
use scrip_form::Name;

/// What a wallet is founded with.
#[derive(Drop)]
pub struct WalletFounder<'a> {
    /// The book that the wallet is founded in.
    pub book: Place<'a>,
    /// The name of the wallet.
    pub name: Name,
}

impl<'a> WalletFounder<'a> {
    /// `wallet init BOOK NAME`.
    #[tactic(auto, unfolding(command_table::specs::Table::form_of, crate::specs::Words::wallet_founder_values))]
    pub fn read(found: &Found<'a>) -> Option<WalletFounder<'a>>
        ensures { Gives WalletInit wallet_founder_values found.now result }
    {
        let book = place_in(found, Parameter::Book)?;
        let name = name_in(found, Parameter::Name)?;
        Some(WalletFounder { book, name })
    }

    /// The book that the wallet is founded in.
    pub fn book(&self) -> &'a [u8]
        ensures { result.now ≡ self.now.book }
    {
        self.book.bytes()
    }

    /// The name of the wallet.
    pub fn name(&self) -> &Name
        ensures value { result.now ≡ self.now.name }
    {
        &self.name
    }
}
