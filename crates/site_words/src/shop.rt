//! A shop that sells one thing over one link, with no book.

ghost use Rattle.std.specs.Prelude.{◌≡◌, map, string_bytes, IfOk, IfSome, IsNone};
ghost use Rattle.command_table.specs.Table.{Gives};
ghost use Rattle.command_table.specs.declared.table.CommandName.TheVariants.{VendorOnce};
ghost use Rattle.site_words.specs.Words.{IsShop, shop_values};
ghost use Rattle.site_words.specs.Commands.{AreOnceWords, AreNoOnceWords};

use command_table::{
    CommandName, Contents, Parameter, Sum, contents_in, name_in, number_in, read_command,
    secret_in, target_in,
};
use command_words::Found;
use mc_base::Amount;
use scrip_form::{Name, Target};
use std::alloc::{AllocError, Global};
use std::marker::Model;

/// A shop that sells one thing. Contracts see it as its texts.
#[derive(Drop)]
pub struct Shop<'a> {
    name: Name,
    target: Target,
    price: Sum,
    secret: [u8; 16],
    contents: Contents<'a>,
}

impl<'a> Model for Shop<'a> {
    ghost use Rattle.site_words.specs.Words.{Shop as Sold};

    ghost Value = { Sold };

    ghost use Rattle.site_words.specs.Words.{IsShop};
    ghost use Rattle.site_words.specs.Views.{shop_view};

    ghost view = { shop_view };

    ghost invariant = { λ s. IsShop (shop_view s) };
}

impl<'a> Shop<'a> {
    /// The name of the shop.
    pub fn name(&self) -> &Name
        ensures value { result.now ≡ self.now.name }
        ensures range { IsShop self.now }
    {
        &self.name
    }

    /// The target of its goods.
    pub fn target(&self) -> &Target
        ensures value { result.now ≡ self.now.target }
        ensures range { IsShop self.now }
    {
        &self.target
    }

    /// The price of its goods.
    pub fn price(&self) -> Amount
        ensures value { result ≡ self.now.price }
        ensures range { IsShop self.now }
    {
        self.price.amount()
    }

    /// Its one secret.
    pub fn secret(&self) -> &[u8; 16]
        ensures value { result.now ≡ self.now.secret }
        ensures range { IsShop self.now }
    {
        &self.secret
    }

    /// The contents that are sold, of at most 65,536 bytes.
    pub fn contents(&self) -> &'a [u8]
        ensures value { result.now ≡ self.now.contents }
        ensures range { IsShop self.now }
    {
        self.contents.bytes()
    }
}

impl<'a> Shop<'a> {
    /// `vendor once NAME TARGET PRICE SECRET CONTENTS`.
    #[tactic(auto, unfolding(command_table::specs::Table::form_of, crate::specs::Words::shop_values))]
    pub fn read(found: &Found<'a>) -> Option<Shop<'a>>
        ensures { Gives VendorOnce shop_values found.now result }
    {
        let name = name_in(found, Parameter::Name)?;
        let target = target_in(found, Parameter::Target)?;
        let price = number_in(found, Parameter::Price)?;
        let secret = secret_in(found, Parameter::Secret)?;
        let contents = contents_in(found, Parameter::Contents)?;
        Some(Shop {
            name,
            target,
            price,
            secret,
            contents,
        })
    }
}

/// The shop that the words `vendor once NAME TARGET PRICE SECRET CONTENTS` give; None exactly where they
/// are of no shop.
pub fn shop_of<'a>(alloc: Global, words: &'a [String]) -> Result<Option<Shop<'a>>, AllocError>
    ensures some { IfOk result (λ r. IfSome r
        (λ shop. AreOnceWords (map string_bytes words.entry.now) shop)) }
    ensures none { IfOk result
        (λ r. IsNone r → AreNoOnceWords (map string_bytes words.entry.now)) }
{
    match read_command(alloc, CommandName::VendorOnce, words)? {
        Some(found) => Ok(Shop::read(&found)),
        None => Ok(None),
    }
}
