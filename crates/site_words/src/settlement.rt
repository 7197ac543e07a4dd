//! The settlement of licensed scrip: what a vendor states, and the broker that pays it.

ghost use Rattle.std.specs.Prelude.{◌≡◌};
ghost use Rattle.command_table.specs.Ranges.{IsWithin};
ghost use Rattle.command_table.specs.Table.{Gives};
ghost use Rattle.command_table.specs.declared.table.CommandName.TheVariants.{BrokerSettle, VendorStatement};
ghost use Rattle.site_words.specs.Words.{settling_values, stating_values};

use command_table::{
    Epoch, Issuer, MOST_EPOCH, MOST_ISSUER, Parameter, Place, number_in, place_in,
};
use command_words::Found;

/// Of which series a vendor states what it redeemed.
#[derive(Drop)]
pub struct Stating<'a> {
    /// The book of the vendor.
    pub book: Place<'a>,
    /// The number of the issuer.
    pub issuer: Issuer,
    /// The epoch of the series.
    pub epoch: Epoch,
}

impl<'a> Stating<'a> {
    /// `vendor statement BOOK ISSUER EPOCH`.
    #[tactic(auto, unfolding(command_table::specs::Table::form_of, crate::specs::Words::stating_values))]
    pub fn read(found: &Found<'a>) -> Option<Stating<'a>>
        ensures { Gives VendorStatement stating_values found.now result }
    {
        let book = place_in(found, Parameter::Book)?;
        let issuer = number_in(found, Parameter::Issuer)?;
        let epoch = number_in(found, Parameter::Epoch)?;
        Some(Stating {
            book,
            issuer,
            epoch,
        })
    }

    /// The book of the vendor.
    pub fn book(&self) -> &'a [u8]
        ensures { result.now ≡ self.now.book }
    {
        self.book.bytes()
    }

    /// The number of the issuer.
    pub fn issuer(&self) -> u8
        ensures value { result ≡ self.now.issuer }
        ensures range { IsWithin 1 MOST_ISSUER self.now.issuer }
    {
        self.issuer.get() as u8
    }

    /// The epoch of the series.
    pub fn epoch(&self) -> u32
        ensures value { result ≡ self.now.epoch }
        ensures range { IsWithin 0 MOST_EPOCH self.now.epoch }
    {
        self.epoch.get() as u32
    }
}

/// Which broker pays a vendor's statement.
#[derive(Drop)]
pub struct Settling<'a> {
    /// The book of the broker.
    pub book: Place<'a>,
}

impl<'a> Settling<'a> {
    /// `broker settle BOOK`.
    #[tactic(auto, unfolding(command_table::specs::Table::form_of, crate::specs::Words::settling_values))]
    pub fn read(found: &Found<'a>) -> Option<Settling<'a>>
        ensures { Gives BrokerSettle settling_values found.now result }
    {
        let book = place_in(found, Parameter::Book)?;
        Some(Settling { book })
    }

    /// The book of the broker.
    pub fn book(&self) -> &'a [u8]
        ensures { result.now ≡ self.now.book }
    {
        self.book.bytes()
    }
}
