//! What a vendor's operator has done to its book.

ghost use Rattle.std.specs.Prelude.{◌≡◌, ◌<◌, unwrap_or};
ghost use Rattle.command_table.specs.Ranges.{AreTerms, IsWithin};
ghost use Rattle.command_table.specs.Table.{Gives};
ghost use Rattle.command_table.specs.declared.table.CommandName.TheVariants.{VendorGoods, VendorPrice, VendorLicence, VendorMint, VendorUpgrade};
ghost use Rattle.site_words.specs.Words.{licensed_terms, licensing_values, listing_values, minting_values, pricing_values, upgrading_values};
ghost use Rattle.site_words.specs.Commands.{book_of};

use crate::founder::terms_of;
use crate::looking::Looking;
use crate::secrets::{SecretList, secret_list_in};
use crate::switching::Switching;
use command_table::{
    AnyIssuer, Count, Epoch, Issuer, Kind, Life, MOST_EPOCH, MOST_ISSUER, MOST_MINTED, Parameter,
    Period, Place, Sum, name_in, number_in, place_in, setting_in, target_in,
};
use command_words::Found;
use mc_base::Amount;
use scrip_form::{Name, Target, Terms};

/// What a vendor's operator has done to its book.
#[derive(Drop)]
pub enum Operation<'a> {
    /// Puts goods on sale, or other contents in their place.
    Goods(Listing<'a>),
    /// Sells goods at another price.
    Price(Pricing<'a>),
    /// Licenses another house to issue the vendor's scrip.
    Licence(Licensing<'a>),
    /// Mints pieces of the vendor's own scrip.
    Mint(Minting<'a>),
    /// Moves an issuer of the vendor's to the second version of scrip.
    Upgrade(Upgrading<'a>),
    /// Switches the chain of the book on, and tells it.
    Chain(Switching<'a>),
    /// Lists what is on sale.
    List(Looking<'a>),
    /// Tells how the site stands.
    Status(Looking<'a>),
}

impl<'a> Operation<'a> {
    /// The book that the operation is for.
    pub fn book(&self) -> &'a [u8]
        ensures { result.now ≡ book_of self.now }
    {
        match self {
            Operation::Goods(listing) => listing.book.bytes(),
            Operation::Price(pricing) => pricing.book.bytes(),
            Operation::Licence(licensing) => licensing.book.bytes(),
            Operation::Mint(minting) => minting.book.bytes(),
            Operation::Upgrade(upgrading) => upgrading.book.bytes(),
            Operation::Chain(switching) => switching.book.bytes(),
            Operation::List(looking) | Operation::Status(looking) => looking.book.bytes(),
        }
    }
}

/// Goods that are put on sale.
#[derive(Drop)]
pub struct Listing<'a> {
    /// The book of the vendor.
    pub book: Place<'a>,
    /// The target of the goods.
    pub target: Target,
    /// Their price.
    pub price: Sum,
    /// The kind of their contents; 0 where the words say none.
    pub kind: Option<Kind>,
}

impl<'a> Listing<'a> {
    /// `vendor goods BOOK TARGET PRICE [--kind VALUE]`.
    #[tactic(auto, unfolding(command_table::specs::Table::form_of, crate::specs::Words::listing_values))]
    pub fn read(found: &Found<'a>) -> Option<Listing<'a>>
        ensures { Gives VendorGoods listing_values found.now result }
    {
        let book = place_in(found, Parameter::Book)?;
        let target = target_in(found, Parameter::Target)?;
        let price = number_in(found, Parameter::Price)?;
        let kind = setting_in(found, Parameter::Kind)?;
        Some(Listing {
            book,
            target,
            price,
            kind,
        })
    }

    /// The target of the goods.
    pub fn target(&self) -> &Target
        ensures value { result.now ≡ self.now.target }
    {
        &self.target
    }

    /// Their price.
    pub fn price(&self) -> Amount
        ensures value { result ≡ self.now.price }
        ensures range { IsWithin 1 Amount.MOST self.now.price }
    {
        self.price.amount()
    }

    /// The kind of their contents; 0 where the words say none.
    pub fn kind(&self) -> u8
        ensures value { result ≡ unwrap_or self.now.kind 0 }
        ensures range { result < 3 }
    {
        match &self.kind {
            Some(kind) => kind.get() as u8,
            None => 0,
        }
    }
}

/// Goods that are sold at another price.
#[derive(Drop)]
pub struct Pricing<'a> {
    /// The book of the vendor.
    pub book: Place<'a>,
    /// The target of the goods.
    pub target: Target,
    /// Their price.
    pub price: Sum,
}

impl<'a> Pricing<'a> {
    /// `vendor price BOOK TARGET PRICE`.
    #[tactic(auto, unfolding(command_table::specs::Table::form_of, crate::specs::Words::pricing_values))]
    pub fn read(found: &Found<'a>) -> Option<Pricing<'a>>
        ensures { Gives VendorPrice pricing_values found.now result }
    {
        let book = place_in(found, Parameter::Book)?;
        let target = target_in(found, Parameter::Target)?;
        let price = number_in(found, Parameter::Price)?;
        Some(Pricing {
            book,
            target,
            price,
        })
    }

    /// The target of the goods.
    pub fn target(&self) -> &Target
        ensures value { result.now ≡ self.now.target }
    {
        &self.target
    }

    /// Their price.
    pub fn price(&self) -> Amount
        ensures value { result ≡ self.now.price }
        ensures range { IsWithin 1 Amount.MOST self.now.price }
    {
        self.price.amount()
    }
}

/// What another house may issue.
#[derive(Drop)]
pub struct Licensing<'a> {
    /// The book of the vendor.
    pub book: Place<'a>,
    /// The number of the issuer.
    pub issuer: Issuer,
    /// How long a series is issued, in seconds.
    pub period: Period,
    /// How long it stays good after its period, in seconds.
    pub life: Life,
    /// The secrets of certificates.
    pub scrip: SecretList,
    /// The secrets of customers.
    pub customer: SecretList,
}

impl<'a> Licensing<'a> {
    /// `vendor licence BOOK ISSUER PERIOD LIFE SCRIP CUSTOMER`.
    #[tactic(auto, unfolding(command_table::specs::Table::form_of, crate::specs::Words::licensing_values))]
    pub fn read(found: &Found<'a>) -> Option<Licensing<'a>>
        ensures { Gives VendorLicence licensing_values found.now result }
    {
        let book = place_in(found, Parameter::Book)?;
        let issuer = number_in(found, Parameter::Issuer)?;
        let period = number_in(found, Parameter::Period)?;
        let life = number_in(found, Parameter::Life)?;
        let scrip = secret_list_in(found, Parameter::Scrip)?;
        let customer = secret_list_in(found, Parameter::Customer)?;
        Some(Licensing {
            book,
            issuer,
            period,
            life,
            scrip,
            customer,
        })
    }

    /// The terms of the issuer.
    pub fn terms(&self) -> Terms
        ensures value { result ≡ licensed_terms self.now }
        ensures issuer { 0 < self.now.issuer }
        ensures range { AreTerms (licensed_terms self.now) }
    {
        let issuer = self.issuer.get() as u8;
        terms_of(issuer, self.period, self.life, self.scrip, self.customer)
    }
}

/// Pieces of the vendor's own scrip that are minted.
#[derive(Drop)]
pub struct Minting<'a> {
    /// The book of the vendor.
    pub book: Place<'a>,
    /// How many pieces.
    pub count: Count,
    /// The value of each.
    pub value: Sum,
    /// The reference by which they are known.
    pub reference: Name,
}

impl<'a> Minting<'a> {
    /// `vendor mint BOOK COUNT VALUE REFERENCE`.
    #[tactic(auto, unfolding(command_table::specs::Table::form_of, crate::specs::Words::minting_values))]
    pub fn read(found: &Found<'a>) -> Option<Minting<'a>>
        ensures { Gives VendorMint minting_values found.now result }
    {
        let book = place_in(found, Parameter::Book)?;
        let count = number_in(found, Parameter::Pieces)?;
        let value = number_in(found, Parameter::Value)?;
        let reference = name_in(found, Parameter::Reference)?;
        Some(Minting {
            book,
            count,
            value,
            reference,
        })
    }

    /// How many pieces.
    pub fn count(&self) -> u16
        ensures value { result ≡ self.now.count }
        ensures range { IsWithin 1 MOST_MINTED self.now.count }
    {
        self.count.get() as u16
    }

    /// The value of each.
    pub fn value(&self) -> Amount
        ensures value { result ≡ self.now.value }
        ensures range { IsWithin 1 Amount.MOST self.now.value }
    {
        self.value.amount()
    }

    /// The reference by which they are known.
    pub fn reference(&self) -> &Name
        ensures value { result.now ≡ self.now.reference }
    {
        &self.reference
    }
}

/// An issuer of the vendor's that is moved to the second version of scrip.
#[derive(Drop)]
pub struct Upgrading<'a> {
    /// The book of the vendor.
    pub book: Place<'a>,
    /// The number of the issuer, the vendor itself being 0.
    pub issuer: AnyIssuer,
    /// The first epoch whose series have that version.
    pub from: Epoch,
}

impl<'a> Upgrading<'a> {
    /// `vendor upgrade BOOK ISSUER EPOCH`.
    #[tactic(auto, unfolding(command_table::specs::Table::form_of, crate::specs::Words::upgrading_values))]
    pub fn read(found: &Found<'a>) -> Option<Upgrading<'a>>
        ensures { Gives VendorUpgrade upgrading_values found.now result }
    {
        let book = place_in(found, Parameter::Book)?;
        let issuer = number_in(found, Parameter::AnyIssuer)?;
        let from = number_in(found, Parameter::Epoch)?;
        Some(Upgrading { book, issuer, from })
    }

    /// The number of the issuer, the vendor itself being 0.
    pub fn issuer(&self) -> u8
        ensures value { result ≡ self.now.issuer }
        ensures range { IsWithin 0 MOST_ISSUER self.now.issuer }
    {
        self.issuer.get() as u8
    }

    /// The first epoch whose series have that version.
    pub fn from(&self) -> u32
        ensures value { result ≡ self.now.from }
        ensures range { IsWithin 0 MOST_EPOCH self.now.from }
    {
        self.from.get() as u32
    }
}
