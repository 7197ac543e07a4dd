//! What a site is founded with.

ghost use Rattle.std.specs.Prelude.{◌≡◌, ◌≤◌, unwrap_or, IfSome};
ghost use Rattle.scrip_form.specs.Texts.{IsName};
ghost use Rattle.command_table.specs.Ranges.{AreTerms};
ghost use Rattle.command_table.specs.Table.{Gives};
ghost use Rattle.command_table.specs.declared.table.CommandName.TheVariants.{BrokerInit, VendorInit};
ghost use Rattle.site_words.specs.Ranges.{IsKeepingTime};
ghost use Rattle.site_words.specs.Words.{broker_founder, broker_founder_values, own_terms, vendor_founder, vendor_founder_values};

use crate::secrets::{SecretList, secret_list_in};
use command_table::{
    Fee, Keep, Life, Parameter, Period, Place, flag_in, name_in, number_in, place_in, setting_in,
};
use command_words::Found;
use mc_base::Amount;
use scrip_form::{Name, Terms};
use std::marker::Model;

/// How long a request gets its first reply again where the words do not say it, in seconds.
pub const KEEP: u32 = 600;

/// What a site is founded with, a vendor without a fee. Contracts see it as its texts and numbers.
#[derive(Drop)]
pub struct Founder {
    name: Name,
    terms: Terms,
    fee: Amount,
    keep: Option<u32>,
    clear: bool,
}

impl Model for Founder {
    ghost use Rattle.site_words.specs.Words.{Founder as Founding};

    ghost Value = { Founding };

    ghost use Rattle.std.specs.Prelude.{◌≡◌};
    ghost use Rattle.site_words.specs.Words.{IsFounder};
    ghost use Rattle.site_words.specs.Views.{founder_view};

    ghost view = { founder_view };

    ghost invariant = { λ f. (f.terms.issuer ≡ 0) × IsFounder (founder_view f) };
}

impl Founder {
    /// The site's name.
    pub fn name(&self) -> &Name
        ensures value { result.now ≡ self.now.name }
        ensures range { IsName self.now.name }
    {
        &self.name
    }

    /// The terms of the site's own scrip.
    pub fn terms(&self) -> &Terms
        ensures value { result.now ≡ own_terms self.now }
        ensures range { AreTerms (own_terms self.now) }
    {
        &self.terms
    }

    /// What the site takes for a sale of scrip, beside the scrip's value: 0 where it is a vendor.
    pub fn fee(&self) -> Amount
        ensures value { result ≡ self.now.fee }
        ensures range { self.now.fee ≤ Amount.MOST }
    {
        self.fee
    }

    /// How long a request gets its first reply again, in seconds: 600 where the words do not say it.
    pub fn keep(&self) -> u32
        ensures value { result ≡ unwrap_or self.now.keep KEEP }
        ensures range { IsKeepingTime result }
    {
        self.keep.unwrap_or(KEEP)
    }

    /// Whether the site takes requests without a signature.
    pub fn clear(&self) -> bool
        ensures { result ≡ self.now.clear }
    {
        self.clear
    }
}

/// The terms of an issuer, by the values of their words.
pub(crate) fn terms_of(
    issuer: u8,
    period: Period,
    life: Life,
    scrip: SecretList,
    customer: SecretList,
) -> Terms
    ensures value { result ≡ record { issuer = issuer; period = period; life = life; scrip = scrip; customer = customer } }
    ensures range { AreTerms result }
{
    let period = period.get() as u32;
    let life = life.get() as u32;
    Terms::new(issuer, period, life, scrip.get(), customer.get()).unwrap()
}

/// The seconds of a keeping time, where there is one.
fn kept(keep: &Option<Keep>) -> Option<u32>
    ensures value { result ≡ keep.now }
    ensures range { IfSome result IsKeepingTime }
{
    match keep {
        Some(keep) => Some(keep.get() as u32),
        None => None,
    }
}

/// What a vendor is founded with.
#[derive(Drop)]
pub struct VendorFounder<'a> {
    /// The book that the site is founded in.
    pub book: Place<'a>,
    /// The site's name.
    pub name: Name,
    /// How long a series of its own scrip is issued, in seconds.
    pub period: Period,
    /// How long it stays good after its period, in seconds.
    pub life: Life,
    /// The secrets of certificates.
    pub scrip: SecretList,
    /// The secrets of customers.
    pub customer: SecretList,
    /// How long a request gets its first reply again, in seconds, where the words say it.
    pub keep: Option<Keep>,
    /// Whether requests are taken without a signature.
    pub clear: bool,
}

impl<'a> VendorFounder<'a> {
    /// `vendor init BOOK NAME PERIOD LIFE SCRIP CUSTOMER [--keep VALUE] [--clear]`.
    #[tactic(auto, unfolding(command_table::specs::Table::form_of, crate::specs::Words::vendor_founder_values))]
    pub fn read(found: &Found<'a>) -> Option<VendorFounder<'a>>
        ensures { Gives VendorInit vendor_founder_values found.now result }
    {
        let book = place_in(found, Parameter::Book)?;
        let name = name_in(found, Parameter::Name)?;
        let period = number_in(found, Parameter::Period)?;
        let life = number_in(found, Parameter::Life)?;
        let scrip = secret_list_in(found, Parameter::Scrip)?;
        let customer = secret_list_in(found, Parameter::Customer)?;
        let keep = setting_in(found, Parameter::Keep)?;
        let clear = flag_in(found, Parameter::Clear);
        Some(VendorFounder {
            book,
            name,
            period,
            life,
            scrip,
            customer,
            keep,
            clear,
        })
    }

    /// The founder, without a fee.
    pub fn founder(&self) -> Founder
        ensures value { result ≡ vendor_founder self.now }
        ensures fee { result.fee ≡ 0 }
    {
        let _name = self.name.bytes();
        Founder {
            name: self.name,
            terms: terms_of(0, self.period, self.life, self.scrip, self.customer),
            fee: Amount::new(0).unwrap(),
            keep: kept(&self.keep),
            clear: self.clear,
        }
    }

    /// The book that the site is founded in.
    pub fn book(&self) -> &'a [u8]
        ensures { result.now ≡ self.now.book }
    {
        self.book.bytes()
    }
}

/// What a broker is founded with.
#[derive(Drop)]
pub struct BrokerFounder<'a> {
    /// The book that the site is founded in.
    pub book: Place<'a>,
    /// The site's name.
    pub name: Name,
    /// How long a series of its own scrip is issued, in seconds.
    pub period: Period,
    /// How long it stays good after its period, in seconds.
    pub life: Life,
    /// The secrets of certificates.
    pub scrip: SecretList,
    /// The secrets of customers.
    pub customer: SecretList,
    /// What is taken for a sale of scrip, beside the scrip's value.
    pub fee: Fee,
    /// How long a request gets its first reply again, in seconds, where the words say it.
    pub keep: Option<Keep>,
    /// Whether requests are taken without a signature.
    pub clear: bool,
}

impl<'a> BrokerFounder<'a> {
    /// `broker init BOOK NAME PERIOD LIFE SCRIP CUSTOMER FEE [--keep VALUE] [--clear]`.
    #[tactic(auto, unfolding(command_table::specs::Table::form_of, crate::specs::Words::broker_founder_values))]
    pub fn read(found: &Found<'a>) -> Option<BrokerFounder<'a>>
        ensures { Gives BrokerInit broker_founder_values found.now result }
    {
        let book = place_in(found, Parameter::Book)?;
        let name = name_in(found, Parameter::Name)?;
        let period = number_in(found, Parameter::Period)?;
        let life = number_in(found, Parameter::Life)?;
        let scrip = secret_list_in(found, Parameter::Scrip)?;
        let customer = secret_list_in(found, Parameter::Customer)?;
        let fee = number_in(found, Parameter::Fee)?;
        let keep = setting_in(found, Parameter::Keep)?;
        let clear = flag_in(found, Parameter::Clear);
        Some(BrokerFounder {
            book,
            name,
            period,
            life,
            scrip,
            customer,
            fee,
            keep,
            clear,
        })
    }

    /// The founder.
    pub fn founder(&self) -> Founder
        ensures { result ≡ broker_founder self.now }
    {
        let _name = self.name.bytes();
        Founder {
            name: self.name,
            terms: terms_of(0, self.period, self.life, self.scrip, self.customer),
            fee: self.fee.amount(),
            keep: kept(&self.keep),
            clear: self.clear,
        }
    }

    /// The book that the site is founded in.
    pub fn book(&self) -> &'a [u8]
        ensures { result.now ≡ self.now.book }
    {
        self.book.bytes()
    }
}
