//! What a broker's operator has done to its book.

ghost use Rattle.std.specs.Prelude.{◌≡◌};
ghost use Rattle.command_table.specs.Ranges.{IsWithin};
ghost use Rattle.command_table.specs.Table.{Gives};
ghost use Rattle.command_table.specs.declared.table.CommandName.TheVariants.{BrokerAccount, BrokerBalance, BrokerDeposit, BrokerLicence, BrokerStock, BrokerUpgrade};
ghost use Rattle.site_words.specs.Words.{inquiry_values, licence_upgrading_values, opening_values, movement_values, stocking_values, taking_values};
ghost use Rattle.site_words.specs.Commands.{broker_book_of};

use crate::looking::Looking;
use crate::switching::Switching;
use command_table::{
    Epoch, MOST_EPOCH, Parameter, Place, Sum, name_in, number_in, place_in, secret_in,
};
use command_words::Found;
use mc_base::Amount;
use scrip_form::Name;

/// What a broker's operator has done to its book.
#[derive(Drop)]
pub enum BrokerOperation<'a> {
    /// Opens an account.
    Account(Opening<'a>),
    /// Pays into an account.
    Deposit(Movement<'a>),
    /// Pays out of an account.
    Withdraw(Movement<'a>),
    /// Tells the balance of an account.
    Balance(Inquiry<'a>),
    /// Takes a licence of a vendor.
    Licence(Taking<'a>),
    /// Takes pieces of a vendor as stock.
    Stock(Stocking<'a>),
    /// Moves the issuer of a vendor's licence to the second version of scrip.
    Upgrade(LicenceUpgrading<'a>),
    /// Switches the chain of the book on, and tells it.
    Chain(Switching<'a>),
    /// Lists the accounts.
    List(Looking<'a>),
    /// Tells how the site stands.
    Status(Looking<'a>),
}

impl<'a> BrokerOperation<'a> {
    /// The book that the operation is for.
    pub fn book(&self) -> &'a [u8]
        ensures { result.now ≡ broker_book_of self.now }
    {
        match self {
            BrokerOperation::Account(opening) => opening.book.bytes(),
            BrokerOperation::Deposit(payment) | BrokerOperation::Withdraw(payment) => {
                payment.book.bytes()
            }
            BrokerOperation::Balance(inquiry) => inquiry.book.bytes(),
            BrokerOperation::Licence(taking) => taking.book.bytes(),
            BrokerOperation::Stock(stocking) => stocking.book.bytes(),
            BrokerOperation::Upgrade(upgrading) => upgrading.book.bytes(),
            BrokerOperation::Chain(switching) => switching.book.bytes(),
            BrokerOperation::List(looking) | BrokerOperation::Status(looking) => looking
                .book
                .bytes(),
        }
    }
}

/// An account that is opened.
#[derive(Drop)]
pub struct Opening<'a> {
    /// The book of the broker.
    pub book: Place<'a>,
    /// The name of the account.
    pub account: Name,
    /// The secret by which the account's customer signs.
    pub key: [u8; 16],
}

impl<'a> Opening<'a> {
    /// `broker account BOOK ACCOUNT KEY`.
    #[tactic(auto, unfolding(command_table::specs::Table::form_of, crate::specs::Words::opening_values))]
    pub fn read(found: &Found<'a>) -> Option<Opening<'a>>
        ensures { Gives BrokerAccount opening_values found.now result }
    {
        let book = place_in(found, Parameter::Book)?;
        let account = name_in(found, Parameter::Account)?;
        let key = secret_in(found, Parameter::Key)?;
        Some(Opening { book, account, key })
    }

    /// The name of the account.
    pub fn account(&self) -> &Name
        ensures value { result.now ≡ self.now.account }
    {
        &self.account
    }

    /// The secret by which the account's customer signs.
    pub fn key(&self) -> [u8; 16]
        ensures value { result ≡ self.now.key }
    {
        self.key
    }
}

/// What is paid into an account or out of it.
#[derive(Drop)]
pub struct Movement<'a> {
    /// The book of the broker.
    pub book: Place<'a>,
    /// The name of the account.
    pub account: Name,
    /// What is paid.
    pub amount: Sum,
    /// The reference by which the payment is known.
    pub reference: Name,
}

impl<'a> Movement<'a> {
    /// `broker deposit BOOK ACCOUNT AMOUNT REFERENCE`, and `broker withdraw` likewise.
    #[tactic(auto, unfolding(command_table::specs::Table::form_of, crate::specs::Words::movement_values))]
    pub fn read(found: &Found<'a>) -> Option<Movement<'a>>
        ensures { Gives BrokerDeposit movement_values found.now result }
    {
        let book = place_in(found, Parameter::Book)?;
        let account = name_in(found, Parameter::Account)?;
        let amount = number_in(found, Parameter::Amount)?;
        let reference = name_in(found, Parameter::Reference)?;
        Some(Movement {
            book,
            account,
            amount,
            reference,
        })
    }

    /// The name of the account.
    pub fn account(&self) -> &Name
        ensures value { result.now ≡ self.now.account }
    {
        &self.account
    }

    /// What is paid.
    pub fn amount(&self) -> Amount
        ensures value { result ≡ self.now.amount }
        ensures range { IsWithin 1 Amount.MOST self.now.amount }
    {
        self.amount.amount()
    }

    /// The reference by which the payment is known.
    pub fn reference(&self) -> &Name
        ensures value { result.now ≡ self.now.reference }
    {
        &self.reference
    }
}

/// The account whose balance is asked for.
#[derive(Drop)]
pub struct Inquiry<'a> {
    /// The book of the broker.
    pub book: Place<'a>,
    /// The name of the account.
    pub account: Name,
}

impl<'a> Inquiry<'a> {
    /// `broker balance BOOK ACCOUNT`.
    #[tactic(auto, unfolding(command_table::specs::Table::form_of, crate::specs::Words::inquiry_values))]
    pub fn read(found: &Found<'a>) -> Option<Inquiry<'a>>
        ensures { Gives BrokerBalance inquiry_values found.now result }
    {
        let book = place_in(found, Parameter::Book)?;
        let account = name_in(found, Parameter::Account)?;
        Some(Inquiry { book, account })
    }

    /// The name of the account.
    pub fn account(&self) -> &Name
        ensures value { result.now ≡ self.now.account }
    {
        &self.account
    }
}

/// Which broker takes a licence.
#[derive(Drop)]
pub struct Taking<'a> {
    /// The book of the broker.
    pub book: Place<'a>,
}

impl<'a> Taking<'a> {
    /// `broker licence BOOK`.
    #[tactic(auto, unfolding(command_table::specs::Table::form_of, crate::specs::Words::taking_values))]
    pub fn read(found: &Found<'a>) -> Option<Taking<'a>>
        ensures { Gives BrokerLicence taking_values found.now result }
    {
        let book = place_in(found, Parameter::Book)?;
        Some(Taking { book })
    }
}

/// Whose pieces are taken as stock.
#[derive(Drop)]
pub struct Stocking<'a> {
    /// The book of the broker.
    pub book: Place<'a>,
    /// The name of the vendor.
    pub vendor: Name,
}

impl<'a> Stocking<'a> {
    /// `broker stock BOOK VENDOR`.
    #[tactic(auto, unfolding(command_table::specs::Table::form_of, crate::specs::Words::stocking_values))]
    pub fn read(found: &Found<'a>) -> Option<Stocking<'a>>
        ensures { Gives BrokerStock stocking_values found.now result }
    {
        let book = place_in(found, Parameter::Book)?;
        let vendor = name_in(found, Parameter::Vendor)?;
        Some(Stocking { book, vendor })
    }

    /// The name of the vendor.
    pub fn vendor(&self) -> &Name
        ensures value { result.now ≡ self.now.vendor }
    {
        &self.vendor
    }
}

/// The issuer of a vendor's licence that is moved to the second version of scrip, or the broker's own.
#[derive(Drop)]
pub struct LicenceUpgrading<'a> {
    /// The book of the broker.
    pub book: Place<'a>,
    /// The name of the vendor; the broker's own name means its own scrip.
    pub vendor: Name,
    /// The first epoch whose series have that version.
    pub from: Epoch,
}

impl<'a> LicenceUpgrading<'a> {
    /// `broker upgrade BOOK VENDOR EPOCH`.
    #[tactic(auto, unfolding(command_table::specs::Table::form_of, crate::specs::Words::licence_upgrading_values))]
    pub fn read(found: &Found<'a>) -> Option<LicenceUpgrading<'a>>
        ensures { Gives BrokerUpgrade licence_upgrading_values found.now result }
    {
        let book = place_in(found, Parameter::Book)?;
        let vendor = name_in(found, Parameter::Vendor)?;
        let from = number_in(found, Parameter::Epoch)?;
        Some(LicenceUpgrading { book, vendor, from })
    }

    /// The name of the vendor; the broker's own name means its own scrip.
    pub fn vendor(&self) -> &Name
        ensures value { result.now ≡ self.now.vendor }
    {
        &self.vendor
    }

    /// The first epoch whose series have that version.
    pub fn from(&self) -> u32
        ensures value { result ≡ self.now.from }
        ensures range { IsWithin 0 MOST_EPOCH self.now.from }
    {
        self.from.get() as u32
    }
}
