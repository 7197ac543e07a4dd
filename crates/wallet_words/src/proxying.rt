//! A wallet that pays for what a browser asks.

ghost use Rattle.std.specs.Prelude.{◌≡◌, map, string_bytes, IfOk, IfSome, IsNone};
ghost use Rattle.command_table.specs.Ranges.{IsWithin};
ghost use Rattle.command_table.specs.Table.{Gives};
ghost use Rattle.command_table.specs.declared.table.CommandName.TheVariants.{WalletProxy};
ghost use Rattle.wallet_words.specs.Words.{proxying_values};
ghost use Rattle.wallet_words.specs.Proxying.{AreNoProxyWords, AreProxyWords};

use command_table::{
    CommandName, Links, MOST_LINKS, Parameter, Place, Sum, connect_in, listen_in, name_in,
    number_in, place_in, read_command,
};
use command_words::Found;
use mc_base::Amount;
use scrip_form::Name;
use std::alloc::{AllocError, Global};

/// What is paid out of the book of a wallet, to whom, and between which links.
#[derive(Drop)]
pub struct Proxying<'a> {
    /// The book of the wallet.
    pub book: Place<'a>,
    /// The name of the vendor.
    pub vendor: Name,
    /// What the piece that pays has to be worth at least.
    pub limit: Sum,
    /// What is paid in all at most.
    pub budget: Sum,
    /// Where the links of the browser come.
    pub listen: Place<'a>,
    /// Where the links to the vendor go.
    pub connect: Place<'a>,
    /// How many links of the browser are taken at most.
    pub links: Links,
}

impl<'a> Proxying<'a> {
    /// `wallet proxy BOOK VENDOR LIMIT BUDGET LISTEN CONNECT LINKS`.
    #[tactic(auto, unfolding(command_table::specs::Table::form_of, crate::specs::Words::proxying_values))]
    pub fn read(found: &Found<'a>) -> Option<Proxying<'a>>
        ensures { Gives WalletProxy proxying_values found.now result }
    {
        let book = place_in(found, Parameter::Book)?;
        let vendor = name_in(found, Parameter::Vendor)?;
        let limit = number_in(found, Parameter::Limit)?;
        let budget = number_in(found, Parameter::Budget)?;
        let listen = listen_in(found, Parameter::Listen)?;
        let connect = connect_in(found, Parameter::Connect)?;
        let links = number_in(found, Parameter::Links)?;
        Some(Proxying {
            book,
            vendor,
            limit,
            budget,
            listen,
            connect,
            links,
        })
    }

    /// The book of the wallet.
    pub fn book(&self) -> &'a [u8]
        ensures { result.now ≡ self.now.book }
    {
        self.book.bytes()
    }

    /// The name of the vendor.
    pub fn vendor(&self) -> &Name
        ensures value { result.now ≡ self.now.vendor }
    {
        &self.vendor
    }

    /// What the piece that pays has to be worth at least.
    pub fn limit(&self) -> Amount
        ensures value { result ≡ self.now.limit }
        ensures range { IsWithin 1 Amount.MOST self.now.limit }
    {
        self.limit.amount()
    }

    /// What is paid in all at most.
    pub fn budget(&self) -> Amount
        ensures value { result ≡ self.now.budget }
        ensures range { IsWithin 1 Amount.MOST self.now.budget }
    {
        self.budget.amount()
    }

    /// Where the links of the browser come.
    pub fn listen(&self) -> &'a [u8]
        ensures { result.now ≡ self.now.listen }
    {
        self.listen.bytes()
    }

    /// Where the links to the vendor go.
    pub fn connect(&self) -> &'a [u8]
        ensures { result.now ≡ self.now.connect }
    {
        self.connect.bytes()
    }

    /// How many links of the browser are taken at most.
    pub fn links(&self) -> u32
        ensures value { result ≡ self.now.links }
        ensures range { IsWithin 1 MOST_LINKS self.now.links }
    {
        self.links.get() as u32
    }
}

/// What the words `wallet proxy BOOK VENDOR LIMIT BUDGET LISTEN CONNECT LINKS` say; None exactly where they are other
/// words. They are of no command that has one outside alone. An Err is want of memory alone.
pub fn proxying_of<'a>(
    alloc: Global,
    words: &'a [String],
) -> Result<Option<Proxying<'a>>, AllocError>
    ensures some { IfOk result (λ r. IfSome r
        (λ proxying. AreProxyWords (map string_bytes words.entry.now) proxying)) }
    ensures none { IfOk result
        (λ r. IsNone r → AreNoProxyWords (map string_bytes words.entry.now)) }
{
    match read_command(alloc, CommandName::WalletProxy, words)? {
        Some(found) => Ok(Proxying::read(&found)),
        None => Ok(None),
    }
}
