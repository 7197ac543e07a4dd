//! The parameters of commands: how each is called, how it is written, and what its words spell.

ghost use Rattle.std.specs.Prelude.{◌≡◌, true};
ghost use Rattle.command_table.specs.Parameters.{is_range, is_secret, name_of, rule_of, shape_of, value_name_of};

use command_words::{Argument, AsArgument};
use mc_base::{Amount, Moment};
use mc_records::{LEAST_KEEP, MOST_KEEP, MOST_PIECES};
use scrip_form::Terms;

/// The greatest number of an issuer.
pub const MOST_ISSUER: u64 = 255;

/// The greatest epoch.
pub const MOST_EPOCH: u64 = (1 << 24) - 1;

/// The greatest kind of contents.
pub const MOST_KIND: u64 = 2;

/// The most links that are taken.
pub const MOST_LINKS: u64 = u32::MAX as u64;

/// The most heads that are played.
pub const MOST_HEADS: u64 = 1_000_000;

/// The least period of a series, and the greatest period and life, in seconds.
pub const LEAST_PERIOD: u64 = Terms::LEAST_PERIOD as u64;

pub const MOST_SECONDS: u64 = Terms::MOST_SECONDS as u64;

/// The least and the greatest keeping time, in seconds.
pub const LEAST_KEPT: u64 = LEAST_KEEP as u64;

pub const MOST_KEPT: u64 = MOST_KEEP as u64;

/// The most pieces of one entry.
pub const MOST_MINTED: u64 = MOST_PIECES as u64;

/// What a word spells.
#[derive(Clone, Copy)]
pub enum Sort {
    /// A book, as it is written: 1 to 255 bytes.
    Place,
    /// A place to listen at, as it is written: an address and a port, or the path of a Unix socket.
    Listen,
    /// A place to connect to, as it is written: an address and a port.
    Connect,
    /// A place of a Unix socket, as it is written: its path.
    Socket,
    /// A name.
    Name,
    /// A target.
    Target,
    /// Contents that are sold, as they are written.
    Contents,
    /// A secret of sixteen bytes, in 32 lower-case hex digits.
    Secret,
    /// 1 to 16 of them, with a comma between each two.
    Secrets,
    /// A number from the first to the second, in decimal.
    Number(u64, u64),
}

/// How a parameter is written.
#[derive(Clone, Copy)]
pub enum Shape {
    /// One word, which has to be there.
    One(Sort),
    /// One word or more, each of which names a book.
    Places,
    /// An option with a value, which may be left out.
    Setting(Sort),
    /// An option without a value, which may be left out.
    Flag,
}

/// A parameter of a command.
#[derive(Clone, Copy)]
pub enum Parameter {
    /// The book that a command is for.
    Book,
    /// The books that it is for.
    Books,
    /// The name of who is founded.
    Name,
    /// How long a series is issued, in seconds.
    Period,
    /// How long it stays good after its period, in seconds.
    Life,
    /// The secrets of certificates.
    Scrip,
    /// The secrets of customers.
    Customer,
    /// What a broker takes for a sale of scrip, beside the scrip's value.
    Fee,
    /// How long a request gets its first reply again, in seconds.
    Keep,
    /// Whether requests are taken without a signature.
    Clear,
    /// The target of goods.
    Target,
    /// Their price.
    Price,
    /// The kind of their contents.
    Kind,
    /// The number of an issuer that is licensed.
    Issuer,
    /// The number of an issuer, the house itself being 0.
    AnyIssuer,
    /// The epoch of a series.
    Epoch,
    /// How many pieces.
    Pieces,
    /// The value of each.
    Value,
    /// The reference by which something is known.
    Reference,
    /// Where links come.
    Listen,
    /// How many links are taken at most.
    Links,
    /// Where the operator of a site that is served gives commands.
    Door,
    /// The one secret of a shop.
    Secret,
    /// The contents that it sells.
    Contents,
    /// How many heads.
    Heads,
    /// The name of an account.
    Account,
    /// The secret by which its customer signs.
    Key,
    /// What is paid, drawn or bought.
    Amount,
    /// The name of a vendor.
    Vendor,
    /// The name of a broker.
    Broker,
    /// The name of a vendor or a broker.
    Peer,
    /// The number of an order.
    Order,
    /// Where the link goes.
    Connect,
    /// What the piece that pays has to be worth at least.
    Limit,
    /// What all payments may come to.
    Budget,
    /// The moment before which a piece ends.
    Before,
    /// Whether a report is JSON.
    Json,
}

impl Parameter {
    /// How it is called in a usage line.
    pub fn name(self) -> &'static str
        ensures { result.now ≡ name_of self }
    {
        match self {
            Parameter::Book | Parameter::Books => "BOOK",
            Parameter::Name => "NAME",
            Parameter::Period => "PERIOD",
            Parameter::Life => "LIFE",
            Parameter::Scrip => "SCRIP",
            Parameter::Customer => "CUSTOMER",
            Parameter::Fee => "FEE",
            Parameter::Keep => "keep",
            Parameter::Clear => "clear",
            Parameter::Target => "TARGET",
            Parameter::Price => "PRICE",
            Parameter::Kind => "kind",
            Parameter::Issuer | Parameter::AnyIssuer => "ISSUER",
            Parameter::Epoch => "EPOCH",
            Parameter::Pieces | Parameter::Heads => "COUNT",
            Parameter::Value => "VALUE",
            Parameter::Reference => "REFERENCE",
            Parameter::Listen => "LISTEN",
            Parameter::Links => "LINKS",
            Parameter::Door => "door",
            Parameter::Secret => "SECRET",
            Parameter::Contents => "CONTENTS",
            Parameter::Account => "ACCOUNT",
            Parameter::Key => "KEY",
            Parameter::Amount => "AMOUNT",
            Parameter::Vendor => "VENDOR",
            Parameter::Broker => "BROKER",
            Parameter::Peer => "PEER",
            Parameter::Order => "ORDER",
            Parameter::Connect => "CONNECT",
            Parameter::Limit => "LIMIT",
            Parameter::Budget => "BUDGET",
            Parameter::Before => "BEFORE",
            Parameter::Json => "json",
        }
    }

    /// How the value of an option is called in a usage line.
    pub fn value_name(self) -> &'static str
        ensures { result.now ≡ value_name_of self }
    {
        match self {
            Parameter::Keep => "S",
            Parameter::Kind => "K",
            Parameter::Door => "PATH",
            _ => "VALUE",
        }
    }

    /// How it is written, and what its words spell.
    pub fn shape(self) -> Shape
        ensures shape { result ≡ shape_of self }
        ensures range { is_range result ≡ true }
    {
        match self {
            Parameter::Book => Shape::One(Sort::Place),
            Parameter::Listen => Shape::One(Sort::Listen),
            Parameter::Connect => Shape::One(Sort::Connect),
            Parameter::Books => Shape::Places,
            Parameter::Name
            | Parameter::Reference
            | Parameter::Account
            | Parameter::Vendor
            | Parameter::Broker
            | Parameter::Peer => Shape::One(Sort::Name),
            Parameter::Target => Shape::One(Sort::Target),
            Parameter::Contents => Shape::One(Sort::Contents),
            Parameter::Secret | Parameter::Key => Shape::One(Sort::Secret),
            Parameter::Scrip | Parameter::Customer => Shape::One(Sort::Secrets),
            Parameter::Price
            | Parameter::Value
            | Parameter::Amount
            | Parameter::Order
            | Parameter::Limit
            | Parameter::Budget => Shape::One(Sort::Number(1, Amount::MOST)),
            Parameter::Fee => Shape::One(Sort::Number(0, Amount::MOST)),
            Parameter::Period => Shape::One(Sort::Number(LEAST_PERIOD, MOST_SECONDS)),
            Parameter::Life => Shape::One(Sort::Number(0, MOST_SECONDS)),
            Parameter::Issuer => Shape::One(Sort::Number(1, MOST_ISSUER)),
            Parameter::AnyIssuer => Shape::One(Sort::Number(0, MOST_ISSUER)),
            Parameter::Epoch => Shape::One(Sort::Number(0, MOST_EPOCH)),
            Parameter::Pieces => Shape::One(Sort::Number(1, MOST_MINTED)),
            Parameter::Heads => Shape::One(Sort::Number(1, MOST_HEADS)),
            Parameter::Links => Shape::One(Sort::Number(1, MOST_LINKS)),
            Parameter::Before => Shape::One(Sort::Number(0, Moment::LAST)),
            Parameter::Keep => Shape::Setting(Sort::Number(LEAST_KEPT, MOST_KEPT)),
            Parameter::Kind => Shape::Setting(Sort::Number(0, MOST_KIND)),
            Parameter::Door => Shape::Setting(Sort::Socket),
            Parameter::Clear | Parameter::Json => Shape::Flag,
        }
    }

    /// Whether its words are secrets.
    pub(crate) fn is_secret(self) -> bool
        ensures { result ≡ is_secret self }
    {
        matches!(self.shape(), Shape::One(Sort::Secret | Sort::Secrets))
    }
}

impl AsArgument for Parameter {
    ghost rule = { rule_of };

    fn as_argument(&self) -> Argument {
        let name = self.name();
        match self.shape() {
            Shape::One(_) => Argument::Positional(name),
            Shape::Places => Argument::Positionals(name),
            Shape::Setting(_) => Argument::Value(name),
            Shape::Flag => Argument::Flag(name),
        }
    }
}
