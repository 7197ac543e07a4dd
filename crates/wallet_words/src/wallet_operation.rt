//! What a customer has done with the book of a wallet.

ghost use Rattle.std.specs.Prelude.{◌≡◌, option_map};
ghost use Rattle.command_table.specs.Ranges.{IsWithin};
ghost use Rattle.command_table.specs.Table.{Gives};
ghost use Rattle.command_table.specs.declared.table.CommandName.TheVariants.{WalletBuy, WalletDraw, WalletGet, WalletLines, WalletRenew, WalletRetry, WalletTake};
ghost use Rattle.wallet_words.specs.Words.{buying_values, drawing_values, getting_values, relaying_values, renewing_values, retrying_values, book_alone_values};
ghost use Rattle.wallet_words.specs.Commands.{connect_of, wallet_book_of};

use command_table::{
    Before, Parameter, Place, Sum, connect_in, name_in, number_in, place_in, secret_in, target_in,
};
use command_words::Found;
use mc_base::{Amount, Moment};
use scrip_form::{Name, Target};

/// What a customer has done with the book of a wallet.
#[derive(Drop)]
pub enum WalletOperation<'a> {
    /// Takes pieces into it.
    Take(BookAlone<'a>),
    /// Draws scrip of a broker from an account.
    Draw(Drawing<'a>),
    /// Buys scrip of a vendor from a broker.
    Buy(Buying<'a>),
    /// Pays a vendor for contents.
    Get(Getting<'a>),
    /// Sends a kept request again.
    Retry(Retrying<'a>),
    /// Tells what it holds.
    List(BookAlone<'a>),
    /// Tells the pieces of a vendor that may be sold on.
    Lines(Relaying<'a>),
    /// Switches the chain of the book on, and tells it.
    Chain(BookAlone<'a>),
    /// Pays a cheap target with the piece that ends first, and keeps its change.
    Renew(Renewing<'a>),
}

impl<'a> WalletOperation<'a> {
    /// The book that the operation is for.
    pub fn book(&self) -> &'a [u8]
        ensures { result.now ≡ wallet_book_of self.now }
    {
        match self {
            WalletOperation::Take(wallet)
            | WalletOperation::List(wallet)
            | WalletOperation::Chain(wallet) => wallet.book.bytes(),
            WalletOperation::Draw(drawing) => drawing.book.bytes(),
            WalletOperation::Buy(buying) => buying.book.bytes(),
            WalletOperation::Get(getting) => getting.book.bytes(),
            WalletOperation::Retry(retrying) => retrying.book.bytes(),
            WalletOperation::Lines(relaying) => relaying.book.bytes(),
            WalletOperation::Renew(renewing) => renewing.book.bytes(),
        }
    }

    /// Where the link of the operation goes; None where it has no link of its own.
    pub fn connect(&self) -> Option<&'a [u8]>
        ensures { option_map (λ place. place.now) result ≡ connect_of self.now }
    {
        match self {
            WalletOperation::Take(_)
            | WalletOperation::List(_)
            | WalletOperation::Lines(_)
            | WalletOperation::Chain(_) => None,
            WalletOperation::Draw(drawing) => Some(drawing.connect.bytes()),
            WalletOperation::Buy(buying) => Some(buying.connect.bytes()),
            WalletOperation::Get(getting) => Some(getting.connect.bytes()),
            WalletOperation::Retry(retrying) => Some(retrying.connect.bytes()),
            WalletOperation::Renew(renewing) => Some(renewing.connect.bytes()),
        }
    }
}

/// The wallet that takes pieces, whose holdings are told, or whose chain is switched on.
#[derive(Drop)]
pub struct BookAlone<'a> {
    /// The book of the wallet.
    pub book: Place<'a>,
}

impl<'a> BookAlone<'a> {
    /// `wallet take BOOK`, and `wallet list` and `wallet chain` likewise.
    #[tactic(auto, unfolding(command_table::specs::Table::form_of, crate::specs::Words::book_alone_values))]
    pub fn read(found: &Found<'a>) -> Option<BookAlone<'a>>
        ensures { Gives WalletTake book_alone_values found.now result }
    {
        let book = place_in(found, Parameter::Book)?;
        Some(BookAlone { book })
    }
}

/// What is drawn from an account as scrip of the broker.
#[derive(Drop)]
pub struct Drawing<'a> {
    /// The book of the wallet.
    pub book: Place<'a>,
    /// The name of the broker.
    pub broker: Name,
    /// The name of the account.
    pub account: Name,
    /// The secret by which the account's customer signs.
    pub key: [u8; 16],
    /// The number of the order.
    pub order: Sum,
    /// What is drawn.
    pub amount: Sum,
    /// Where the link goes.
    pub connect: Place<'a>,
}

impl<'a> Drawing<'a> {
    /// `wallet draw BOOK BROKER ACCOUNT KEY ORDER AMOUNT CONNECT`.
    #[tactic(auto, unfolding(command_table::specs::Table::form_of, crate::specs::Words::drawing_values))]
    pub fn read(found: &Found<'a>) -> Option<Drawing<'a>>
        ensures { Gives WalletDraw drawing_values found.now result }
    {
        let book = place_in(found, Parameter::Book)?;
        let broker = name_in(found, Parameter::Broker)?;
        let account = name_in(found, Parameter::Account)?;
        let key = secret_in(found, Parameter::Key)?;
        let order = number_in(found, Parameter::Order)?;
        let amount = number_in(found, Parameter::Amount)?;
        let connect = connect_in(found, Parameter::Connect)?;
        Some(Drawing {
            book,
            broker,
            account,
            key,
            order,
            amount,
            connect,
        })
    }

    /// The name of the broker.
    pub fn broker(&self) -> &Name
        ensures value { result.now ≡ self.now.broker }
    {
        &self.broker
    }

    /// The name of the account.
    pub fn account(&self) -> &Name
        ensures value { result.now ≡ self.now.account }
    {
        &self.account
    }

    /// The secret by which the account's customer signs.
    pub fn key(&self) -> [u8; 16]
        ensures value { result ≡ self.now.key }
    {
        self.key
    }

    /// The number of the order.
    pub fn order(&self) -> u64
        ensures value { result ≡ self.now.order }
        ensures range { IsWithin 1 Amount.MOST self.now.order }
    {
        self.order.get()
    }

    /// What is drawn.
    pub fn amount(&self) -> Amount
        ensures value { result ≡ self.now.amount }
        ensures range { IsWithin 1 Amount.MOST self.now.amount }
    {
        self.amount.amount()
    }
}

/// What scrip of a vendor is bought from a broker.
#[derive(Drop)]
pub struct Buying<'a> {
    /// The book of the wallet.
    pub book: Place<'a>,
    /// The name of the broker.
    pub broker: Name,
    /// The name of the vendor whose scrip is bought.
    pub vendor: Name,
    /// The value of the scrip.
    pub amount: Sum,
    /// What the piece that pays has to be worth at least.
    pub limit: Sum,
    /// Where the link goes.
    pub connect: Place<'a>,
}

impl<'a> Buying<'a> {
    /// `wallet buy BOOK BROKER VENDOR AMOUNT LIMIT CONNECT`.
    #[tactic(auto, unfolding(command_table::specs::Table::form_of, crate::specs::Words::buying_values))]
    pub fn read(found: &Found<'a>) -> Option<Buying<'a>>
        ensures { Gives WalletBuy buying_values found.now result }
    {
        let book = place_in(found, Parameter::Book)?;
        let broker = name_in(found, Parameter::Broker)?;
        let vendor = name_in(found, Parameter::Vendor)?;
        let amount = number_in(found, Parameter::Amount)?;
        let limit = number_in(found, Parameter::Limit)?;
        let connect = connect_in(found, Parameter::Connect)?;
        Some(Buying {
            book,
            broker,
            vendor,
            amount,
            limit,
            connect,
        })
    }

    /// The name of the broker.
    pub fn broker(&self) -> &Name
        ensures value { result.now ≡ self.now.broker }
    {
        &self.broker
    }

    /// The name of the vendor whose scrip is bought.
    pub fn vendor(&self) -> &Name
        ensures value { result.now ≡ self.now.vendor }
    {
        &self.vendor
    }

    /// The value of the scrip.
    pub fn amount(&self) -> Amount
        ensures value { result ≡ self.now.amount }
        ensures range { IsWithin 1 Amount.MOST self.now.amount }
    {
        self.amount.amount()
    }

    /// What the piece that pays has to be worth at least.
    pub fn limit(&self) -> Amount
        ensures value { result ≡ self.now.limit }
        ensures range { IsWithin 1 Amount.MOST self.now.limit }
    {
        self.limit.amount()
    }
}

/// What contents of a vendor are paid for.
#[derive(Drop)]
pub struct Getting<'a> {
    /// The book of the wallet.
    pub book: Place<'a>,
    /// The name of the vendor.
    pub vendor: Name,
    /// The target of the contents.
    pub target: Target,
    /// What the piece that pays has to be worth at least.
    pub limit: Sum,
    /// Where the link goes.
    pub connect: Place<'a>,
}

impl<'a> Getting<'a> {
    /// `wallet get BOOK VENDOR TARGET LIMIT CONNECT`.
    #[tactic(auto, unfolding(command_table::specs::Table::form_of, crate::specs::Words::getting_values))]
    pub fn read(found: &Found<'a>) -> Option<Getting<'a>>
        ensures { Gives WalletGet getting_values found.now result }
    {
        let book = place_in(found, Parameter::Book)?;
        let vendor = name_in(found, Parameter::Vendor)?;
        let target = target_in(found, Parameter::Target)?;
        let limit = number_in(found, Parameter::Limit)?;
        let connect = connect_in(found, Parameter::Connect)?;
        Some(Getting {
            book,
            vendor,
            target,
            limit,
            connect,
        })
    }

    /// The name of the vendor.
    pub fn vendor(&self) -> &Name
        ensures value { result.now ≡ self.now.vendor }
    {
        &self.vendor
    }

    /// The target of the contents.
    pub fn target(&self) -> &Target
        ensures value { result.now ≡ self.now.target }
    {
        &self.target
    }

    /// What the piece that pays has to be worth at least.
    pub fn limit(&self) -> Amount
        ensures value { result ≡ self.now.limit }
        ensures range { IsWithin 1 Amount.MOST self.now.limit }
    {
        self.limit.amount()
    }
}

/// Of which peer the oldest kept request is sent again.
#[derive(Drop)]
pub struct Retrying<'a> {
    /// The book of the wallet.
    pub book: Place<'a>,
    /// The name of the peer, a vendor or a broker.
    pub peer: Name,
    /// Where the link goes.
    pub connect: Place<'a>,
}

impl<'a> Retrying<'a> {
    /// `wallet retry BOOK PEER CONNECT`.
    #[tactic(auto, unfolding(command_table::specs::Table::form_of, crate::specs::Words::retrying_values))]
    pub fn read(found: &Found<'a>) -> Option<Retrying<'a>>
        ensures { Gives WalletRetry retrying_values found.now result }
    {
        let book = place_in(found, Parameter::Book)?;
        let peer = name_in(found, Parameter::Peer)?;
        let connect = connect_in(found, Parameter::Connect)?;
        Some(Retrying {
            book,
            peer,
            connect,
        })
    }

    /// The name of the peer, a vendor or a broker.
    pub fn peer(&self) -> &Name
        ensures value { result.now ≡ self.now.peer }
    {
        &self.peer
    }
}

/// Which pieces of a wallet are told, so that a broker takes them as stock.
#[derive(Drop)]
pub struct Relaying<'a> {
    /// The book of the wallet.
    pub book: Place<'a>,
    /// The name of the vendor whose pieces they are.
    pub vendor: Name,
}

impl<'a> Relaying<'a> {
    /// `wallet lines BOOK VENDOR`.
    #[tactic(auto, unfolding(command_table::specs::Table::form_of, crate::specs::Words::relaying_values))]
    pub fn read(found: &Found<'a>) -> Option<Relaying<'a>>
        ensures { Gives WalletLines relaying_values found.now result }
    {
        let book = place_in(found, Parameter::Book)?;
        let vendor = name_in(found, Parameter::Vendor)?;
        Some(Relaying { book, vendor })
    }

    /// The name of the vendor whose pieces they are.
    pub fn vendor(&self) -> &Name
        ensures value { result.now ≡ self.now.vendor }
    {
        &self.vendor
    }
}

/// What is paid for so that change comes that ends later.
#[derive(Drop)]
pub struct Renewing<'a> {
    /// The book of the wallet.
    pub book: Place<'a>,
    /// The name of the vendor.
    pub vendor: Name,
    /// The cheap target that is paid for.
    pub target: Target,
    /// The moment before which the piece that pays ends, or at it.
    pub before: Before,
    /// Where the link goes.
    pub connect: Place<'a>,
}

impl<'a> Renewing<'a> {
    /// `wallet renew BOOK VENDOR TARGET BEFORE CONNECT`.
    #[tactic(auto, unfolding(command_table::specs::Table::form_of, crate::specs::Words::renewing_values))]
    pub fn read(found: &Found<'a>) -> Option<Renewing<'a>>
        ensures { Gives WalletRenew renewing_values found.now result }
    {
        let book = place_in(found, Parameter::Book)?;
        let vendor = name_in(found, Parameter::Vendor)?;
        let target = target_in(found, Parameter::Target)?;
        let before = number_in(found, Parameter::Before)?;
        let connect = connect_in(found, Parameter::Connect)?;
        Some(Renewing {
            book,
            vendor,
            target,
            before,
            connect,
        })
    }

    /// The name of the vendor.
    pub fn vendor(&self) -> &Name
        ensures value { result.now ≡ self.now.vendor }
    {
        &self.vendor
    }

    /// The cheap target that is paid for.
    pub fn target(&self) -> &Target
        ensures value { result.now ≡ self.now.target }
    {
        &self.target
    }

    /// The moment before which the piece that pays ends, or at it.
    pub fn before(&self) -> Moment
        ensures value { result ≡ self.now.before }
        ensures range { IsWithin 0 Moment.LAST self.now.before }
    {
        self.before.moment()
    }
}
