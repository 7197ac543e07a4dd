ghost use Rattle.std.specs.Prelude.{◌≢◌, map, string_bytes, IfOk, IfSome, IsNone};
ghost use Rattle.command_table.specs.declared.table.CommandName.TheVariants.{AuditReport, AuditChain, AuditTree};
ghost use Rattle.mc_words.specs.Commands.{AreOfNoRow, AreWords, GivesCommand};

use command_table::{CommandName, named, read_command};
use command_words::Found;
use site_words::{
    BrokerFounder, BrokerOperation, Inquiry, LicenceUpgrading, Licensing, Listing, Looking,
    Minting, Movement, Opening, Operation, Playing, Pricing, Server, Settling, Shop, Stating,
    Stocking, Switching, Taking, Upgrading, VendorFounder,
};
use std::alloc::{AllocError, Global};
use wallet_words::{
    AuditBooks, BookAlone, Buying, Drawing, Getting, Relaying, Renewing, Reporting, Retrying,
    WalletFounder, WalletOperation,
};

/// What the words say to do.
#[derive(Drop)]
pub enum Command<'a> {
    /// Sells one thing over one link, with no book.
    Once(Shop<'a>),
    /// Founds a vendor in a book.
    Init(VendorFounder<'a>),
    /// Serves the vendor of a book.
    Serve(Server<'a>),
    /// Plays heads that are made for it, with no book.
    Play(Playing),
    /// Has something done to the book of a vendor, as its operator.
    Operate(Operation<'a>),
    /// States what the vendor of a book redeemed of a series that ended.
    State(Stating<'a>),
    /// Founds a broker in a book.
    BrokerInit(BrokerFounder<'a>),
    /// Serves the broker of a book.
    BrokerServe(Server<'a>),
    /// Has something done to the book of a broker, as its operator.
    BrokerOperate(BrokerOperation<'a>),
    /// Has the broker of a book pay a vendor's statement.
    Settle(Settling<'a>),
    /// Founds a wallet in a book.
    WalletInit(WalletFounder<'a>),
    /// Has something done with the book of a wallet, as its customer.
    WalletOperate(WalletOperation<'a>),
    /// Reports of books, as their auditor.
    Report(Reporting<'a>),
    /// Tells the chains of books, as their auditor.
    Chains(AuditBooks<'a>),
    /// Reports of brokers that sell scrip of each other, as their auditor.
    Tree(AuditBooks<'a>),
}

/// The command that the words, those after the program's name, are of; None exactly where they are of
/// no row of the table that has one outside. An Err is want of memory alone.
pub fn command_of<'a>(alloc: Global, words: &'a [String]) -> Result<Option<Command<'a>>, AllocError>
    ensures command { IfOk result (λ r. IfSome r
        (λ command. AreWords (map string_bytes words.entry.now) command)) }
    ensures none { IfOk result
        (λ r. IsNone r → AreOfNoRow (map string_bytes words.entry.now)) }
{
    let Some(name) = named(words) else {
        return Ok(None);
    };
    match read_command(alloc, name, words)? {
        Some(found) => Ok(command_in(name, found)),
        None => Ok(None),
    }
}

/// The command of this name whose values were found; None where none were, or it has links of a second side.
#[tactic(auto, unfolding(command_table::specs::Table::form_of))]
fn command_in<'a>(name: CommandName, found: Found<'a>) -> Option<Command<'a>>
    ensures { GivesCommand name found.entry result }
{
    match name {
        CommandName::AuditReport => {
            let reporting = Reporting::read(found)?;
            Some(Command::Report(reporting))
        }
        CommandName::AuditChain => {
            let audited = AuditBooks::read(found)?;
            Some(Command::Chains(audited))
        }
        CommandName::AuditTree => {
            let tree = AuditBooks::read(found)?;
            Some(Command::Tree(tree))
        }
        _ => command_from(name, &found),
    }
}

/// The same of a name that is no auditor's.
#[tactic(auto, unfolding(command_table::specs::Table::form_of))]
fn command_from<'a>(name: CommandName, found: &Found<'a>) -> Option<Command<'a>>
    requires report { name ≢ AuditReport }
    requires chain { name ≢ AuditChain }
    requires tree { name ≢ AuditTree }
    ensures { GivesCommand name found.now result }
{
    match name {
        CommandName::VendorInit => {
            let vendor = VendorFounder::read(found)?;
            Some(Command::Init(vendor))
        }
        CommandName::VendorGoods => {
            let listing = Listing::read(found)?;
            Some(Command::Operate(Operation::Goods(listing)))
        }
        CommandName::VendorPrice => {
            let pricing = Pricing::read(found)?;
            Some(Command::Operate(Operation::Price(pricing)))
        }
        CommandName::VendorLicence => {
            let licensing = Licensing::read(found)?;
            Some(Command::Operate(Operation::Licence(licensing)))
        }
        CommandName::VendorMint => {
            let minting = Minting::read(found)?;
            Some(Command::Operate(Operation::Mint(minting)))
        }
        CommandName::VendorUpgrade => {
            let upgrading = Upgrading::read(found)?;
            Some(Command::Operate(Operation::Upgrade(upgrading)))
        }
        CommandName::VendorChain => {
            let switching = Switching::read(found)?;
            Some(Command::Operate(Operation::Chain(switching)))
        }
        CommandName::VendorList => {
            let listed = Looking::read(found)?;
            Some(Command::Operate(Operation::List(listed)))
        }
        CommandName::VendorStatus => {
            let watched = Looking::read(found)?;
            Some(Command::Operate(Operation::Status(watched)))
        }
        CommandName::VendorStatement => {
            let stating = Stating::read(found)?;
            Some(Command::State(stating))
        }
        CommandName::VendorServe => {
            let server = Server::read(found)?;
            Some(Command::Serve(server))
        }
        CommandName::VendorOnce => {
            let shop = Shop::read(found)?;
            Some(Command::Once(shop))
        }
        CommandName::VendorPlay => {
            let playing = Playing::read(found)?;
            Some(Command::Play(playing))
        }
        CommandName::BrokerInit => {
            let broker = BrokerFounder::read(found)?;
            Some(Command::BrokerInit(broker))
        }
        CommandName::BrokerAccount => {
            let opening = Opening::read(found)?;
            Some(Command::BrokerOperate(BrokerOperation::Account(opening)))
        }
        CommandName::BrokerDeposit => {
            let deposit = Movement::read(found)?;
            Some(Command::BrokerOperate(BrokerOperation::Deposit(deposit)))
        }
        CommandName::BrokerWithdraw => {
            let withdrawal = Movement::read(found)?;
            Some(Command::BrokerOperate(BrokerOperation::Withdraw(withdrawal)))
        }
        CommandName::BrokerBalance => {
            let inquiry = Inquiry::read(found)?;
            Some(Command::BrokerOperate(BrokerOperation::Balance(inquiry)))
        }
        CommandName::BrokerLicence => {
            let taking = Taking::read(found)?;
            Some(Command::BrokerOperate(BrokerOperation::Licence(taking)))
        }
        CommandName::BrokerStock => {
            let stocking = Stocking::read(found)?;
            Some(Command::BrokerOperate(BrokerOperation::Stock(stocking)))
        }
        CommandName::BrokerUpgrade => {
            let moving = LicenceUpgrading::read(found)?;
            Some(Command::BrokerOperate(BrokerOperation::Upgrade(moving)))
        }
        CommandName::BrokerChain => {
            let chained = Switching::read(found)?;
            Some(Command::BrokerOperate(BrokerOperation::Chain(chained)))
        }
        CommandName::BrokerList => {
            let accounts = Looking::read(found)?;
            Some(Command::BrokerOperate(BrokerOperation::List(accounts)))
        }
        CommandName::BrokerStatus => {
            let state = Looking::read(found)?;
            Some(Command::BrokerOperate(BrokerOperation::Status(state)))
        }
        CommandName::BrokerSettle => {
            let settling = Settling::read(found)?;
            Some(Command::Settle(settling))
        }
        CommandName::BrokerServe => {
            let desk = Server::read(found)?;
            Some(Command::BrokerServe(desk))
        }
        CommandName::WalletInit => {
            let founder = WalletFounder::read(found)?;
            Some(Command::WalletInit(founder))
        }
        CommandName::WalletTake => {
            let filling = BookAlone::read(found)?;
            Some(Command::WalletOperate(WalletOperation::Take(filling)))
        }
        CommandName::WalletDraw => {
            let drawing = Drawing::read(found)?;
            Some(Command::WalletOperate(WalletOperation::Draw(drawing)))
        }
        CommandName::WalletBuy => {
            let buying = Buying::read(found)?;
            Some(Command::WalletOperate(WalletOperation::Buy(buying)))
        }
        CommandName::WalletGet => {
            let getting = Getting::read(found)?;
            Some(Command::WalletOperate(WalletOperation::Get(getting)))
        }
        CommandName::WalletRetry => {
            let retrying = Retrying::read(found)?;
            Some(Command::WalletOperate(WalletOperation::Retry(retrying)))
        }
        CommandName::WalletList => {
            let telling = BookAlone::read(found)?;
            Some(Command::WalletOperate(WalletOperation::List(telling)))
        }
        CommandName::WalletLines => {
            let relaying = Relaying::read(found)?;
            Some(Command::WalletOperate(WalletOperation::Lines(relaying)))
        }
        CommandName::WalletChain => {
            let chaining = BookAlone::read(found)?;
            Some(Command::WalletOperate(WalletOperation::Chain(chaining)))
        }
        CommandName::WalletRenew => {
            let renewing = Renewing::read(found)?;
            Some(Command::WalletOperate(WalletOperation::Renew(renewing)))
        }
        CommandName::WalletProxy => None,
        CommandName::AuditReport | CommandName::AuditChain | CommandName::AuditTree => {
            unreachable!()
        }
    }
}
