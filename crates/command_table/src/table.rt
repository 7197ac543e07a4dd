ghost use Rattle.std.specs.Prelude.{◌≡◌, ◌<◌, ◌∷◌, length, map, string_bytes, IfOk, IfSome, IsNone};
ghost use Rattle.command_words.specs.Arguments.{found, optional};
ghost use Rattle.command_table.specs.Table.{Reads, form_of, rules};
ghost use Rattle.command_table.specs.Naming.{named};

use crate::parameter::Parameter;
use crate::parameter::Parameter::{
    Account, Amount, AnyIssuer, Before, Book, Books, Broker, Budget, Clear, Connect, Contents,
    Customer, Door, Epoch, Fee, Heads, Issuer, Json, Keep, Key, Kind, Life, Limit, Links, Listen,
    Name, Order, Peer, Period, Pieces, Price, Reference, Scrip, Secret, Target, Value, Vendor,
};
use command_words::{Found, read_beginning, read_words};
use std::alloc::{AllocError, Global};

/// The commands that the program has words for, also those that it does not carry out yet.
#[derive(Clone, Copy)]
pub enum CommandName {
    /// Founds a vendor in a book.
    VendorInit,
    /// Puts goods on sale.
    VendorGoods,
    /// Sells goods at another price.
    VendorPrice,
    /// Licenses another site to issue the vendor's scrip.
    VendorLicence,
    /// Mints pieces of the vendor's own scrip.
    VendorMint,
    /// Serves the vendor of a book.
    VendorServe,
    /// Sells one thing over one link, with no book.
    VendorOnce,
    /// Has a vendor in memory answer so many requests.
    VendorPlay,
    /// Takes the second version of scrip from an epoch on.
    VendorUpgrade,
    /// Has the book end each entry with a digest of all before.
    VendorChain,
    /// Lists what is on sale.
    VendorList,
    /// Tells how the vendor of a book stands, for Prometheus.
    VendorStatus,
    /// States what was redeemed of a series that ended.
    VendorStatement,
    /// Founds a broker in a book.
    BrokerInit,
    /// Opens an account.
    BrokerAccount,
    /// Pays into an account.
    BrokerDeposit,
    /// Pays out of an account.
    BrokerWithdraw,
    /// Tells the balance of an account.
    BrokerBalance,
    /// Takes a licence of a vendor.
    BrokerLicence,
    /// Takes pieces of a vendor as stock.
    BrokerStock,
    /// Serves the broker of a book.
    BrokerServe,
    /// As `vendor upgrade`, for scrip of a vendor.
    BrokerUpgrade,
    /// As `vendor chain`.
    BrokerChain,
    /// Lists the accounts.
    BrokerList,
    /// As `vendor status`.
    BrokerStatus,
    /// Pays a vendor's statement.
    BrokerSettle,
    /// Founds a wallet in a book.
    WalletInit,
    /// Takes pieces into the wallet.
    WalletTake,
    /// Draws broker's scrip from an account.
    WalletDraw,
    /// Buys scrip of a vendor from a broker.
    WalletBuy,
    /// Buys contents from a vendor.
    WalletGet,
    /// Sends a kept request again.
    WalletRetry,
    /// Tells what the wallet holds.
    WalletList,
    /// Tells the pieces of a vendor that may be sold on.
    WalletLines,
    /// As `vendor chain`.
    WalletChain,
    /// Pays for the requests of a browser.
    WalletProxy,
    /// Pays a cheap target with the piece that ends first, and keeps its change.
    WalletRenew,
    /// Reports of books.
    AuditReport,
    /// Tells of each book how many entries it has, and the digest of all of them.
    AuditChain,
    /// Reports of brokers that sell scrip of each other.
    AuditTree,
}

/// All of them.
pub static COMMANDS: [CommandName; 40] = [
    CommandName::VendorInit,
    CommandName::VendorGoods,
    CommandName::VendorPrice,
    CommandName::VendorLicence,
    CommandName::VendorMint,
    CommandName::VendorServe,
    CommandName::VendorOnce,
    CommandName::VendorPlay,
    CommandName::VendorUpgrade,
    CommandName::VendorChain,
    CommandName::VendorList,
    CommandName::VendorStatus,
    CommandName::VendorStatement,
    CommandName::BrokerInit,
    CommandName::BrokerAccount,
    CommandName::BrokerDeposit,
    CommandName::BrokerWithdraw,
    CommandName::BrokerBalance,
    CommandName::BrokerLicence,
    CommandName::BrokerStock,
    CommandName::BrokerServe,
    CommandName::BrokerUpgrade,
    CommandName::BrokerChain,
    CommandName::BrokerList,
    CommandName::BrokerStatus,
    CommandName::BrokerSettle,
    CommandName::WalletInit,
    CommandName::WalletTake,
    CommandName::WalletDraw,
    CommandName::WalletBuy,
    CommandName::WalletGet,
    CommandName::WalletRetry,
    CommandName::WalletList,
    CommandName::WalletLines,
    CommandName::WalletChain,
    CommandName::WalletProxy,
    CommandName::WalletRenew,
    CommandName::AuditReport,
    CommandName::AuditChain,
    CommandName::AuditTree,
];

/// How the words of a command are: its role, its name, and its parameters.
#[derive(Clone, Copy)]
pub(crate) struct CommandForm {
    pub(crate) role: &'static str,
    pub(crate) name: &'static str,
    pub(crate) parameters: &'static [Parameter],
}

/// A row of the table.
fn row(role: &'static str, name: &'static str, parameters: &'static [Parameter]) -> CommandForm
    ensures role { result.role.now ≡ role.now }
    ensures name { result.name.now ≡ name.now }
    ensures parameters { result.parameters.now ≡ parameters.now }
{
    CommandForm {
        role,
        name,
        parameters,
    }
}

impl CommandName {
    /// The role that the command is of.
    pub fn role(self) -> &'static str
        ensures { result.now ≡ (form_of self).role }
    {
        self.form().role
    }

    /// Its name, after the role.
    pub fn name(self) -> &'static str
        ensures { result.now ≡ (form_of self).name }
    {
        self.form().name
    }

    /// Its parameters, in the order of their words.
    pub fn parameters(self) -> &'static [Parameter]
        ensures { result.now ≡ (form_of self).parameters }
    {
        self.form().parameters
    }

    /// The row of the command in the table.
    #[tactic(auto, unfolding(crate::specs::Table::form_of))]
    pub(crate) fn form(self) -> CommandForm
        ensures role { result.role.now ≡ (form_of self).role }
        ensures name { result.name.now ≡ (form_of self).name }
        ensures parameters { result.parameters.now ≡ (form_of self).parameters }
    {
        match self {
            CommandName::VendorInit => row(
                "vendor",
                "init",
                &[Book, Name, Period, Life, Scrip, Customer, Keep, Clear],
            ),
            CommandName::VendorGoods => row("vendor", "goods", &[Book, Target, Price, Kind]),
            CommandName::VendorPrice => row("vendor", "price", &[Book, Target, Price]),
            CommandName::VendorLicence => row(
                "vendor",
                "licence",
                &[Book, Issuer, Period, Life, Scrip, Customer],
            ),
            CommandName::VendorMint => row("vendor", "mint", &[Book, Pieces, Value, Reference]),
            CommandName::VendorServe => row("vendor", "serve", &[Book, Listen, Links, Door]),
            CommandName::VendorOnce => row(
                "vendor",
                "once",
                &[Name, Target, Price, Secret, Contents],
            ),
            CommandName::VendorPlay => row("vendor", "play", &[Heads]),
            CommandName::VendorUpgrade => row("vendor", "upgrade", &[Book, AnyIssuer, Epoch]),
            CommandName::VendorChain => row("vendor", "chain", &[Book]),
            CommandName::VendorList => row("vendor", "list", &[Book]),
            CommandName::VendorStatus => row("vendor", "status", &[Book]),
            CommandName::VendorStatement => row("vendor", "statement", &[Book, Issuer, Epoch]),
            CommandName::BrokerInit => row(
                "broker",
                "init",
                &[Book, Name, Period, Life, Scrip, Customer, Fee, Keep, Clear],
            ),
            CommandName::BrokerAccount => row("broker", "account", &[Book, Account, Key]),
            CommandName::BrokerDeposit => row(
                "broker",
                "deposit",
                &[Book, Account, Amount, Reference],
            ),
            CommandName::BrokerWithdraw => row(
                "broker",
                "withdraw",
                &[Book, Account, Amount, Reference],
            ),
            CommandName::BrokerBalance => row("broker", "balance", &[Book, Account]),
            CommandName::BrokerLicence => row("broker", "licence", &[Book]),
            CommandName::BrokerStock => row("broker", "stock", &[Book, Vendor]),
            CommandName::BrokerServe => row("broker", "serve", &[Book, Listen, Links, Door]),
            CommandName::BrokerUpgrade => row("broker", "upgrade", &[Book, Vendor, Epoch]),
            CommandName::BrokerChain => row("broker", "chain", &[Book]),
            CommandName::BrokerList => row("broker", "list", &[Book]),
            CommandName::BrokerStatus => row("broker", "status", &[Book]),
            CommandName::BrokerSettle => row("broker", "settle", &[Book]),
            CommandName::WalletInit => row("wallet", "init", &[Book, Name]),
            CommandName::WalletTake => row("wallet", "take", &[Book]),
            CommandName::WalletDraw => row(
                "wallet",
                "draw",
                &[Book, Broker, Account, Key, Order, Amount, Connect],
            ),
            CommandName::WalletBuy => row(
                "wallet",
                "buy",
                &[Book, Broker, Vendor, Amount, Limit, Connect],
            ),
            CommandName::WalletGet => row("wallet", "get", &[Book, Vendor, Target, Limit, Connect]),
            CommandName::WalletRetry => row("wallet", "retry", &[Book, Peer, Connect]),
            CommandName::WalletList => row("wallet", "list", &[Book]),
            CommandName::WalletLines => row("wallet", "lines", &[Book, Vendor]),
            CommandName::WalletChain => row("wallet", "chain", &[Book]),
            CommandName::WalletProxy => row(
                "wallet",
                "proxy",
                &[Book, Vendor, Limit, Budget, Listen, Connect, Links],
            ),
            CommandName::WalletRenew => row(
                "wallet",
                "renew",
                &[Book, Vendor, Target, Before, Connect],
            ),
            CommandName::AuditReport => row("audit", "report", &[Books, Json]),
            CommandName::AuditChain => row("audit", "chain", &[Books]),
            CommandName::AuditTree => row("audit", "tree", &[Books]),
        }
    }
}

/// The command that words begin with; None where they begin with the role and the name of none.
pub fn named(words: &[String]) -> Option<CommandName>
    ensures { result ≡ named (map string_bytes words.now) }
{
    let Some((role, command, _)) = parts_of(words) else {
        return None;
    };
    for name in &COMMANDS {
        let form = name.form();
        if role == form.role && command == form.name {
            return Some(*name);
        }
    }
    None
}

/// What `clap` finds in the words of this command; None exactly where the words begin with another role
/// or name, or `clap` does not promise to take the words behind them. An Err is want of memory alone.
pub fn read_command<'a>(
    alloc: Global,
    name: CommandName,
    words: &'a [String],
) -> Result<Option<Found<'a>>, AllocError>
    ensures { IfOk result (λ r. Reads name (map string_bytes words.entry.now) r) }
{
    let Some((role, command, behind)) = parts_of(words) else {
        return Ok(None);
    };
    let form = name.form();
    if role != form.role || command != form.name {
        return Ok(None);
    }
    read_words(alloc, form.parameters, behind)
}

/// What `clap` finds in words behind the name of a command, where none of its arguments is required; None exactly
/// where it doesn't take them. An Err is want of memory alone.
pub(crate) fn read_beginning_of<'a>(
    alloc: Global,
    name: CommandName,
    words: &'a [String],
) -> Result<Option<Found<'a>>, AllocError>
    ensures { IfOk result (λ r. r ≡ found (map optional (rules (form_of name)))
        (map string_bytes words.entry.now)) }
{
    read_beginning(alloc, name.form().parameters, words)
}

/// The role, the name and the words behind them; None exactly below two words.
pub(crate) fn parts_of(words: &[String]) -> Option<(&str, &str, &[String])>
    ensures some { IfSome result
        (λ p. map string_bytes words.now ≡ p.0.now ∷ p.1.now ∷ map string_bytes p.2.now) }
    ensures none { IsNone result → length words.now < 2 }
{
    match words {
        [role, command, behind @ ..] => Some((role.as_str(), command.as_str(), behind)),
        _ => None,
    }
}
