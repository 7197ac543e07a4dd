//! The rows of a tree.

ghost use Rattle.std.specs.Prelude.{◌≡◌, IfOk};
ghost use Rattle.relay_core.specs.Sums.{AreByName};
ghost use Rattle.tree_search.specs.Rows.{broker_row};

use audit_search::{Left, accounts_of};
use audit_sums::BookSums;
use mc_base::NoMemory;
use relay_core::BrokerSums;

/// The sums of a broker of whose pieces this is left.
pub(crate) fn broker_row(book: &BookSums, left: Left) -> Result<BrokerSums, NoMemory>
    ensures { IfOk result (λ row. row ≡ broker_row book.now left) }
{
    let till = book.till();
    Ok(BrokerSums {
        name: *book.name(),
        paid_in: till.paid_in,
        paid_out: till.paid_out,
        accounts: accounts_of(&till)?,
        fees: till.fees,
        outstanding: left.outstanding,
        lapsed: left.lapsed,
    })
}

/// The sums of brokers in the order of their names, by their bytes.
pub(crate) fn brokers_by_name(mut brokers: Vec<BrokerSums>) -> Result<Vec<BrokerSums>, NoMemory>
    ensures { IfOk result (λ ordered. AreByName (λ b. b.name) brokers.items ordered.items) }
{
    brokers.sort_by(|a, b| a.name.bytes().cmp(b.name.bytes()))?;
    Ok(brokers)
}
