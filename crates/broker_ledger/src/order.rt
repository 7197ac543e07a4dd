ghost use Rattle.std.specs.Prelude.{◌≡◌, option_map};
ghost use Rattle.ledger_model.specs.Orders as model;
ghost use Rattle.broker_ledger.specs.Ledger.{order_view};

use mc_base::Amount;
use mc_requests::{Errand, errands_are_texts, read_errand};
use scrip_form::Name;

/// A draw that a target asks for: so much out of an account, under an order of 1 to 2^40.
#[derive(Clone, Copy, Drop)]
pub struct Order {
    pub account: Name,
    pub order: u64,
    pub amount: Amount,
}

/// The draw that a target asks for; None exactly where it is the text of none.
pub fn order_of(target: &[u8]) -> Option<Order>
    ensures { option_map order_view result ≡ model.order_of target.now }
{
    errands_are_texts();
    let Some(
        Errand::Draw {
            account,
            order,
            amount,
        },
    ) = read_errand(target)
    else {
        return None;
    };
    let account = Name::new(account).unwrap();
    let amount = Amount::new(amount).unwrap();
    Some(Order {
        account,
        order,
        amount,
    })
}
