use mc_base::Amount;
use scrip_form::Name;

/// Money that an operator put into an account or paid out of it, under a reference.
#[derive(Clone, Copy, Drop)]
pub enum Payment {
    Deposit { account: Name, amount: Amount },
    Withdrawal { account: Name, amount: Amount },
}
