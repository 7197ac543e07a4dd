ghost use Rattle.std.specs.Prelude.{◌≡◌, ◌+◌, ◌<◌, ◌≤◌, ◌↔◌, IsNone, IfNone, IfSome};
ghost use Rattle.mc_records.specs.declared.ranges.TheConstants.{MOST_IN_ACCOUNT};
ghost use Rattle.broker_accounts.specs.Accounts.{new_account, credited, debited, drawn};

use mc_base::{Amount, Coin, Total};
use scrip_form::Name;
use std::marker::Model;

/// An account: its name, its key, its balance, which is 2^60 units at most, and its last order, 0
/// before the first. Contracts see it as the record `AccountView`. The balance comes first, since its
/// place is a multiple of 16 bytes.
#[derive(Drop)]
pub struct Account {
    balance: Total,
    last: u64,
    name: Name,
    key: [u8; 16],
}

impl Model for Account {
    ghost use Rattle.std.specs.Prelude.{◌≤◌};
    ghost use Rattle.mc_records.specs.declared.ranges.TheConstants.{MOST_IN_ACCOUNT};
    ghost use Rattle.broker_accounts.specs.Accounts.{AccountView};

    ghost Value = { AccountView };

    ghost view = { λ a. record { name = a.name; key = a.key; balance = a.balance; last = a.last } };

    ghost invariant = { λ a. a.balance ≤ MOST_IN_ACCOUNT };
}

impl Account {
    /// An account in which nothing stands, and from which nothing was drawn.
    pub(crate) fn open(name: Name, key: [u8; 16]) -> Account
        ensures { result ≡ new_account name key }
    {
        Account {
            balance: Total::zero(),
            last: 0,
            name,
            key,
        }
    }

    pub(crate) fn key(&self) -> [u8; 16]
        ensures { result ≡ self.now.key }
    {
        self.key
    }

    /// Its name.
    pub fn name(&self) -> &Name
        ensures { result.now ≡ self.now.name }
    {
        &self.name
    }

    /// Its balance, in units.
    pub fn balance(&self) -> u64
        ensures value { result ≡ self.now.balance }
        ensures most { self.now.balance ≤ MOST_IN_ACCOUNT }
    {
        self.balance.number() as u64
    }

    /// The order of the last draw from it, 0 before the first.
    pub fn last(&self) -> u64
        ensures { result ≡ self.now.last }
    {
        self.last
    }

    /// Takes a coin in, with which the balance is 2^60 at most.
    pub(crate) fn put(&mut self, c: Coin)
        requires { self.old.balance + c ≤ MOST_IN_ACCOUNT }
        ensures { self.new ≡ credited c self.old }
    {
        self.balance.put(c);
    }

    /// A coin of this amount out of the account; None exactly where it holds less, and it then stays
    /// as it is.
    pub(crate) fn take(&mut self, a: Amount) -> Option<Coin>
        ensures none { IsNone result ↔ (self.old.balance < a) }
        ensures same { IfNone result (self.new ≡ self.old) }
        ensures coin { IfSome result (λ c. c ≡ a) }
        ensures taken { IfSome result (λ c. self.new ≡ debited a self.old) }
    {
        self.balance.take(a)
    }

    /// The same under an order, which is then the last one; where it is None the last order stays.
    pub(crate) fn draw(&mut self, order: u64, a: Amount) -> Option<Coin>
        ensures none { IsNone result ↔ (self.old.balance < a) }
        ensures same { IfNone result (self.new ≡ self.old) }
        ensures coin { IfSome result (λ c. c ≡ a) }
        ensures taken { IfSome result (λ c. self.new ≡ drawn order a self.old) }
    {
        let coin = self.balance.take(a)?;
        self.last = order;
        Some(coin)
    }
}
