ghost use Rattle.std.specs.Prelude.{◌≡◌, ◌+◌, ◌≤◌, ◌↔◌, ◌∷◌, ◌++◌, [], Some, None, position, option_map, IsSome, IsErr, IfSome, IfErr, IfOk, OnOk, OnErr};
ghost use Rattle.std.specs.Result.{result_err};
ghost use Rattle.mc_records.specs.declared.ranges.TheConstants.{MOST_IN_ACCOUNT};
ghost use Rattle.mc_requests.specs.declared.refusal.Refusal.TheVariants as refusals;
ghost use Rattle.broker_accounts.specs.Accounts.{account_of, is_named, balances, AreNamedApart, new_account, credited, debited, drawn, changed, put_refusal, withdraw_refusal, draw_refusal};

use crate::account::Account;
use mc_base::{Amount, Coin, NoMemory};
use mc_records::MOST_IN_ACCOUNT;
use mc_requests::Refusal;
use name_places::NamePlaces;
use scrip_form::Name;
use std::alloc::Global;
use std::marker::Model;

/// The accounts of a broker, each under a name of its own. An account has a key, a balance of 0 to
/// 2^60 units, and the order of the last draw from it. It is found by its name in a few looks, however
/// many there are. Accounts may be dropped, since they count what is written elsewhere.
///
/// Contracts see them as the record `AccountsView`: the accounts in the order in which they were
/// opened, and the name for which there is room.
#[derive(Drop)]
pub struct Accounts {
    accounts: Vec<Account>,
    /// Where the account of each name stands.
    places: NamePlaces,
}

impl Model for Accounts {
    ghost use Rattle.std.specs.Prelude.{vec_capacity};
    ghost use Rattle.broker_accounts.specs.Accounts.{AccountsView};
    ghost use Rattle.broker_accounts.specs.Stored.{IsStored};

    ghost Value = { AccountsView };

    ghost view = { λ a. record { accounts = a.accounts.items; room = a.places.room } };

    ghost invariant = { λ a. IsStored a.accounts.items (vec_capacity a.accounts) a.places };
}

impl Accounts {
    /// No accounts, and room for none. It takes no memory.
    pub fn new(alloc: Global) -> Accounts
        ensures accounts { result.accounts ≡ [] }
        ensures room { result.room ≡ None }
    {
        Accounts {
            accounts: Vec::new(alloc),
            places: NamePlaces::new(alloc),
        }
    }

    /// Makes room for an account of this name, in place of the name for which there was room. The
    /// accounts stay. After an `Err` all is as it was.
    pub fn reserve(&mut self, name: &Name) -> Result<(), NoMemory>
        ensures room { OnOk result (self.new.room ≡ Some name.now) }
        ensures err { OnErr result (self.new.room ≡ self.old.room) }
        ensures accounts { self.new.accounts ≡ self.old.accounts }
    {
        self.accounts.reserve(1)?;
        self.places.reserve(name.bytes())
    }

    /// Opens an account under this name, for which there is room, with nothing in it; there is no room
    /// for another then. `Err` is 60 AccountTaken, exactly where there is an account of that name,
    /// whatever its key; all is then as it was. It takes no memory.
    pub fn add(&mut self, name: &Name, key: [u8; 16]) -> Result<(), Refusal>
        requires room { self.old.room ≡ Some name.now }
        ensures added { OnOk result (self.new.accounts
            ≡ self.old.accounts ++ new_account name.now key ∷ []) }
        ensures taken { IsErr result ↔ IsSome (account_of self.old.accounts name.now) }
        ensures refusal { IfErr result (λ f. f ≡ refusals.AccountTaken) }
        ensures same { OnErr result (self.new ≡ self.old) }
        ensures room { OnOk result (self.new.room ≡ None) }
        ensures sum { balances self.new.accounts ≡ balances self.old.accounts }
        ensures apart { AreNamedApart self.new.accounts }
    {
        if self.place(name.bytes()).is_some() {
            return Err(Refusal::AccountTaken);
        }
        self.places.put(self.accounts.len());
        self.accounts.push_reserved(Account::open(*name, key));
        Ok(())
    }

    /// Puts a coin into the account of a name. `Err` hands the coin back, with 40 NoAccount where there
    /// is none, and with 45 AccountFull and the balance where it would pass 2^60; all is then as it
    /// was. It takes no memory.
    pub fn put(&mut self, name: &Name, c: Coin) -> Result<(), (Coin, Refusal)>
        ensures put { OnOk result (self.new.accounts
            ≡ changed name.now (credited c) self.old.accounts) }
        ensures sum { OnOk result (balances self.new.accounts ≡ balances self.old.accounts + c) }
        ensures refusal { option_map (λ e. e.1) (result_err result)
            ≡ put_refusal c (account_of self.old.accounts name.now) }
        ensures back { IfErr result (λ e. e.0 ≡ c) }
        ensures same { OnErr result (self.new ≡ self.old) }
        ensures room { self.new.room ≡ self.old.room }
        ensures apart { AreNamedApart self.new.accounts }
    {
        let place = match self.place(name.bytes()) {
            Some(place) => place,
            None => return Err((c, Refusal::NoAccount)),
        };
        let account = &mut self.accounts[place];
        let balance = account.balance();
        if MOST_IN_ACCOUNT - balance < c.amount().get() {
            return Err((c, Refusal::AccountFull(balance)));
        }
        account.put(c);
        Ok(())
    }

    /// A coin of this amount out of the account of a name. `Err` is 40 NoAccount where there is none,
    /// and 42 PoorAccount with the balance where it holds less; all is then as it was. It takes no
    /// memory.
    pub fn withdraw(&mut self, name: &Name, a: Amount) -> Result<Coin, Refusal>
        ensures coin { IfOk result (λ c. c ≡ a) }
        ensures taken { OnOk result (self.new.accounts
            ≡ changed name.now (debited a) self.old.accounts) }
        ensures sum { IfOk result (λ c. balances self.new.accounts + c ≡ balances self.old.accounts) }
        ensures refusal { result_err result
            ≡ withdraw_refusal a (account_of self.old.accounts name.now) }
        ensures same { OnErr result (self.new ≡ self.old) }
        ensures room { self.new.room ≡ self.old.room }
        ensures apart { AreNamedApart self.new.accounts }
    {
        let place = match self.place(name.bytes()) {
            Some(place) => place,
            None => return Err(Refusal::NoAccount),
        };
        let account = &mut self.accounts[place];
        let balance = account.balance();
        let coin = match account.take(a) {
            Some(coin) => coin,
            None => return Err(Refusal::PoorAccount(balance)),
        };
        Ok(coin)
    }

    /// A coin of this amount out of the account of a name, under an order, which is then its last one.
    /// `Err` is 40 NoAccount where there is none, else 41 StaleOrder with the last order where the
    /// order is not above it, else 42 PoorAccount with the balance where it holds less; all is then as
    /// it was. It takes no memory.
    pub fn draw(&mut self, name: &Name, order: u64, a: Amount) -> Result<Coin, Refusal>
        ensures coin { IfOk result (λ c. c ≡ a) }
        ensures taken { OnOk result (self.new.accounts
            ≡ changed name.now (drawn order a) self.old.accounts) }
        ensures sum { IfOk result (λ c. balances self.new.accounts + c ≡ balances self.old.accounts) }
        ensures refusal { result_err result
            ≡ draw_refusal order a (account_of self.old.accounts name.now) }
        ensures same { OnErr result (self.new ≡ self.old) }
        ensures room { self.new.room ≡ self.old.room }
        ensures apart { AreNamedApart self.new.accounts }
    {
        let place = match self.place(name.bytes()) {
            Some(place) => place,
            None => return Err(Refusal::NoAccount),
        };
        let account = &mut self.accounts[place];
        let last = account.last();
        if order <= last {
            return Err(Refusal::StaleOrder(last));
        }
        let balance = account.balance();
        let coin = match account.draw(order, a) {
            Some(coin) => coin,
            None => return Err(Refusal::PoorAccount(balance)),
        };
        Ok(coin)
    }

    /// The balance of the account of a name, in units; None exactly where there is none.
    pub fn balance(&self, name: &Name) -> Option<u64>
        ensures most { IfSome result (λ n. n ≤ MOST_IN_ACCOUNT) }
        ensures value { result ≡ option_map (λ a. a.balance) (account_of self.now.accounts name.now) }
    {
        match self.account(name.bytes()) {
            Some(account) => Some(account.balance()),
            None => None,
        }
    }

    /// The order of the last draw from the account of a name, 0 before the first; None exactly where
    /// there is none.
    pub fn last(&self, name: &Name) -> Option<u64>
        ensures { result ≡ option_map (λ a. a.last) (account_of self.now.accounts name.now) }
    {
        match self.account(name.bytes()) {
            Some(account) => Some(account.last()),
            None => None,
        }
    }

    /// The key of the account of a name; None exactly where there is none.
    pub fn key(&self, name: &Name) -> Option<[u8; 16]>
        ensures { result ≡ option_map (λ a. a.key) (account_of self.now.accounts name.now) }
    {
        match self.account(name.bytes()) {
            Some(account) => Some(account.key()),
            None => None,
        }
    }

    /// The accounts, in the order in which they were opened.
    pub fn all(&self) -> &[Account]
        ensures { result.now ≡ self.now.accounts }
    {
        &self.accounts
    }

    /// The sum of all balances, in units. It goes over all accounts.
    pub fn sum(&self) -> u128
        ensures { result ≡ balances self.now.accounts }
    {
        let mut sum = 0;
        for account in &self.accounts {
            sum += u128::from(account.balance());
        }
        sum
    }

    /// The account of a name.
    fn account(&self, name: &[u8]) -> Option<&Account>
        ensures { option_map (λ a. a.now) result ≡ account_of self.now.accounts name.now }
    {
        let place = match self.place(name) {
            Some(place) => place,
            None => return None,
        };
        Some(&self.accounts[place])
    }

    /// Where the account of a name stands; None exactly where there is none.
    fn place(&self, name: &[u8]) -> Option<usize>
        ensures { result ≡ position (is_named name.now) self.now.accounts }
    {
        self.places.get(name)
    }
}
