ghost use Rattle.std.specs.Prelude.{◌≡◌, ◌↔◌, ◌≤◌, ◌<◌, ℕ, List, Option, option_map, ◌∷◌, ◌++◌, [], Some, IsNone, IsSome, IfSome, IsTrue, IsFalse, OnOk, bytes_eq, if◌then◌else◌, length, vec_len, vec_capacity};
ghost use Rattle.scrip_form.specs.Texts.{IsName};
ghost use Rattle.mc_records.specs.declared.ranges.TheConstants.{MOST_IN_ACCOUNT};
ghost use Rattle.mc_records.specs.Entry.{Accept, Account, Deposit, Withdraw, Draw};
ghost use Rattle.mc_records.specs.Views.{deed_of, entry};
ghost use Rattle.ledger_model.specs.Histories.{History};
ghost use Rattle.ledger_model.specs.Pieces.{has_reference};
ghost use Rattle.ledger_model.specs.Accounts.{account_in, all_balances, movement};
ghost use Rattle.name_places.specs.NamePlaces.{place_of};
ghost use Rattle.broker_ledger.specs.Ledger.{Represents, HasRoom, HasRoomUnder, AccountsAllow, AccountsAnswer, PaymentFits, credit_by, credit_within, payment_under, standing_in, standings};

use crate::order::order_of;
use crate::payment::Payment;
use broker_accounts::Accounts;
use mc_base::{Amount, Coin, NoMemory, Total};
use mc_records::{Record, RecordDeed};
use mc_requests::{Errand, errands_are_texts, read_errand};
use name_places::NamePlaces;
use scrip_form::Name;
use std::alloc::Global;

/// What stands in an account: its key, its balance of 0 to 2^60 units, and the order of the last draw from
/// it, 0 before the first.
#[derive(Clone, Copy, Drop)]
pub struct Standing {
    pub key: [u8; 16],
    pub balance: u64,
    pub last: u64,
}

/// The accounts of a broker, and what its operator put in and paid out by the references. Both are found in
/// a few looks, however many there are.
#[derive(Drop)]
pub struct AccountLedger {
    accounts: Accounts,
    payments: Vec<Payment>,
    /// Where among the payments that of each reference stands.
    references: NamePlaces,
}

impl AccountLedger {
    /// The accounts of an empty history. It takes no memory.
    pub fn new(alloc: Global) -> AccountLedger
        ensures { Represents result [] }
    {
        AccountLedger {
            accounts: Accounts::new(alloc),
            payments: Vec::new(alloc),
            references: NamePlaces::new(alloc),
        }
    }

    /// What stands in the account of a name; None exactly where there is none.
    pub fn standing(&self, name: &Name) -> Option<Standing>
        ensures value { (h : History) → Represents self.now h
            → result ≡ standing_in h name.now }
        ensures most { IfSome result (λ s. s.balance ≤ MOST_IN_ACCOUNT) }
    {
        let key = match self.accounts.key(name) {
            Some(key) => key,
            None => return None,
        };
        let balance = match self.accounts.balance(name) {
            Some(balance) => balance,
            None => return None,
        };
        let last = match self.accounts.last(name) {
            Some(last) => last,
            None => return None,
        };
        Some(Standing { key, balance, last })
    }

    /// The accounts, in the order in which they were opened.
    pub fn accounts(&self) -> &[broker_accounts::Account]
        ensures { (h : History) → Represents self.now h → result.now ≡ standings h }
    {
        self.accounts.all()
    }

    /// The sum of all balances, in units. It goes over all accounts.
    pub fn balances(&self) -> u128
        ensures { (h : History) → Represents self.now h → result ≡ all_balances h }
    {
        self.accounts.sum()
    }

    /// What the operator put in or paid out under a reference; None exactly where the reference is new.
    pub fn payment(&self, reference: &[u8]) -> Option<Payment>
        ensures none { (h : History) → Represents self.now h
            → IsNone result ↔ IsFalse (has_reference h reference.now) }
        ensures payment { (h : History) → Represents self.now h
            → result ≡ payment_under h reference.now }
    {
        match self.references.get(reference) {
            Some(place) => self.payments.get(place).copied(),
            None => None,
        }
    }

    /// Makes room for what an entry adds. All that is kept stays as it is, after an `Err` too.
    pub fn reserve(&mut self, r: &Record<'_>) -> Result<(), NoMemory>
        requires fits { PaymentFits (entry r.now) }
        ensures room { OnOk result (HasRoom self.new (entry r.now)) }
        ensures same { (h : History) → Represents self.old h → Represents self.new h }
    {
        match *r {
            Record::Account { name, .. } => match Name::new(name) {
                Some(name) => self.accounts.reserve(&name),
                None => unreachable!(),
            },
            Record::Deposit { reference, .. } | Record::Withdraw { reference, .. } => {
                self.payments.reserve(1)?;
                self.references.reserve(reference)
            }
            _ => Ok(()),
        }
    }

    /// Learns the next entry, for which there is room; false exactly where the accounts don't allow it, and
    /// all is then as it was. A credit or a draw was judged by the accounts before it was answered, and is
    /// only counted here. It takes no memory.
    pub fn learn(&mut self, r: &Record<'_>) -> bool
        requires room { HasRoom self.old (entry r.now) }
        requires fits { PaymentFits (entry r.now) }
        ensures exact { (h : History) → Represents self.old h
            → IsTrue result ↔ AccountsAllow h (entry r.now) }
        ensures learned { (h : History) → Represents self.old h → AccountsAnswer h (entry r.now)
            → IsTrue result → Represents self.new (h ++ entry r.now ∷ []) }
        ensures same { (h : History) → Represents self.old h → IsFalse result
            → Represents self.new h }
    {
        match *r {
            Record::Account { name, key, .. } => self.open(name, key),
            Record::Deposit {
                name,
                amount,
                reference,
                ..
            } => self.deposit(name, amount, reference),
            Record::Withdraw {
                name,
                amount,
                reference,
                ..
            } => self.withdraw(name, amount, reference),
            Record::Accept {
                target,
                price,
                deed,
                ..
            } => {
                self.credit(target, price, deed);
                true
            }
            Record::Draw { target, .. } => {
                self.draw(target);
                true
            }
            Record::Mint { .. } => false,
            _ => true,
        }
    }

    /// Opens an account under a name, for which there is room.
    fn open(&mut self, name: &[u8], key: [u8; 16]) -> bool
        requires name { IsName name.now }
        requires room { self.old.accounts.room ≡ Some name.now }
        ensures exact { (h : History) → Represents self.old h
            → IsTrue result ↔ IsNone (account_in h name.now) }
        ensures learned { (h : History) (m : ℕ) → Represents self.old h → IsTrue result
            → Represents self.new (h ++ Account m name.now key ∷ []) }
        ensures same { (h : History) → Represents self.old h → IsFalse result
            → Represents self.new h }
    {
        let name = Name::new(name).unwrap();
        match self.accounts.add(&name, key) {
            Ok(()) => true,
            Err(_) => false,
        }
    }

    /// Puts a deposit into an account, for which there is room.
    fn deposit(&mut self, account: &[u8], amount: u64, reference: &[u8]) -> bool
        requires name { IsName account.now }
        requires amount { amount ≤ Amount.MOST }
        requires room { HasRoomUnder self.old reference.now }
        ensures exact { (h : History) (m : ℕ) → Represents self.old h
            → IsTrue result ↔ AccountsAllow h (Deposit m account.now amount reference.now) }
        ensures learned { (h : History) (m : ℕ) → Represents self.old h → IsTrue result
            → Represents self.new (h ++ Deposit m account.now amount reference.now ∷ []) }
        ensures same { (h : History) → Represents self.old h → IsFalse result
            → Represents self.new h }
    {
        let account = Name::new(account).unwrap();
        let amount = Amount::new(amount).unwrap();
        if self.references.get(reference).is_some() {
            return false;
        }
        match self.accounts.put(&account, Coin::minted(amount)) {
            Ok(()) => (),
            Err((coin, _)) => {
                leave(coin);
                return false;
            }
        }
        self.put_payment(Payment::Deposit { account, amount });
        true
    }

    /// Takes a withdrawal out of an account, for which there is room.
    fn withdraw(&mut self, account: &[u8], amount: u64, reference: &[u8]) -> bool
        requires name { IsName account.now }
        requires amount { amount ≤ Amount.MOST }
        requires room { HasRoomUnder self.old reference.now }
        ensures exact { (h : History) (m : ℕ) → Represents self.old h
            → IsTrue result ↔ AccountsAllow h (Withdraw m account.now amount reference.now) }
        ensures learned { (h : History) (m : ℕ) → Represents self.old h → IsTrue result
            → Represents self.new (h ++ Withdraw m account.now amount reference.now ∷ []) }
        ensures same { (h : History) → Represents self.old h → IsFalse result
            → Represents self.new h }
    {
        let account = Name::new(account).unwrap();
        let amount = Amount::new(amount).unwrap();
        if self.references.get(reference).is_some() {
            return false;
        }
        match self.accounts.withdraw(&account, amount) {
            Ok(coin) => leave(coin),
            Err(_) => return false,
        }
        self.put_payment(Payment::Withdrawal { account, amount });
        true
    }

    /// Puts a payment under the reference for which there is room.
    fn put_payment(&mut self, payment: Payment)
        requires place { vec_len self.old.payments < vec_capacity self.old.payments }
        requires name { IsSome self.old.references.room }
        ensures accounts { self.new.accounts ≡ self.old.accounts }
        ensures payments { self.new.payments.items ≡ self.old.payments.items ++ payment ∷ [] }
        ensures references { (reference : List ℕ) → self.old.references.room ≡ Some reference
            → (q : List ℕ) → place_of self.new.references q
            ≡ (if bytes_eq q reference then Some (length self.old.payments.items)
            else place_of self.old.references q) }
    {
        self.references.put(self.payments.len());
        self.payments.push_reserved(payment);
    }

    /// Puts a credit of a price for a target into its account, where it is one.
    fn credit(&mut self, target: &[u8], price: u64, deed: RecordDeed)
        ensures { (h : History) (m : ℕ) (scrip : List ℕ) (sign : Option (List ℕ)) (change : Option ℕ)
            → Represents self.old h
            → AccountsAnswer h (Accept m scrip target.now sign price change (deed_of deed))
            → Represents self.new (h ++ Accept m scrip target.now sign price change (deed_of deed) ∷ []) }
    {
        let Some((account, amount)) = credited(target, price, deed) else {
            return;
        };
        match self.accounts.put(&account, Coin::minted(amount)) {
            Ok(()) => (),
            Err((coin, _)) => leave(coin),
        }
    }

    /// Takes what a target draws out of its account.
    fn draw(&mut self, target: &[u8])
        ensures { (h : History) (m drawn : ℕ) (sign : List ℕ) → Represents self.old h
            → AccountsAnswer h (Draw m target.now sign drawn)
            → Represents self.new (h ++ Draw m target.now sign drawn ∷ []) }
    {
        let Some(order) = order_of(target) else {
            return;
        };
        match self
            .accounts
            .draw(&order.account, order.order, order.amount)
        {
            Ok(coin) => leave(coin),
            Err(_) => (),
        }
    }
}

/// The account that a deed gives credit in for a target, and how much at this price; None exactly where the
/// deed is no credit, the target asks for none, or the price is no amount.
fn credited(target: &[u8], price: u64, deed: RecordDeed) -> Option<(Name, Amount)>
    ensures { option_map (λ x. movement x.0 x.1) result
        ≡ credit_within (credit_by (deed_of deed) target.now price) }
{
    errands_are_texts();
    let RecordDeed::Credit { .. } = deed else {
        return None;
    };
    let Some(Errand::Credit { account }) = read_errand(target) else {
        return None;
    };
    let account = Name::new(account).unwrap();
    let amount = match Amount::new(price) {
        Some(amount) => amount,
        None => return None,
    };
    Some((account, amount))
}

/// Lets a coin go that is in no account. It was worth what an entry says, and more is not counted here.
fn leave(coin: Coin) {
    let mut left = Total::zero();
    left.put(coin);
}
