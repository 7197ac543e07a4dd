ghost use Rattle.std.specs.Prelude.{◌≡◌, ◌==◌, ◌<◌, ◌∷◌, [], IfErr, IfOk, IfSome, IsTrue};
ghost use Rattle.std.specs.List.{list_any};
ghost use Rattle.mc_records.specs.Entry.{Account, Deposit, Withdraw, Fits};
ghost use Rattle.mc_requests.specs.Refusals.{number_of};
ghost use Rattle.mc_records.specs.Views.{entry};
ghost use Rattle.ledger_model.specs.Histories.{History};
ghost use Rattle.broker_ledger.specs.Ledger.{Represents, AccountsAllow};
ghost use Rattle.broker_ledger.specs.Tasks as model;
ghost use Rattle.broker_ledger.specs.Tasks.{task_of, account_task, deposit_task, withdraw_task};

use crate::broker_ledger::AccountLedger;
use crate::payment::Payment;
use mc_base::{Amount, Moment};
use mc_records::{MOST_IN_ACCOUNT, Record};
use mc_requests::Refusal;
use scrip_form::Name;

/// What there is to do by a call of the operator: `Ok` is the entry to add, which may come next, or None
/// where the same stands already.
impl AccountLedger {
    /// To open an account under a name, with a key. None where it stands with this key; `Err` is 60
    /// AccountTaken, where it stands with another.
    pub fn account_task<'a>(
        &self,
        moment: Moment,
        name: &'a Name,
        key: [u8; 16],
    ) -> Result<Option<Record<'a>>, Refusal>
        ensures exact { (h : History) → Represents self.now h
            → task_of result ≡ account_task h moment name.now key }
        ensures allowed { (h : History) → Represents self.now h
            → IfOk result (λ r. IfSome r (λ r. AccountsAllow h (entry r))) }
        ensures fits { IfOk result (λ r. IfSome r (λ r. Fits (entry r))) }
        ensures entry { IfOk result (λ r. IfSome r (λ r. entry r ≡ Account moment name.now key)) }
        ensures refusals { IfErr result (λ f. IsTrue (list_any (λ n. n == number_of f) (60 ∷ []))) }
    {
        let _moment = moment.seconds();
        if let Some(standing) = self.standing(name) {
            return if standing.key == key {
                Ok(None)
            } else {
                Err(Refusal::AccountTaken)
            };
        }
        Ok(Some(Record::Account {
            moment,
            name: name.bytes(),
            key,
        }))
    }

    /// To put an amount, of 1 unit at least, into an account under a reference. None where the reference
    /// stands with this very deposit; `Err` is 56 RefUsed, where it stands with anything else, then 40
    /// NoAccount, where there is no such account, then 45 AccountFull and the balance, where that would pass
    /// 2^60.
    pub fn deposit_task<'a>(
        &self,
        moment: Moment,
        name: &'a Name,
        amount: Amount,
        reference: &'a Name,
    ) -> Result<Option<Record<'a>>, Refusal>
        requires { 0 < amount }
        ensures exact { (h : History) → Represents self.now h
            → task_of result ≡ deposit_task h moment name.now amount reference.now }
        ensures allowed { (h : History) → Represents self.now h
            → IfOk result (λ r. IfSome r (λ r. AccountsAllow h (entry r))) }
        ensures fits { IfOk result (λ r. IfSome r (λ r. Fits (entry r))) }
        ensures entry { IfOk result (λ r. IfSome r (λ r. entry r ≡ Deposit moment name.now amount reference.now)) }
        ensures refusals { IfErr result (λ f. IsTrue (list_any (λ n. n == number_of f) (40 ∷ 45 ∷ 56 ∷ []))) }
    {
        let _moment = moment.seconds();
        if let Some(payment) = self.payment(reference.bytes()) {
            return if is_deposit(payment, name, amount) {
                Ok(None)
            } else {
                Err(Refusal::RefUsed(*reference))
            };
        }
        let balance = match self.standing(name) {
            Some(standing) => standing.balance,
            None => return Err(Refusal::NoAccount),
        };
        if MOST_IN_ACCOUNT - balance < amount.get() {
            return Err(Refusal::AccountFull(balance));
        }
        Ok(Some(Record::Deposit {
            moment,
            name: name.bytes(),
            amount: amount.get(),
            reference: reference.bytes(),
        }))
    }

    /// To pay an amount, of 1 unit at least, out of an account under a reference. None where the reference
    /// stands with this very withdrawal; `Err` is 56 RefUsed, where it stands with anything else, then 40
    /// NoAccount, where there is no such account, then 42 PoorAccount and the balance, where that is below
    /// the amount.
    pub fn withdraw_task<'a>(
        &self,
        moment: Moment,
        name: &'a Name,
        amount: Amount,
        reference: &'a Name,
    ) -> Result<Option<Record<'a>>, Refusal>
        requires { 0 < amount }
        ensures exact { (h : History) → Represents self.now h
            → task_of result ≡ withdraw_task h moment name.now amount reference.now }
        ensures allowed { (h : History) → Represents self.now h
            → IfOk result (λ r. IfSome r (λ r. AccountsAllow h (entry r))) }
        ensures fits { IfOk result (λ r. IfSome r (λ r. Fits (entry r))) }
        ensures entry { IfOk result (λ r. IfSome r (λ r. entry r ≡ Withdraw moment name.now amount reference.now)) }
        ensures refusals { IfErr result (λ f. IsTrue (list_any (λ n. n == number_of f) (40 ∷ 42 ∷ 56 ∷ []))) }
    {
        let _moment = moment.seconds();
        if let Some(payment) = self.payment(reference.bytes()) {
            return if is_withdrawal(payment, name, amount) {
                Ok(None)
            } else {
                Err(Refusal::RefUsed(*reference))
            };
        }
        let balance = match self.standing(name) {
            Some(standing) => standing.balance,
            None => return Err(Refusal::NoAccount),
        };
        if balance < amount.get() {
            return Err(Refusal::PoorAccount(balance));
        }
        Ok(Some(Record::Withdraw {
            moment,
            name: name.bytes(),
            amount: amount.get(),
            reference: reference.bytes(),
        }))
    }
}

/// Whether a payment is the deposit of this amount in the account of this name.
fn is_deposit(payment: Payment, name: &Name, amount: Amount) -> bool
    ensures { result ≡ model.is_deposit name.now amount payment }
{
    match payment {
        Payment::Deposit {
            account,
            amount: units,
        } => account.bytes() == name.bytes() && units.get() == amount.get(),
        Payment::Withdrawal { .. } => false,
    }
}

/// Whether a payment is the withdrawal of this amount from the account of this name.
fn is_withdrawal(payment: Payment, name: &Name, amount: Amount) -> bool
    ensures { result ≡ model.is_withdrawal name.now amount payment }
{
    match payment {
        Payment::Withdrawal {
            account,
            amount: units,
        } => account.bytes() == name.bytes() && units.get() == amount.get(),
        Payment::Deposit { .. } => false,
    }
}
