ghost use Rattle.std.specs.Prelude.{IsTrue};
ghost use Rattle.mc_requests.specs.declared.limits.Limits.{Limits};
ghost use Rattle.mc_records.specs.Entry.{Entry};
ghost use Rattle.ledger_model.specs.Histories.{History};
ghost use Rattle.ledger_model.specs.Houses.{is_broker};
ghost use Rattle.ledger_model.specs.Lawful.{MayFollow};
ghost use Rattle.broker_ledger.specs.Ledger.{AccountsAllow, AccountsAnswer};

/// An entry that may follow at a broker is one that the accounts allow, and of a credit and a draw holds what
/// the accounts answered.
pub fn accounts_follow()
    ensures allowed { (limits : Limits) (h : History) (e : Entry) → IsTrue (is_broker h)
        → MayFollow limits h e → AccountsAllow h e }
    ensures answered { (limits : Limits) (h : History) (e : Entry) → MayFollow limits h e
        → AccountsAnswer h e }
{}
