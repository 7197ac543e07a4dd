//! Laws over the definitions, each on a function that does nothing.

ghost use Rattle.std.specs.Prelude.{◌≡◌, ◌≤◌, ◌↔◌, ℕ, ◌∷◌, ◌++◌, length, Some};
ghost use Rattle.kept_replies.specs.declared.deed.Deed.{Deed};
ghost use Rattle.mc_requests.specs.declared.limits.Limits.{Limits as Bounds};
ghost use Rattle.mc_records.specs.Entry.{Entry};
ghost use Rattle.ledger_model.specs.Histories.{History};
ghost use Rattle.ledger_model.specs.Houses.{IsHouseKind};
ghost use Rattle.ledger_model.specs.Replies.{Contents};
ghost use Rattle.house_state.specs.Trade.{brought_by, IsInForce, IsKeptFrom};
ghost use Rattle.house_state.specs.Learning.{IsGoods, IsOfKind, InParts, MayEnter};

use crate::trade::Trade;

/// In a history of a kind of house an entry may follow, and passes the trade's own test, exactly where the house's half
/// and the trade's half of what makes it lawful hold.
pub fn entries_follow_in_parts<T: Trade>()
    ensures { (limits : Bounds) (kind : ℕ) (h : History) (e : Entry) → IsHouseKind kind
        → IsOfKind kind h e → MayEnter T.passes limits h e ↔ InParts T.passes limits kind h e }
{}

/// What a kept deed brings stays, whatever entries follow.
pub fn contents_stay()
    ensures { (h more : History) (deed : Deed) (contents : Contents)
        → brought_by h deed ≡ Some contents → brought_by (h ++ more) deed ≡ Some contents }
{}

/// Goods that were in force before an entry other than a Goods entry are kept while its reply is: they
/// are among those that `forget` leaves from its number on, or from a lower one.
pub fn goods_in_force_are_kept()
    ensures { (h more : History) (e : Entry) (from n : ℕ) → IsInForce h n → (IsGoods e → ⊥)
        → from ≤ length h → IsKeptFrom (h ++ e ∷ more) (Some from) n }
{}
