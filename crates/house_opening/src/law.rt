//! Laws over the definitions, each on a function that does nothing.

ghost use Rattle.std.specs.Prelude.{ℕ, List};
ghost use Rattle.mc_outside.specs.Bytes.{BeginsWith};
ghost use Rattle.mc_requests.specs.declared.limits.Limits.{Limits as Bounds};
ghost use Rattle.scrip_journal.specs.Layout.{header};
ghost use Rattle.house_opening.specs.Opening.{SpoilsAt, UnchainsAt, IsUnlawfulAt, IsOfOther};

use house_state::Trade;

/// A book of a site of another kind gives no other cause to refuse it: it begins with the header, nothing in
/// it can't stand, and it is told of no unlawful entry.
pub fn books_of_another_kind_have_one_fault<T: Trade>()
    ensures header { (kind : ℕ) (bytes : List ℕ) → IsOfOther kind bytes → BeginsWith header bytes }
    ensures whole { (limits : Bounds) (kind : ℕ) (bytes : List ℕ) (place : ℕ) → IsOfOther kind bytes
        → SpoilsAt T.passes limits kind bytes place → ⊥ }
    ensures chained { (limits : Bounds) (kind : ℕ) (bytes : List ℕ) (place : ℕ) (stood computed : List ℕ)
        → IsOfOther kind bytes → UnchainsAt T.passes limits kind bytes place stood computed → ⊥ }
    ensures lawful { (limits : Bounds) (kind : ℕ) (bytes : List ℕ) (place : ℕ)
        → IsOfOther kind bytes → IsUnlawfulAt T.passes limits kind bytes place → ⊥ }
{}
