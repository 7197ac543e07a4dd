ghost use Rattle.std.specs.Prelude.{◌≡◌, ℕ, List};
ghost use Rattle.mc_records.specs.Entry.{Entry};
ghost use Rattle.scrip_journal.specs.Layout.{Encodes, IsSpoiled, IsUnchained};

/// The bytes of a disk encode one list of entries at most.
pub fn a_disk_stands_for_one_history()
    ensures { (h g : List Entry) (bytes : List ℕ) → Encodes h bytes → Encodes g bytes → h ≡ g }
{}

/// Bytes that can't stand from some place on have one such place, behind one list of entries, and stand
/// for none.
pub fn a_spoiled_disk_has_one_place()
    ensures one { (h g : List Entry) (bytes : List ℕ) (p q : ℕ) → IsSpoiled h bytes p
        → IsSpoiled g bytes q → (h ≡ g) × (p ≡ q) }
    ensures none { (h g : List Entry) (bytes : List ℕ) (p : ℕ) → IsSpoiled h bytes p
        → Encodes g bytes → ⊥ }
{}

/// Bytes with an entry that has another chain than the one computed have one such place, behind one list of
/// entries, and stand for none. They can't stand from no place on.
pub fn a_broken_chain_has_one_place()
    ensures one { (h g : List Entry) (bytes : List ℕ) (p q : ℕ) (stood computed other sum : List ℕ)
        → IsUnchained h bytes p stood computed → IsUnchained g bytes q other sum
        → (h ≡ g) × (p ≡ q) × (stood ≡ other) × (computed ≡ sum) }
    ensures none { (h g : List Entry) (bytes : List ℕ) (p : ℕ) (stood computed : List ℕ)
        → IsUnchained h bytes p stood computed → Encodes g bytes → ⊥ }
    ensures whole { (h g : List Entry) (bytes : List ℕ) (p q : ℕ) (stood computed : List ℕ)
        → IsUnchained h bytes p stood computed → IsSpoiled g bytes q → ⊥ }
{}
