ghost use Rattle.std.specs.Prelude.{◌≡◌, ◌⊎◌, ◌+◌, ◌==◌, ℕ, List, Some, None, true, codes};
ghost use Rattle.scrip_form.specs.Scrip.{Scrip};
ghost use Rattle.ledger_model.specs.Pieces.{piece_of};
ghost use Rattle.millicent_http.specs.Received.{Received};
ghost use Rattle.wallet_model.specs.Requests.{Pending};
ghost use Rattle.wallet_model.specs.Settling.{check_of, price_of};
ghost use Rattle.mc_outside.specs.Bytes.{BeginsWith};
ghost use Rattle.ledger_model.specs.Histories.{History};
ghost use Rattle.scrip_journal.specs.Layout.{header, Encodes};
ghost use Rattle.scrip_journal.specs.Causes.{Only, SpoilsAt, UnchainsAt, IsUnlawfulAt, IsOfOther};
ghost use Rattle.wallet_model.specs.Follows.{WalletFollows, IsWalletBook};

/// What encodes the lawful history of a wallet is none of what a wallet's command does not open by its bytes: it
/// begins with the header, none of its bytes can't stand, its chains are those computed, no entry breaks the laws of
/// wallets, and its kind is that of a wallet. So each command opens it, unless the disk fails or memory is refused.
pub fn lawful_wallets_are_opened()
    ensures header { (h : History) (bytes : List ℕ) → Encodes h bytes → BeginsWith header bytes }
    ensures whole { (h : History) (bytes : List ℕ) (place : ℕ) → Encodes h bytes
        → SpoilsAt WalletFollows (Only 2) bytes place → ⊥ }
    ensures chained { (h : History) (bytes : List ℕ) (place : ℕ) (stood computed : List ℕ)
        → Encodes h bytes → UnchainsAt WalletFollows (Only 2) bytes place stood computed → ⊥ }
    ensures lawful { (h : History) (bytes : List ℕ) (place : ℕ) → Encodes h bytes → IsWalletBook h
        → IsUnlawfulAt WalletFollows (Only 2) bytes place → ⊥ }
    ensures kind { (h : History) (bytes : List ℕ) → Encodes h bytes → IsWalletBook h
        → IsOfOther (Only 2) bytes → ⊥ }
{}

/// Where a reply that is a 200 settles a request that pays with a piece, the piece's value is the price and the change of the
/// reply: the price is all of it and there is no change, or the change is a piece of what is left.
pub fn a_piece_is_its_price_and_its_change()
    ensures { (p : Pending) (r : Received) (text : List ℕ) (q : Scrip) → p.scrip ≡ Some text → piece_of text ≡ Some q
        → check_of p r ≡ None → (r.status == 200) ≡ true
        → (price : ℕ) × (price_of r ≡ Some price)
        × (((price ≡ q.value) × (r.change ≡ codes "-")) ⊎ ((c : Scrip) × (piece_of r.change ≡ Some c) × (c.value + price ≡ q.value))) }
{}
