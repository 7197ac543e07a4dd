ghost use Rattle.std.specs.Prelude.{◌≡◌, ◌<◌, ◌++◌, ◌∷◌, [], ℕ, List, Some, length, take, true};
ghost use Rattle.std.specs.List.{AllByRecursion};
ghost use Rattle.mc_records.specs.Entry.{Fits};
ghost use Rattle.millicent_http.specs.Items.{request, IsWhole, EndsNoItem, Heads};
ghost use Rattle.ledger_model.specs.Histories.{History};
ghost use Rattle.wallet_model.specs.Requests.{Pending, pending_in};
ghost use Rattle.wallet_model.specs.Asks.{asked_by, request_bytes};
ghost use Rattle.wallet_requests.specs.Sent.{CanBeSent};

/// The bytes of a wallet's request are one item, whole, whatever follows: a request for its target, with
/// its scrip text and its signature, after which the link ends. A part of them is no item. What is said
/// of a request's parts holds of each request of a history whose entries are in their ranges, as those
/// of every book are.
pub fn a_wallet_request_is_one_item()
    ensures whole { (p : Pending) (more : List ℕ) → CanBeSent p
        → IsWhole (request_bytes p ++ more) (length (request_bytes p)) (request (asked_by p) true) more }
    ensures heads { (p : Pending) (more : List ℕ) → CanBeSent p
        → Heads (request_bytes p ++ more) (request (asked_by p) true ∷ []) }
    ensures part { (p : Pending) (n : ℕ) → CanBeSent p → n < length (request_bytes p)
        → EndsNoItem (take n (request_bytes p)) }
    ensures asked { (h : History) (n : ℕ) (p : Pending) → AllByRecursion Fits h
        → pending_in h n ≡ Some p → CanBeSent p }
{}
