ghost use Rattle.std.specs.Prelude.{◌≡◌, ◌≢◌, ℕ, Bool, List, IsTrue};
ghost use Rattle.mc_requests.specs.declared.refusal.Refusal.{Refusal};
ghost use Rattle.mc_requests.specs.Refusals.{status_of};
ghost use Rattle.mc_requests.specs.Requests.{Asked};
ghost use Rattle.scrip_form.specs.Texts.{IsTarget};
ghost use Rattle.millicent_http.specs.Items.{Item, Heads, NextItem, request};
ghost use Rattle.millicent_http.specs.ReplyHeads.{is_status};

/// The status of a refusal of a site is one of the twelve, and is not 200.
pub fn a_refusal_has_a_status()
    ensures { (f : Refusal) → status_of f ≢ 0 → IsTrue (is_status (status_of f))
        × (status_of f ≢ 200) }
{}

/// The bytes of a link have one list of items.
pub fn one_reading()
    ensures { (bytes : List ℕ) (xs ys : List Item) → Heads bytes xs → Heads bytes ys → xs ≡ ys }
{}

/// A request on a link asks a target.
pub fn a_request_asks_a_target()
    ensures { (bytes rest : List ℕ) (q : Asked) (closing : Bool)
        → NextItem bytes (request q closing) rest → IsTarget q.target }
{}
