//! Laws over the steps of a proxy, each on a function that does nothing.

ghost use Rattle.std.specs.Prelude.{◌≡◌, ◌⊎◌, ◌≤◌, ◌+◌, ◌∷◌, ◌++◌, ℕ, Bool, List, [], Some, true, length, Result};
ghost use Rattle.mc_outside.specs.LinkView.{LinkView};
ghost use Rattle.mc_records.specs.Entry.{Entry};
ghost use Rattle.mc_requests.specs.declared.refusal.Refusal.{Refusal};
ghost use Rattle.mc_requests.specs.Requests.{Asked};
ghost use Rattle.millicent_http.specs.Items.{Item, request};
ghost use Rattle.millicent_http.specs.Steps.{Did, Run, state_after};
ghost use Rattle.wallet_model.specs.Requests.{Pending, kept_get};
ghost use Rattle.wallet_model.specs.Follows.{IsWalletBook};
ghost use Rattle.wallet_proxy.specs.Told.{Told, refusal, contents};
ghost use Rattle.wallet_proxy.specs.Proxy.{ProxyState, Bounds, Payment, raised, Tells, ProxyStep, DoubtsBy, payment_for};
ghost use Rattle.wallet_proxy.specs.Laws.{is_request, AsksOnlyFor, IsBroughtFor, IsOneGet, price_told, IsSound, AsksNoMore, stopped_at, Grows, IsPaidFor, MovesUp, PaysAsBooked, StaysKept, IsKept, SettlesAtMost, Keeps};

/// Whatever is told to an item: the wallet's book goes on by at most one request and one settlement. What is told as paid
/// for is what a rightly signed reply brought, and its Done entry is the last one. What is paid rises by what the Done
/// entries say, and stays within the budget. To the vendor goes at most the request of one Pend entry that stands.
pub fn an_item_pays_once()
    ensures grows { (b : Bounds) (s : ProxyState) (item : Item) (told : Told) (t : ProxyState)
        → Tells b s item told t → Grows s t }
    ensures paid { (b : Bounds) (s : ProxyState) (item : Item) (price : ℕ) (bytes : List ℕ) (t : ProxyState)
        → Tells b s item (contents price bytes) t → IsPaidFor price bytes t }
    ensures costs { (b : Bounds) (s : ProxyState) (item : Item) (told : Told) (t : ProxyState)
        → Tells b s item told t → PaysAsBooked s t }
    ensures within { (b : Bounds) (s : ProxyState) (item : Item) (told : Told) (t : ProxyState)
        → IsWalletBook s.history → Tells b s item told t → s.paid ≤ b.budget → t.paid ≤ b.budget }
    ensures asks { (b : Bounds) (s : ProxyState) (item : Item) (told : Told) (t : ProxyState)
        → Tells b s item told t → MovesUp s t }
{}

/// A request that brought nothing that settles it, since no link came, no reply, none that is right, or a call of the
/// links failed, is kept, and nothing is paid for it. While one is kept, an item for its target tries it again, or does
/// nothing: the book goes on by its settlement at most. So an item for a target, and the next one for it, pay once: the
/// book goes on by one request and one settlement at most.
pub fn what_is_kept_is_paid_once()
    ensures stays { (b : Bounds) (s : ProxyState) (q : Asked) (closes : Bool) (f : Refusal) (t : ProxyState)
        → IsWalletBook s.history → StaysKept f → Tells b s (request q closes) (refusal f) t
        → IsKept b q.target s t }
    ensures again { (b : Bounds) (s : ProxyState) (q : Asked) (closes : Bool) (x : ℕ × Pending) (told : Told)
        (t : ProxyState) → kept_get s.history b.vendor q.target ≡ Some x
        → Tells b s (request q closes) told t → SettlesAtMost x.0 x.1 s t }
    ensures once { (b : Bounds) (s t u : ProxyState) (q r : Asked) (closes last : Bool) (f : Refusal) (told : Told)
        (reading : ℕ) → IsWalletBook s.history → StaysKept f → r.target ≡ q.target
        → Tells b s (request q closes) (refusal f) t → Tells b (raised t reading) (request r last) told u
        → Grows s u }
{}

/// After the items of a run the book has at most as many requests and settlements more as there were items, and nothing
/// else; and as much more was paid as the Done entries that came say.
pub fn a_run_pays_as_booked()
    ensures keeps { (b : Bounds) (s : ProxyState) (items : List Item) (readings : List ℕ)
        (steps : List (Did ProxyState)) → Run (ProxyStep b) s items readings steps
        → Keeps (length items) s (state_after s steps) }
    ensures costs { (b : Bounds) (s : ProxyState) (items : List Item) (readings : List ℕ)
        (steps : List (Did ProxyState)) → Run (ProxyStep b) s items readings steps
        → PaysAsBooked s (state_after s steps) }
{}

/// Where the disk fails while an entry of an item is written: if it is its request, none was added before it, and nothing was
/// done to the links to the vendor, so that no byte of it was sent. The item has one request and one settlement at most, the one
/// in doubt among them; and what was paid stays within the budget with the price in doubt. The book is lawful with the entry in
/// doubt, and to the vendor went at most the request of one entry before it.
pub fn what_is_in_doubt()
    ensures unsent { (b : Bounds) (s : ProxyState) (target : List ℕ) (x : Result Payment Refusal) (added : List Entry) (e : Entry) (up : LinkView)
        → DoubtsBy b s target x added e up → is_request e ≡ true → (added ≡ []) × (up ≡ s.up) }
    ensures one { (b : Bounds) (s : ProxyState) (target : List ℕ) (x : Result Payment Refusal) (added : List Entry) (e : Entry) (up : LinkView)
        → DoubtsBy b s target x added e up → IsOneGet (added ++ e ∷ []) }
    ensures within { (b : Bounds) (s : ProxyState) (q : Asked) (added : List Entry) (e : Entry) (up : LinkView)
        → IsWalletBook s.history → DoubtsBy b s q.target (payment_for b s q) added e up → s.paid ≤ b.budget
        → s.paid + price_told e ≤ b.budget }
    ensures lawful { (b : Bounds) (s : ProxyState) (q : Asked) (added : List Entry) (e : Entry) (up : LinkView)
        → IsSound b s → DoubtsBy b s q.target (payment_for b s q) added e up
        → IsWalletBook (s.history ++ (added ++ e ∷ [])) }
    ensures asks { (b : Bounds) (s : ProxyState) (q : Asked) (added : List Entry) (e : Entry) (up : LinkView)
        → IsSound b s → DoubtsBy b s q.target (payment_for b s q) added e up
        → AsksNoMore b 1 s (stopped_at s added up) }
{}

/// What is done to the vendor's links for a request is asked for by it: at most the get of its own target at the vendor is sent,
/// and what is told as paid for is what came for that get.
pub fn what_is_asked_is_sent_and_told()
    ensures sent { (b : Bounds) (s : ProxyState) (q : Asked) (closes : Bool) (told : Told) (t : ProxyState)
        → Tells b s (request q closes) told t → (t.up ≡ s.up) ⊎ AsksOnlyFor b q.target s t }
    ensures told { (b : Bounds) (s : ProxyState) (q : Asked) (closes : Bool) (price : ℕ) (bytes : List ℕ) (t : ProxyState)
        → Tells b s (request q closes) (contents price bytes) t → IsBroughtFor b q.target price bytes s t }
{}

/// A run is sound from a sound state on: the book stays lawful, and what was paid stays within the budget. In it nothing else is
/// sent to the vendor than gets whose Pend entries stand in the book, made or found there and not settled by then: at most one for
/// each step, each on a link of its own.
pub fn a_run_asks_no_more()
    ensures sound { (b : Bounds) (s : ProxyState) (items : List Item) (readings : List ℕ)
        (steps : List (Did ProxyState)) → IsSound b s → Run (ProxyStep b) s items readings steps
        → IsSound b (state_after s steps) }
    ensures asks { (b : Bounds) (s : ProxyState) (items : List Item) (readings : List ℕ)
        (steps : List (Did ProxyState)) → IsSound b s → Run (ProxyStep b) s items readings steps
        → AsksNoMore b (length steps) s (state_after s steps) }
{}
