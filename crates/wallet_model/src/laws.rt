//! Laws over the definitions, each on a function that does nothing.

ghost use Rattle.std.specs.Prelude.{◌≡◌, ◌==◌, ◌<◌, ◌≤◌, ◌∷◌, ◌++◌, [], ℕ, List, Option, Some, None, Ok, not, true, false, if◌then◌else◌, filter, map, count_by, length, bytes_eq, unwrap_or};
ghost use Rattle.std.specs.List.{list_any};
ghost use Rattle.scrip_form.specs.Scrip.{Scrip};
ghost use Rattle.mc_records.specs.Chains.{chain, has_switch};
ghost use Rattle.mc_records.specs.Entry.{Held, Entry, Pend, Done, Refused, Switch, IsMoment, IsLong, Fits};
ghost use Rattle.ledger_model.specs.Histories.{History, time};
ghost use Rattle.ledger_model.specs.Pieces.{piece_of};
ghost use Rattle.wallet_model.specs.Requests.{Pending, pending_in, settles, is_kept, kept_requests, pays, pays_with};
ghost use Rattle.wallet_model.specs.Holdings.{brings, pieces_came, texts_came, moves, state_in, used, refused_state, holding, holdings};
ghost use Rattle.wallet_model.specs.Newness.{is_new, are_new};
ghost use Rattle.wallet_model.specs.Follows.{is_wallet, WalletFollows, IsWalletBook, IsFirstAgainst};
ghost use Rattle.wallet_model.specs.Asks.{Asking, pend_entry};
ghost use Rattle.millicent_http.specs.Received.{Received};
ghost use Rattle.wallet_model.specs.Settling.{check_of, contents_came, refusal_number, settlement};
ghost use Rattle.wallet_model.specs.Laws.{is_pending, is_last, moved, has_piece, CanAsk, HasItsPiece};

/// A lawful book is that of a wallet. It stays lawful with an entry more that may follow, and each
/// prefix of it from its first entry on is lawful.
pub fn wallet_books_grow()
    ensures wallet { (h : History) → IsWalletBook h → is_wallet h ≡ true }
    ensures grows { (h : History) (e : Entry) → IsWalletBook h → WalletFollows h e
        → IsWalletBook (h ++ e ∷ []) }
    ensures prefix { (e : Entry) (xs ys : History) → IsWalletBook ((e ∷ xs) ++ ys)
        → IsWalletBook (e ∷ xs) }
{}

/// A book with a first entry that may not follow is not lawful, and there is one number of that
/// entry.
pub fn first_against_is_one()
    ensures unlawful { (h : History) (n : ℕ) → IsFirstAgainst h n → IsWalletBook h → ⊥ }
    ensures one { (h : History) (n m : ℕ) → IsFirstAgainst h n → IsFirstAgainst h m → n ≡ m }
{}

/// What a book says with one entry more. The pieces that the entry brings stand behind the others,
/// and each holding is as the entry leaves it. A new request stands behind the kept ones, where
/// nothing has settled its number; a settlement takes its request off.
pub fn one_entry_more()
    ensures pieces { (h : History) (e : Entry)
        → pieces_came (h ++ e ∷ []) ≡ pieces_came h ++ brings h e }
    ensures state { (h : History) (e : Entry) (text : List ℕ)
        → state_in (h ++ e ∷ []) text ≡ unwrap_or (moves h text e) (state_in h text) }
    ensures holdings { (h : History) (e : Entry)
        → holdings (h ++ e ∷ [])
        ≡ map (moved h e) (holdings h) ++ map (holding (h ++ e ∷ [])) (brings h e) }
    ensures pend { (h : History) (m ask : ℕ) (peer target : List ℕ) (scrip : Option (List ℕ))
        (secret : List ℕ) → list_any (settles (length h)) h ≡ false
        → kept_requests (h ++ Pend m ask peer target scrip secret ∷ [])
        ≡ kept_requests h ++ (
          length h,
          record {
            ask = ask;
            peer = peer;
            target = target;
            scrip = scrip;
            secret = secret;
          },
        ) ∷ [] }
    ensures done { (h : History) (m n price : ℕ) (change : Option (List ℕ)) (got : Option Held)
        → kept_requests (h ++ Done m n price change got ∷ [])
        ≡ filter (λ x. not (n == x.0)) (kept_requests h) }
    ensures refused { (h : History) (m n refusal : ℕ)
        → kept_requests (h ++ Refused m n refusal ∷ [])
        ≡ filter (λ x. not (n == x.0)) (kept_requests h) }
{}

/// In a lawful book an entry settles only a request that is kept then, and so one of a lower
/// number; nothing has settled the number of the next entry; and each request is settled once at
/// most.
pub fn requests_are_settled_once()
    ensures kept { (before more : History) (e : Entry) (n : ℕ) → IsWalletBook (before ++ e ∷ more)
        → settles n e ≡ true → is_kept before n ≡ true }
    ensures below { (h : History) (n : ℕ) → is_kept h n ≡ true → n < length h }
    ensures next { (h : History) → IsWalletBook h → list_any (settles (length h)) h ≡ false }
    ensures once { (h : History) (n : ℕ) → IsWalletBook h → count_by (settles n) h ≤ 1 }
{}

/// In a lawful book a piece pays in one kept request where it is pending, and in none else. A used,
/// disputed or dead piece stays so. What a Done entry's request paid with, no later request is
/// asked with, and no later settlement is of one.
pub fn pieces_are_paid_once()
    ensures pending { (h : History) (text : List ℕ) → IsWalletBook h
        → count_by (λ x. pays text x.1) (kept_requests h)
        ≡ (if is_pending (state_in h text) then 1 else 0) }
    ensures last { (h more : History) (text : List ℕ) → IsWalletBook (h ++ more)
        → is_last (state_in h text) ≡ true → state_in (h ++ more) text ≡ state_in h text }
    ensures asked { (before between after : History) (m n price : ℕ) (change : Option (List ℕ))
        (got : Option Held) (k ask : ℕ) (peer target text secret : List ℕ)
        → IsWalletBook (before ++ Done m n price change got
        ∷ (between ++ Pend k ask peer target (Some text) secret ∷ after))
        → pays_with before n text ≡ true → ⊥ }
    ensures settled { (before between after : History) (m n price : ℕ) (change : Option (List ℕ))
        (got : Option Held) (later : Entry) (k : ℕ) (text : List ℕ)
        → IsWalletBook (before ++ Done m n price change got ∷ (between ++ later ∷ after))
        → pays_with before n text ≡ true → settles k later ≡ true
        → pays_with (before ++ Done m n price change got ∷ between) k text ≡ false }
{}

/// What an entry brings stands in the holdings from then on, the change of a Done entry among it;
/// and in a lawful book no piece comes twice.
pub fn pieces_stay()
    ensures stays { (h more : History) (text : List ℕ) → has_piece h text ≡ true
        → has_piece (h ++ more) text ≡ true }
    ensures brought { (before more : History) (e : Entry) (text : List ℕ)
        → list_any (λ p. bytes_eq p.text text) (brings before e) ≡ true
        → has_piece (before ++ e ∷ more) text ≡ true }
    ensures change { (before more : History) (m n price : ℕ) (change : List ℕ) (got : Option Held)
        → has_piece (before ++ Done m n price (Some change) got ∷ more) change ≡ true }
    ensures once { (h : History) → IsWalletBook h → are_new [] (texts_came h) ≡ true }
{}

/// The Pend entry of what is asked, the settlement of a kept request, and, where none stands, the Switch that
/// tells the chain of the entries, may follow a lawful book at each time from its own on.
pub fn written_entries_follow()
    ensures pend { (h : History) (t : ℕ) (asking : Asking) (e : Entry) → IsWalletBook h → time h ≤ t
        → CanAsk asking → pend_entry h t asking ≡ Ok e → WalletFollows h e }
    ensures settlement { (h : History) (t n : ℕ) (p : Pending) (r : Received) → IsWalletBook h
        → time h ≤ t → is_kept h n ≡ true → WalletFollows h (settlement h t n p r) }
    ensures switch { (h : History) (t : ℕ) → IsWalletBook h → time h ≤ t → has_switch h ≡ false
        → WalletFollows h (Switch t (chain h)) }
{}

/// After the settlement of a request its piece is used where the reply was a 200, and else as the
/// refusal leaves it, and all other pieces are as they were. The change of a 200, and the piece in
/// the contents of a buy or a draw, stand in the holdings, by vendor and identity: they came then,
/// or before.
pub fn settlements_keep_pieces()
    ensures paid { (h : History) (t n : ℕ) (p : Pending) (r : Received) (text : List ℕ)
        → pays_with h n text ≡ true
        → state_in (h ++ settlement h t n p r ∷ []) text
        ≡ (if r.status == 200 then used else refused_state (refusal_number r.refusal)) }
    ensures others { (h : History) (t n : ℕ) (p : Pending) (r : Received) (text : List ℕ)
        → pays_with h n text ≡ false
        → state_in (h ++ settlement h t n p r ∷ []) text ≡ state_in h text }
    ensures change { (h : History) (t n : ℕ) (p : Pending) (r : Received) (q : Scrip)
        → r.status ≡ 200 → piece_of r.change ≡ Some q
        → is_new (texts_came (h ++ settlement h t n p r ∷ [])) r.change ≡ false }
    ensures got { (h : History) (t n : ℕ) (p : Pending) (r : Received) (x : Held) (q : Scrip)
        → r.status ≡ 200 → contents_came p.ask r.contents ≡ Some x → piece_of x.text ≡ Some q
        → is_new (texts_came (h ++ settlement h t n p r ∷ [])) x.text ≡ false }
{}

/// In a lawful book a request that is no draw pays with a piece. The settlement of a request by a reply that
/// passes the check is in the ranges of its entry, so that it has a payload.
pub fn settlements_fit()
    ensures pieces { (h : History) (n : ℕ) (p : Pending) → IsWalletBook h → pending_in h n ≡ Some p
        → HasItsPiece p.ask p.scrip }
    ensures fits { (h : History) (t n : ℕ) (p : Pending) (r : Received) → IsMoment t → IsLong n
        → HasItsPiece p.ask p.scrip → check_of p r ≡ None → Fits (settlement h t n p r) }
{}
