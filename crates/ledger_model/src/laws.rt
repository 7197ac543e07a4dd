//! Laws over the definitions, each on a function that does nothing.

ghost use Rattle.std.specs.Prelude.{◌≡◌, ◌↔◌, ◌+◌, ◌<◌, ◌≤◌, ◌^◌, ℕ, [], ◌∷◌, ◌++◌, length, not, List, Some, true, option_map, slice_get};
ghost use Rattle.mc_requests.specs.declared.limits.Limits.{Limits as Bounds};
ghost use Rattle.mc_requests.specs.declared.limits.TheConstants.Limits.{MOST_JOURNAL};
ghost use Rattle.mc_requests.specs.declared.refusal.Refusal.{Refusal};
ghost use Rattle.mc_requests.specs.Refusals.{number_of};
ghost use Rattle.mc_requests.specs.Requests.{Asked};
ghost use Rattle.mc_records.specs.Entry.{Entry};
ghost use Rattle.mc_records.specs.Sizes.{size};
ghost use Rattle.ledger_model.specs.Histories.{History, time};
ghost use Rattle.ledger_model.specs.Houses.{keeping, is_vendor, is_broker, issuer_in, epoch_in, version};
ghost use Rattle.scrip_form.specs.Issuing.{Issuing, epoch};
ghost use Rattle.ledger_model.specs.Stock.{upgrade_terms};
ghost use Rattle.ledger_model.specs.Pieces.{accepted, own_out, minted};
ghost use Rattle.ledger_model.specs.Sums.{takings, values, all_drawn};
ghost use Rattle.ledger_model.specs.Stages.{is_repeat};
ghost use Rattle.ledger_model.specs.Answer.{answer, answer_within, draw_in, as_counted, Take, Again};
ghost use Rattle.ledger_model.specs.Lawful.{IsLawful, IsFirstUnlawful, MayFollow, AllFollow};
ghost use Rattle.ledger_model.specs.Replies.{reply_after, reply_of, refusal_of, head_refusal};
ghost use Rattle.ledger_model.specs.Laws.{AreDistinct, ArePaid, HaveNoGap, with_id};

/// A lawful history is that of a vendor or of a broker, and of one of the two.
#[tactic(auto, using(crate::proofs::KindLaws::one_house))]
pub fn lawful_histories_are_of_houses()
    ensures { (limits : Bounds) (h : History) → IsLawful limits h → is_broker h ≡ not (is_vendor h) }
{}

/// In a lawful history no identity is accepted twice.
#[tactic(auto, using(crate::proofs::AcceptLaws::accepted_once))]
pub fn accepted_once()
    ensures { (limits : Bounds) (h : History) → IsLawful limits h
        → AreDistinct (accepted h) }
{}

/// A prefix of a lawful history, from its first entry on, is lawful.
#[tactic(auto, using(crate::proofs::FollowLaws::prefix_lawful))]
pub fn prefixes_are_lawful()
    ensures { (limits : Bounds) (e : Entry) (xs ys : History)
        → IsLawful limits ((e ∷ xs) ++ ys) → IsLawful limits (e ∷ xs) }
{}

/// A history with a first unlawful entry is not lawful, and there is one number of that entry.
pub fn first_unlawful_is_one()
    ensures unlawful { (limits : Bounds) (h : History) (n : ℕ) → IsFirstUnlawful limits h n
        → IsLawful limits h → ⊥ }
    ensures one { (limits : Bounds) (h : History) (n m : ℕ) → IsFirstUnlawful limits h n
        → IsFirstUnlawful limits h m → n ≡ m }
{}

/// After an entry was taken for a request, the same request is answered with that entry's number
/// while the house time is below the entry's moment plus the keeping time, whatever follows the entry.
/// And an answer with a number is that of an entry of the same request, within the keeping time; a
/// scrip text beside a draw does not count.
pub fn taken_requests_repeat()
    ensures again { (h more : History) (t later : ℕ) (limits others : Bounds) (q : Asked) (e : Entry)
        → answer h t limits q ≡ Take e → t ≤ later → later < t + keeping h
        → answer (h ++ e ∷ more) later others q ≡ Again (length h) }
    ensures same { (h : History) (t : ℕ) (limits : Bounds) (q : Asked) (n : ℕ)
        → answer h t limits q ≡ Again n
        → option_map (is_repeat (keeping h) t (as_counted (draw_in h q.target) q)) (slice_get h n)
        ≡ Some true }
{}

/// What an answer takes does not depend on how long replies come again: a request that comes again brings a piece that is
/// spent, or an order that is stale. So whoever only asks which entries may follow needs no replies.
pub fn taking_needs_no_replies()
    ensures { (bounds : Bounds) (seconds : ℕ) (h : History) (t : ℕ) (limits : Bounds) (q : Asked)
        (e : Entry) → IsLawful bounds h
        → (answer_within seconds h t limits q ≡ Take e) ↔ (answer h t limits q ≡ Take e) }
{}

/// The first reply of an entry does not depend on later entries: it is the reply after the entries
/// before it.
pub fn first_replies_stay()
    ensures own { (h more : History) (e : Entry)
        → reply_of (h ++ e ∷ more) (length h) ≡ reply_after h e }
    ensures stays { (h more : History) (n : ℕ) → n < length h
        → reply_of (h ++ more) n ≡ reply_of h n }
{}

/// In a lawful history the value that an entry accepts is its price and the value of its change.
#[tactic(auto, using(crate::proofs::AcceptLaws::values_are_paid))]
pub fn values_are_paid()
    ensures { (limits : Bounds) (h : History) → IsLawful limits h
        → ArePaid [] h }
{}

/// In a lawful history the values of the accepted pieces and of the draws are the takings and the values of
/// the pieces that the house handed out in its own series. A vendor has no draws.
#[tactic(auto, using(crate::proofs::AcceptLaws::values_are_kept))]
pub fn values_are_kept()
    ensures { (limits : Bounds) (h : History) → IsLawful limits h
        → values (accepted h) + all_drawn h ≡ takings h + values (own_out h) }
{}

/// The pieces that a lawful history hands out and mints in a series of the house's own have the serials
/// 0, 1, 2 and so on without a gap, and so no identity stands twice among them.
pub fn serials_have_no_gap()
    ensures serials { (limits : Bounds) (h : History) → limits.series ≤ 2 ^ 32
        → IsLawful limits h → HaveNoGap (own_out h ++ minted h) }
    ensures once { (limits : Bounds) (h : History) (id : ℕ) → limits.series ≤ 2 ^ 32
        → IsLawful limits h → with_id (own_out h ++ minted h) id ≤ 1 }
{}

/// The entry that an answer takes may follow the history, and so makes a longer lawful history; it
/// stays within the journal's limit.
pub fn taken_entries_follow()
    ensures follows { (h : History) (t : ℕ) (limits : Bounds) (q : Asked) (e : Entry)
        → time h ≤ t → limits.journal ≤ MOST_JOURNAL → answer h t limits q ≡ Take e
        → MayFollow limits h e }
    ensures lawful { (h : History) (t : ℕ) (limits : Bounds) (q : Asked) (e : Entry)
        → IsLawful limits h → time h ≤ t → limits.journal ≤ MOST_JOURNAL → answer h t limits q ≡ Take e
        → IsLawful limits (h ++ e ∷ []) }
    ensures fits { (h : History) (t : ℕ) (limits : Bounds) (q : Asked) (e : Entry)
        → answer h t limits q ≡ Take e → size (h ++ e ∷ []) ≤ limits.journal }
{}

/// A head that is refused gets the one reply of its refusal, whatever the history and the request.
#[tactic(auto, using(crate::proofs::ReplyLaws::head_reply))]
pub fn refused_heads_have_one_reply()
    ensures { (h : History) (t : ℕ) (q : Asked) (f : Refusal) → number_of f ≤ 16
        → refusal_of h t q f ≡ head_refusal t f }
{}

/// The version of a series whose epoch has come, by the terms under which a house may move its issuer, stays as it is,
/// whatever entries may follow. So scrip that was made of it is of its version for ever.
#[tactic(auto, using(crate::proofs::UpgradeLaws::version_stays))]
pub fn versions_stay()
    ensures { (limits : Bounds) (h more : History) (vendor : List ℕ) (series : ℕ) (terms : Issuing)
        → AllFollow limits h more → upgrade_terms h vendor (issuer_in series) ≡ Some terms
        → 0 < terms.period → epoch_in series ≤ epoch terms (time h)
        → version (h ++ more) vendor series ≡ version h vendor series }
{}
