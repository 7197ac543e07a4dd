//! Laws over the books of a broker and of vendors, each on a function that does nothing.

ghost use Rattle.std.specs.Prelude.{◌≡◌, ◌+◌, ◌^◌, ◌≤◌, List, [], ◌∷◌, ◌++◌, None};
ghost use Rattle.mc_requests.specs.declared.limits.Limits.{Limits as Bounds};
ghost use Rattle.mc_records.specs.Entry.{Entry};
ghost use Rattle.scrip_form.specs.Scrip.{Scrip};
ghost use Rattle.ledger_model.specs.Histories.{History};
ghost use Rattle.ledger_model.specs.Pieces.{accepted_piece};
ghost use Rattle.ledger_model.specs.Sums.{outstanding, lapsed};
ghost use Rattle.audit_model.specs.Books.{HaveOwnNames, AreBooks, IsHandedOut, IsBalanced};
ghost use Rattle.audit_model.specs.Strangers.{AreOfMarket, first_stranger};
ghost use Rattle.audit_model.specs.Brokers.{AreBooksOf, IsHandedOutBy, AreBalanced};

/// Lawful books of one broker and vendors of which all accepted pieces were handed out, and all stock
/// that was sold was minted, are balanced: what was paid in was paid out, or stands in accounts, fees,
/// takings, or pieces that are outstanding or lapsed.
#[tactic(auto, using(crate::proofs::Balanced::balanced))]
pub fn lawful_books_balance()
    ensures { (limits : Bounds) (b : History) (vs : List History) → limits.series ≤ 2 ^ 32
        → AreBooks limits b vs → IsHandedOut b vs → IsBalanced b vs }
{}

/// Lawful books of one broker and vendors, in any order, in which no stranger stands are balanced.
#[tactic(auto, using(crate::proofs::Strange::no_stranger_balanced))]
pub fn books_without_a_stranger_balance()
    ensures { (limits : Bounds) (b : History) (vs books : List History) → limits.series ≤ 2 ^ 32
        → AreBooks limits b vs → AreOfMarket b vs books → first_stranger b vs books ≡ None
        → IsBalanced b vs }
{}

/// In lawful books of one broker and vendors no stranger stands exactly where all was handed out.
pub fn strangers_were_not_handed_out()
    ensures none { (b : History) (vs books : List History) → AreOfMarket b vs books
        → HaveOwnNames vs → first_stranger b vs books ≡ None → IsHandedOut b vs }
    ensures only { (limits : Bounds) (b : History) (vs books : List History) → AreBooks limits b vs
        → AreOfMarket b vs books → IsHandedOut b vs → first_stranger b vs books ≡ None }
{}

/// The same of several brokers, each of which may sell on what another sold: what was sold once more is
/// counted once more.
#[tactic(auto, using(crate::proofs::Brokers::all_balanced))]
pub fn books_of_brokers_balance()
    ensures { (limits : Bounds) (bs vs : List History) → limits.series ≤ 2 ^ 32
        → AreBooksOf limits bs vs → IsHandedOutBy bs vs → AreBalanced bs vs }
{}

/// An entry that accepts nothing moves value of pieces that were handed out from outstanding to
/// lapsed alone: their sum stays, and lapsed does not fall.
pub fn expiry_moves_to_lapsed()
    ensures kept { (h : History) (e : Entry) (handed : List Scrip) → accepted_piece e ≡ None
        → outstanding handed (h ++ e ∷ []) + lapsed handed (h ++ e ∷ [])
        ≡ outstanding handed h + lapsed handed h }
    ensures grows { (h : History) (e : Entry) (handed : List Scrip) → accepted_piece e ≡ None
        → lapsed handed h ≤ lapsed handed (h ++ e ∷ []) }
{}
