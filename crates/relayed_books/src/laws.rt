//! Laws over the books of brokers and of vendors, each on a function that does nothing.

ghost use Rattle.std.specs.Prelude.{◌≡◌, ◌^◌, ◌≤◌, List, None};
ghost use Rattle.std.specs.List.{list_any};
ghost use Rattle.mc_requests.specs.declared.limits.Limits.{Limits as Bounds};
ghost use Rattle.ledger_model.specs.Histories.{History};
ghost use Rattle.audit_model.specs.Brokers.{AreBooksOf, AreBalanced};
ghost use Rattle.relayed_books.specs.Seen.{mark_from, is_barred};
ghost use Rattle.relayed_books.specs.Beside.{is_beside};
ghost use Rattle.relayed_books.specs.Tree.{Sold, clash, sold_over, is_licensed_beside, AreHandedOut, AreOfTree, first_stranger};

/// Lawful books of brokers and of vendors of which all was handed out are balanced: what was paid in to all brokers
/// was paid out, stands in accounts, fees or takings, or in pieces that are outstanding or lapsed, or was paid again
/// for what was sold on.
#[tactic(auto, using(crate::proofs::Balance::tree_balanced))]
pub fn trees_balance()
    ensures { (limits : Bounds) (bs vs : List History) → limits.series ≤ 2 ^ 32
        → AreBooksOf limits bs vs → AreHandedOut bs vs → AreBalanced bs vs }
{}

/// Lawful books of brokers and of vendors, in any order, in which no stranger stands are balanced.
#[tactic(auto, using(crate::proofs::Balance::none_balanced))]
pub fn trees_without_a_stranger_balance()
    ensures { (limits : Bounds) (bs vs books : List History) → limits.series ≤ 2 ^ 32
        → AreBooksOf limits bs vs → AreOfTree bs vs books → first_stranger bs vs books ≡ None
        → AreBalanced bs vs }
{}

/// In lawful books of brokers and of vendors no stranger stands exactly where all was handed out.
pub fn strangers_were_not_handed_out()
    ensures none { (limits : Bounds) (bs vs books : List History) → AreBooksOf limits bs vs
        → AreOfTree bs vs books → first_stranger bs vs books ≡ None → AreHandedOut bs vs }
    ensures only { (limits : Bounds) (bs vs books : List History) → AreBooksOf limits bs vs
        → AreOfTree bs vs books → AreHandedOut bs vs → first_stranger bs vs books ≡ None }
{}

/// A sale can't stand with those before it exactly where what is kept of its identity bars it.
#[tactic(auto, using(crate::proofs::SeenLaws::seen_bars))]
pub fn what_was_seen_bars_a_sale()
    ensures { (s : Sold) (earlier : List Sold)
        → is_barred (mark_from None s.vendor s.piece.id earlier) s ≡ list_any (clash s) earlier }
{}

/// Another broker sold the piece of a sale under a licence exactly where one of all sales says so.
pub fn licensed_sales_stand_among_all()
    ensures { (bs : List History) (s : Sold)
        → is_licensed_beside bs s ≡ list_any (is_beside s) (sold_over bs) }
{}
