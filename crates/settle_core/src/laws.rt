//! Laws over notes that settle series, each on a function that does nothing.

ghost use Rattle.std.specs.Prelude.{◌≡◌, ◌≤◌, ◌<◌, ◌^◌, ◌++◌, ℕ, codes, length, List, Some, Ok, Err};
ghost use Rattle.std.specs.List.{AllByRecursion};
ghost use Rattle.mc_fields.specs.Texts.{IsNumber};
ghost use Rattle.mc_requests.specs.declared.limits.Limits.{Limits as Bounds};
ghost use Rattle.mc_records.specs.Entry.{Note};
ghost use Rattle.ledger_model.specs.Histories.{History};
ghost use Rattle.ledger_model.specs.Lawful.{IsLawful};
ghost use Rattle.audit_model.specs.Books.{AreBooks, IsHandedOut};
ghost use Rattle.settle_core.specs.Claims.{ClaimFits, PaymentFits, claim_text, payment_text, claim_of, payment_of};
ghost use Rattle.settle_core.specs.declared.claim.Claim.{Claim};
ghost use Rattle.settle_core.specs.declared.claim.Payment.{Payment};
ghost use Rattle.settle_core.specs.declared.claim.Statement.{Statement};
ghost use Rattle.settle_core.specs.Statements.{StatementFits, statement_text, statement_at, statement_input};
ghost use Rattle.settle_core.specs.Settlement.{AreInOrder, IsSettled, IsInOrder, redeemed, statements};
ghost use Rattle.settle_core.specs.Markets.{IsCovered, IsPaidAt, IsPaidByLine};
ghost use Rattle.settle_core.specs.Tasks.{pay_lines, state_lines};
ghost use Rattle.settle_core.specs.Orders.{PaymentsKeep, StillStands, StatementsKeep};

/// The texts of claims and of payments are read as they are spelled, and nothing else is read so.
pub fn claims_are_read_as_they_are_spelled()
    ensures claim { (bytes : List ℕ) (c : Claim) → claim_of bytes ≡ Some c
        → ClaimFits c × (bytes ≡ claim_text c) }
    ensures again { (c : Claim) → ClaimFits c → claim_of (claim_text c) ≡ Some c }
    ensures payment { (bytes : List ℕ) (p : Payment) → payment_of bytes ≡ Some p
        → PaymentFits p × (bytes ≡ payment_text p) }
    ensures paid_again { (p : Payment) → PaymentFits p → payment_of (payment_text p) ≡ Some p }
{}

/// In a book whose notes are in order no series is paid twice, and what was paid for a series is at most what was sold of it
/// under the vendor's licence.
#[tactic(auto, using(crate::proofs::PaymentLaws::payments_keep))]
pub fn no_series_is_paid_twice()
    ensures { (h : History) → AreInOrder h → PaymentsKeep h }
{}

/// In a lawful book whose notes are in order each statement is what was redeemed of its series, which has ended: nothing
/// more of it is accepted, in whatever goes on from there.
#[tactic(auto, using(crate::proofs::StatementLaws::statements_keep))]
pub fn statements_stay()
    ensures { (limits : Bounds) (h : History) → IsSettled limits h → StatementsKeep h }
{}

/// In lawful books of one broker and vendors of which all was handed out, a vendor redeemed of a series of an issuer above 0
/// at most what the broker sold of it under the vendor's licence.
#[tactic(auto, using(crate::proofs::MarketLaws::covered))]
pub fn what_was_redeemed_was_sold()
    ensures { (limits : Bounds) (b : History) (vs : List History) (issuer epoch : ℕ)
        → limits.series ≤ 2 ^ 32 → AreBooks limits b vs → IsHandedOut b vs → 1 ≤ issuer
        → AllByRecursion (IsCovered b issuer epoch) vs }
{}

/// What a lawful book redeemed of a series is at most 2^72, so that it can be stated.
#[tactic(auto, using(crate::proofs::CountLaws::redeemed_most))]
pub fn what_was_redeemed_can_be_stated()
    ensures { (limits : Bounds) (h : History) (issuer epoch : ℕ) → IsLawful limits h
        → redeemed h issuer epoch ≤ 2 ^ 72 }
{}

/// In lawful books of one broker and vendors of which all was handed out, what a vendor states of a series is paid, where the
/// broker's licence for the vendor has the vendor's terms, the series has ended, and nothing was paid for it before.
#[tactic(auto, using(crate::proofs::TaskLaws::statements_are_paid))]
pub fn statements_are_paid()
    ensures { (limits : Bounds) (b : History) (vs : List History) (t issuer epoch : ℕ)
        → limits.series ≤ 2 ^ 32 → AreBooks limits b vs → IsHandedOut b vs → 1 ≤ issuer
        → AllByRecursion (IsPaidAt b t issuer epoch) vs }
{}

/// What is to be paid for a statement, and what is to be stated of a series of an issuer above 0, is in order as a note of
/// that moment.
pub fn what_is_entered_is_in_order()
    ensures paid { (b : History) (t : ℕ) (s : Statement) (p : Payment) → StatementFits s
        → pay_lines b t (Ok s) ≡ Ok p → IsInOrder b (Note t (codes "pay") (payment_text p)) }
    ensures stated { (limits : Bounds) (v : History) (t issuer epoch : ℕ) (c : Claim)
        → IsLawful limits v → IsNumber 255 issuer → epoch < 2 ^ 24
        → state_lines v t issuer epoch ≡ Ok c → IsInOrder v (Note t (codes "stated") (claim_text c)) }
{}

/// A statement is read of its line, whatever follows, and nothing else is read so.
pub fn statements_are_read_as_they_are_spelled()
    ensures told { (bytes : List ℕ) (s : Statement) (rest : List ℕ)
        → statement_at bytes ≡ Some (s, rest)
        → StatementFits s × (bytes ≡ statement_text s ++ rest) }
    ensures again { (s : Statement) (rest : List ℕ) → StatementFits s
        → statement_at (statement_text s ++ rest) ≡ Some (s, rest) }
{}

/// What was stated stays what was redeemed of its series in every lawful book that goes on from there, whatever notes come behind.
#[tactic(auto, using(crate::proofs::StatementLaws::statements_stay_behind))]
pub fn statements_stay_behind()
    ensures { (limits : Bounds) (h more : History) → IsSettled limits h → IsLawful limits (h ++ more)
        → AllByRecursion (StillStands (h ++ more)) (statements h) }
{}

/// In lawful books of one broker and vendors of which all was handed out, the line that a vendor says of a series is paid as the
/// broker reads it, where the licence stands, the series has ended, and nothing was paid for it before.
#[tactic(auto, using(crate::proofs::LineLaws::lines_are_paid))]
pub fn lines_are_paid()
    ensures { (limits : Bounds) (b : History) (vs : List History) (t issuer epoch : ℕ)
        → limits.series ≤ 2 ^ 32 → AreBooks limits b vs → IsHandedOut b vs → IsNumber 255 issuer → epoch < 2 ^ 24
        → AllByRecursion (IsPaidByLine b t issuer epoch) vs }
{}

/// A statement has at most 256 bytes, so that a longer input breaks at a line.
#[tactic(auto, using(crate::proofs::LineLaws::long_breaks))]
pub fn long_inputs_break()
    ensures { (bytes : List ℕ) → 256 < length bytes → (line : ℕ) × (statement_input bytes ≡ Err line) }
{}
