//! Laws over the definitions of a broker, each on a function that does nothing.

ghost use Rattle.std.specs.Prelude.{◌≡◌, IsTrue, ℕ, ◌+◌, ◌^◌, ◌≤◌, Bool, true, List, Option, Some, bytes_eq, count_by, filter_map, sum_by};
ghost use Rattle.std.specs.List.{AllByRecursion};
ghost use Rattle.mc_records.specs.declared.ranges.TheConstants.{MOST_IN_ACCOUNT};
ghost use Rattle.mc_requests.specs.declared.limits.Limits.{Limits as Bounds};
ghost use Rattle.mc_requests.specs.Requests.{Asked};
ghost use Rattle.mc_records.specs.Entry.{Entry, Accept, Draw, goods_deed, sale, credit};
ghost use Rattle.ledger_model.specs.Histories.{History};
ghost use Rattle.ledger_model.specs.Houses.{site_kind};
ghost use Rattle.ledger_model.specs.declared.numbers.TheConstants.{VENDOR_KIND, BROKER_KIND};
ghost use Rattle.ledger_model.specs.Sums.{takings, values, paid_in, paid_out, all_credited, all_drawn, sold_values, fees};
ghost use Rattle.ledger_model.specs.Pieces.{accepted, own_out, reference_of, has_reference, in_series};
ghost use Rattle.ledger_model.specs.Accounts.{account_names, amount_to, amount_from, balance, all_balances, orders_of};
ghost use Rattle.ledger_model.specs.Stock.{stock_pieces, may_be_stock, sales, sold, stock_sold, licensed_sold, licensed_count};
ghost use Rattle.ledger_model.specs.Answer.{answer, Take};
ghost use Rattle.ledger_model.specs.Lawful.{IsLawful, MayFollow};
ghost use Rattle.ledger_model.specs.Laws.{AreDistinct, HasPiece, AreRising, with_id, HaveNoGap};
ghost use Rattle.ledger_model.specs.Taken.{IsBought, IsSale, IsCredit, IsDraw};

/// An entry with a sale is taken for a target that names a vendor and a value. Its price is the value
/// and the fee. The sold piece has the next serial under the vendor's licence where there is one, else
/// it is the first of the vendor's stock that is for sale.
#[tactic(auto, using(crate::proofs::TakenLaws::taken_sale))]
pub fn taken_sales()
    ensures { (h : History) (t : ℕ) (limits : Bounds) (q : Asked) (m : ℕ) (scrip target : List ℕ)
        (sign : Option (List ℕ)) (price : ℕ) (change : Option ℕ) (stock : Bool) (id : ℕ)
        → answer h t limits q ≡ Take (Accept m scrip target sign price change (sale stock id))
        → IsSale limits.series h t target price stock id }
{}

/// An entry with a credit is taken for a target that names an account which stands. Its price is the
/// value of the piece, and it has no change; the deed tells the balance after it, at most 2^60.
#[tactic(auto, using(crate::proofs::TakenLaws::taken_credit))]
pub fn taken_credits()
    ensures { (h : History) (t : ℕ) (limits : Bounds) (q : Asked) (m : ℕ) (scrip target : List ℕ)
        (sign : Option (List ℕ)) (price : ℕ) (change : Option ℕ) (after : ℕ)
        → answer h t limits q ≡ Take (Accept m scrip target sign price change (credit after))
        → IsCredit h scrip target price change after }
{}

/// A Draw entry is taken for a target that names an account which stands, an order above the account's
/// last one, and an amount that the account has. It is signed under the account's key, and its piece
/// has the next serial of the house's own series.
#[tactic(auto, using(crate::proofs::TakenLaws::taken_draw))]
pub fn taken_draws()
    ensures { (h : History) (t : ℕ) (limits : Bounds) (q : Asked) (m : ℕ) (target sign : List ℕ)
        (id : ℕ) → answer h t limits q ≡ Take (Draw m target sign id)
        → IsDraw limits.series h t target sign id }
{}

/// In a lawful history no reference stands twice, be it of mints, deposits or withdrawals: an entry
/// whose reference stands may not follow, so that a deposit that comes again adds nothing.
pub fn references_stand_once()
    ensures twice { (limits : Bounds) (h : History) (e : Entry) (r : List ℕ) → has_reference h r ≡ true
        → reference_of e ≡ Some r → MayFollow limits h e → ⊥ }
    ensures once { (limits : Bounds) (h : History) (reference : List ℕ)
        → IsLawful limits h
        → count_by (λ r. bytes_eq r reference) (filter_map reference_of h) ≤ 1 }
{}

/// In a lawful history what went out of an account never passes what went into it, so that its balance
/// is the difference of the two; and the balance is at most 2^60.
pub fn no_account_is_overdrawn()
    ensures covered { (limits : Bounds) (h : History) (name : List ℕ)
        → IsLawful limits h → sum_by (amount_from name) h ≤ sum_by (amount_to name) h }
    ensures balance { (limits : Bounds) (h : History) (name : List ℕ)
        → IsLawful limits h
        → sum_by (amount_to name) h ≡ sum_by (amount_from name) h + balance h name }
    ensures within { (limits : Bounds) (h : History) (name : List ℕ)
        → IsLawful limits h → balance h name ≤ MOST_IN_ACCOUNT }
{}

/// In a lawful history the orders of an account's draws rise, and no name has two accounts.
pub fn orders_rise()
    ensures rise { (limits : Bounds) (h : History) (name : List ℕ)
        → IsLawful limits h → AreRising (orders_of h name) }
    ensures once { (limits : Bounds) (h : History) (name : List ℕ)
        → IsLawful limits h → count_by (bytes_eq name) (account_names h) ≤ 1 }
{}

/// In a lawful history the pieces of a vendor's stock are the vendor's and first-hand, of any issuer. No
/// identity of it stands twice, and none is sold twice out of stock.
pub fn stock_is_sold_once()
    ensures fits { (limits : Bounds) (h : History) (vendor : List ℕ)
        → IsLawful limits h
        → AllByRecursion (λ p. IsTrue (may_be_stock vendor p)) (stock_pieces h vendor) }
    ensures stands { (limits : Bounds) (h : History) (vendor : List ℕ)
        → IsLawful limits h → AreDistinct (stock_pieces h vendor) }
    ensures sold { (limits : Bounds) (h : History) (vendor : List ℕ) (id : ℕ)
        → IsLawful limits h → with_id (stock_sold h vendor) id ≤ 1 }
{}

/// In a lawful history each sale has its piece: of the vendor, the value and the identity of the sale.
/// And an identity stands among what was sold of a vendor as often as under his licence and out of his
/// stock.
pub fn sales_have_pieces()
    ensures made { (limits : Bounds) (h : History) → IsLawful limits h
        → AllByRecursion (HasPiece h) (sales h) }
    ensures parts { (h : History) (vendor : List ℕ) (id : ℕ) → with_id (sold h vendor) id
        ≡ with_id (licensed_sold h vendor) id + with_id (stock_sold h vendor) id }
{}

/// The pieces that a lawful history sells under a vendor's licence have the serials 0, 1, 2 and so on
/// in each series without a gap, and are as many as the next serial says.
pub fn licensed_serials_have_no_gap()
    ensures serials { (limits : Bounds) (h : History) (vendor : List ℕ)
        → limits.series ≤ 2 ^ 32 → IsLawful limits h → HaveNoGap (licensed_sold h vendor) }
    ensures counted { (limits : Bounds) (h : History) (vendor : List ℕ) (series : ℕ)
        → IsLawful limits h
        → in_series (licensed_sold h vendor) series ≡ licensed_count h vendor series }
{}

/// A vendor draws nothing, so that its values are kept without draws.
#[tactic(auto, using(crate::proofs::DrawnLaws::none_drawn))]
pub fn vendors_draw_nothing()
    ensures { (limits : Bounds) (h : History) → IsLawful limits h
        → site_kind h ≡ Some VENDOR_KIND → all_drawn h ≡ 0 }
{}

/// An entry with goods is taken at a vendor, for the price in force of its target.
#[tactic(auto, using(crate::proofs::TakenLaws::taken_goods))]
pub fn taken_goods()
    ensures { (h : History) (t : ℕ) (limits : Bounds) (q : Asked) (m : ℕ) (scrip target : List ℕ)
        (sign : Option (List ℕ)) (price : ℕ) (change : Option ℕ)
        → answer h t limits q ≡ Take (Accept m scrip target sign price change goods_deed)
        → IsBought h target price }
{}

/// In a lawful history what was deposited and credited is what was withdrawn and drawn, and what stands
/// in the accounts. The prices that a broker took are the values that it sold, its fees and its credits.
/// So what came in, as money and as pieces, is what went out, what stands in the accounts, the fees, and
/// the values that were sold and handed out.
pub fn brokers_keep_money()
    ensures accounts { (limits : Bounds) (h : History) → IsLawful limits h
        → paid_in h + all_credited h ≡ paid_out h + all_drawn h + all_balances h }
    ensures prices { (limits : Bounds) (h : History) → IsLawful limits h
        → site_kind h ≡ Some BROKER_KIND → takings h ≡ sold_values h + fees h + all_credited h }
    ensures kept { (limits : Bounds) (h : History) → IsLawful limits h
        → site_kind h ≡ Some BROKER_KIND → paid_in h + values (accepted h)
        ≡ paid_out h + all_balances h + fees h + sold_values h + values (own_out h) }
{}
