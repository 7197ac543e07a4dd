ghost use Rattle.std.specs.Prelude.{◌≡◌, ℕ, List, option_map, find, false, true, None, Some, if◌then◌else◌, ◌||◌, ◌==◌, [], ◌∷◌, ◌++◌};
ghost use Rattle.std.specs.List.{list_any};
ghost use Rattle.std.specs.Option.{option_or};
ghost use Rattle.scrip_form.specs.Issuing.{Issuing};
ghost use Rattle.scrip_form.specs.Identities.{series_of};
ghost use Rattle.change_issue.specs.Registers.{IsRaisedAt};
ghost use Rattle.mc_requests.specs.declared.limits.Limits.{Limits as Bounds};
ghost use Rattle.ledger_model.specs.Histories.{History};
ghost use Rattle.ledger_model.specs.Lawful.{MayFollow};
ghost use Rattle.ledger_model.specs.Stock.{licence_in, ids_of, names_vendor, sale_of, sold_held, for_sale, stock_ids, are_stock};
ghost use Rattle.scrip_form.specs.Scrip.{Scrip, IsPiece};
ghost use Rattle.mc_records.specs.Entry.{Entry, Licence, Stock, Held};
ghost use Rattle.broker_stock.specs.declared.piece.StockPiece.{StockPiece};
ghost use Rattle.broker_stock.specs.Racks.{is_open, sold_first};
ghost use Rattle.broker_stalls.specs.Stalls.{StallView, terms_of, sold_count, was_stocked, stocked_at, is_known};
ghost use Rattle.broker_stalls.specs.Listed.{listed_at, piece_in_stock, held_in_stock};
ghost use Rattle.broker_stalls.specs.Shown.{IsOfOther, Shows};
ghost use Rattle.broker_stalls.specs.Vendors.{StallsAllow, StallsAnswer};

/// The first open piece of a value in a stall that shows a vendor is the first piece that is for sale; it is a piece
/// of the vendor, first-hand, and its text and secret are those that its sale brings. What may be put into stock is
/// told by the identities of the stall.
pub fn stalls_tell_stock()
    ensures first { (h : History) (vendor : List ℕ) (s : StallView) (t value : ℕ) → Shows h vendor s
        → option_map (λ p. p.id) (find (is_open t) (stocked_at s value))
        ≡ option_map (λ p. p.id) (for_sale h t vendor value) }
    ensures piece { (h : History) (vendor : List ℕ) (s : StallView) (t value : ℕ) (p : StockPiece)
        → Shows h vendor s → find (is_open t) (stocked_at s value) ≡ Some p
        → IsPiece (piece_in_stock vendor value p) }
    ensures held { (h : History) (vendor : List ℕ) (s : StallView) (t value : ℕ) (p : StockPiece)
        → Shows h vendor s → find (is_open t) (stocked_at s value) ≡ Some p
        → sold_held h (record { vendor = vendor; value = value; stock = true; id = p.id })
        ≡ Some (held_in_stock vendor value p) }
    ensures stock { (h : History) (vendor : List ℕ) (s : StallView) (pieces : List Held) → Shows h vendor s
        → are_stock vendor s.ids.ids pieces ≡ are_stock vendor (stock_ids h vendor) pieces }
{}

/// A stall goes on to show its vendor after one more entry: it stays as it is at an entry that neither names the
/// vendor nor sells scrip of his, and takes his licence, his stock and the sales as `Stall` does.
pub fn stalls_follow_entries()
    ensures others { (h : History) (vendor : List ℕ) (s : StallView) (e : Entry) → names_vendor vendor e ≡ false
        → IsOfOther vendor (sale_of e) → Shows h vendor s → Shows (h ++ e ∷ []) vendor s }
    ensures licence { (h : History) (vendor : List ℕ) (s s' : StallView) (m : ℕ) (terms : Issuing)
        → licence_in h vendor ≡ None → terms_of s' ≡ option_or (terms_of s) (Some terms)
        → ((series : ℕ) → sold_count s' series ≡ sold_count s series) → s'.ids ≡ s.ids → s'.racks ≡ s.racks
        → Shows h vendor s → Shows (h ++ Licence m vendor terms ∷ []) vendor s' }
    ensures stock { (h : History) (vendor : List ℕ) (s s' : StallView) (m : ℕ) (pieces : List Held)
        → are_stock vendor (stock_ids h vendor) pieces ≡ true → s'.licence ≡ s.licence
        → ((id : ℕ) → was_stocked s' id
        ≡ (was_stocked s id || list_any (λ k. id == k) (ids_of pieces)))
        → ((value : ℕ) → stocked_at s' value ≡ stocked_at s value ++ listed_at value pieces)
        → is_known s' ≡ true → Shows h vendor s → Shows (h ++ Stock m vendor pieces ∷ []) vendor s' }
    ensures licensed { (h : History) (vendor : List ℕ) (s s' : StallView) (e : Entry) (value id : ℕ)
        → sale_of e ≡ Some (record { vendor = vendor; value = value; stock = false; id = id })
        → names_vendor vendor e ≡ false → terms_of s' ≡ terms_of s
        → IsRaisedAt (series_of id) 1 (sold_count s) (sold_count s') → s'.ids ≡ s.ids → s'.racks ≡ s.racks
        → Shows h vendor s → Shows (h ++ e ∷ []) vendor s' }
    ensures sale { (h : History) (vendor : List ℕ) (s s' : StallView) (e : Entry) (t value id : ℕ) (p : Scrip)
        → sale_of e ≡ Some (record { vendor = vendor; value = value; stock = true; id = id })
        → names_vendor vendor e ≡ false → for_sale h t vendor value ≡ Some p → p.id ≡ id
        → s'.licence ≡ s.licence → s'.ids ≡ s.ids
        → ((u : ℕ) → stocked_at s' u
        ≡ (if value == u then sold_first t (stocked_at s u) else stocked_at s u))
        → Shows h vendor s → Shows (h ++ e ∷ []) vendor s' }
{}

/// An entry that may follow at a broker is one that the stalls allow, and of a sale holds what the stalls answered.
pub fn stalls_follow()
    ensures allowed { (limits : Bounds) (h : History) (e : Entry) → MayFollow limits h e
        → StallsAllow h e }
    ensures answered { (limits : Bounds) (h : History) (e : Entry) → MayFollow limits h e
        → StallsAnswer limits.series h e }
{}
