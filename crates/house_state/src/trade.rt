ghost use Rattle.std.specs.Prelude.{◌≡◌, ℕ, List, ◌↔◌, [], ◌∷◌, ◌++◌, Some, ◌<◌, ◌≤◌, ◌^◌, IfSome, IfOk, IfErr, IsOk, OnOk, OnErr};
ghost use Rattle.mc_requests.specs.declared.limits.Limits.{Limits as Bounds};
ghost use Rattle.mc_records.specs.Entry.{Entry, Switch};
ghost use Rattle.mc_records.specs.Views.{entry};
ghost use Rattle.ledger_model.specs.Histories.{History};
ghost use Rattle.ledger_model.specs.Houses.{site_kind};
ghost use Rattle.ledger_model.specs.Answer as answers;
ghost use Rattle.ledger_model.specs.Replies.{brought, price_asked};
ghost use Rattle.ledger_model.specs.Lines.{as_line};
ghost use Rattle.house_state.specs.Views.{kind_number, entry_deed, offer_of, contents_of};
ghost use Rattle.house_state.specs.Trade.{TradeView, draw_asked, brought_by, OfGoods, IsInForce, IsKeptFrom};
ghost use Rattle.house_state.specs.Learning.{ByTrade, CommandFits, MayLearn, IsGoods};
ghost use Rattle.house_state.specs.Replying.{AreContents, IsOfSite};

use crate::offer::{Body, DrawAsk, Offer, SiteKind, Unlawful};
use kept_replies::Deed;
use mc_base::{Amount, Moment, NoMemory};
use mc_records::Record;
use mc_requests::{Limits, Refusal};

/// What a site offers for scrip, as far as a history says something of it: goods, or accounts, licences
/// and stock. A trade represents a history, whose entries it learns one by one, and answers as the
/// ledger does for that history.
pub trait Trade: Drop {
    // What the trade means now. No call changes the kind of its site.
    ghost trade: { Self → TradeView };

    // Its own test of a note that follows a history.
    ghost passes: { History → Entry → Type 0 };

    /// The kind of its site.
    fn kind(&self) -> SiteKind
        ensures { kind_number result ≡ (trade self.now).site };

    /// The price of a target, in units; None where nothing is sold there.
    fn price(&self, target: &[u8]) -> Option<u64>
        ensures { (h : History) → (trade self.now).represents h
            → site_kind h ≡ Some (trade self.now).site → result ≡ price_asked h target.now };

    /// What is given for a piece of this value, or why nothing is.
    fn offer(
        &self,
        time: Moment,
        limits: Limits,
        target: &[u8],
        value: Amount,
    ) -> Result<Offer, Refusal>
        requires limit { limits.series ≤ 2 ^ 32 }
        // The price and the deed of the entry, or the refusal, are the ledger's.
        ensures offer { (h : History) → (trade self.now).represents h
            → site_kind h ≡ Some (trade self.now).site
            → as_line offer_of result ≡ answers.offer h time limits target.now value }
        ensures site { IfErr result IsOfSite }
        // What the kept deed names is what the entry's deed brings, and what is in force.
        ensures brings { (h : History) → (trade self.now).represents h
            → site_kind h ≡ Some (trade self.now).site
            → IfOk result
            (λ o. brought_by h o.deed ≡ Some (brought h target.now (entry_deed o.deed))) }
        ensures in_force { (h : History) → (trade self.now).represents h
            → site_kind h ≡ Some (trade self.now).site
            → IfOk result (λ o. OfGoods (IsInForce h) o.deed) }
        ensures held { IfOk result (λ o. OfGoods (trade self.now).holds o.deed) };

    /// The draw that a target asks for, with what is known of its account; None where it asks for none.
    fn draw(&self, target: &[u8]) -> Option<DrawAsk>
        ensures some { IfSome result (λ ask. 0 < ask.amount) }
        ensures asked { (h : History) → (trade self.now).represents h
            → site_kind h ≡ Some (trade self.now).site → result ≡ draw_asked h target.now };

    /// Makes room to learn an entry. The trade represents what it represented, also after an `Err`.
    fn reserve(&mut self, r: &Record<'_>) -> Result<(), NoMemory>
        requires fits { CommandFits (entry r.now) }
        ensures site { (trade self.new).site ≡ (trade self.old).site }
        ensures same { (h : History) → (trade self.old).represents h
            → (trade self.new).represents h }
        ensures held { (n : ℕ) → (trade self.old).holds n → (trade self.new).holds n }
        ensures room { OnOk result ((trade self.new).has_room (entry r.now)) };

    /// Learns the next entry, of which the house has told its half of what makes it lawful. `Err` comes
    /// exactly where the trade's half does not hold, and leaves the trade representing what it represented.
    fn learn(&mut self, number: u64, r: &Record<'_>) -> Result<(), Unlawful>
        requires room { (trade self.old).has_room (entry r.now) }
        requires fits { CommandFits (entry r.now) }
        ensures site { (trade self.new).site ≡ (trade self.old).site }
        ensures held { (n : ℕ) → (trade self.old).holds n → (trade self.new).holds n }
        ensures learned { OnOk result ((limits : Bounds) (h : History)
            → (trade self.old).represents h
            → MayLearn limits (trade self.old).site number h (entry r.now)
            → (trade self.new).represents (h ++ entry r.now ∷ [])) }
        ensures goods { OnOk result ((limits : Bounds) (h : History) → (trade self.old).represents h
            → MayLearn limits (trade self.old).site number h (entry r.now) → IsGoods (entry r.now)
            → (trade self.new).holds number) }
        ensures exact { (limits : Bounds) (h : History) → (trade self.old).represents h
            → MayLearn limits (trade self.old).site number h (entry r.now)
            → IsOk result ↔ ByTrade passes (trade self.old).site h (entry r.now) }
        ensures same { OnErr result ((h : History) → (trade self.old).represents h
            → (trade self.new).represents h) };

    /// What a reply with this deed brings, where the trade holds the goods that the deed names. `room` is
    /// for contents that are made of the deed itself.
    fn body<'a>(&'a self, deed: &Deed, room: &'a mut [u8; 512]) -> Body<'a>
        ensures range { AreContents result }
        ensures brought { (h : History) → (trade self.now).represents h
            → site_kind h ≡ Some (trade self.now).site
            → OfGoods (trade self.now).holds deed.now
            → brought_by h deed.now ≡ Some (contents_of result) };

    /// Lets those contents go that no reply of an entry from this number on brings, and that are not in
    /// force. With None no reply is kept.
    fn forget(&mut self, kept_from: Option<u64>)
        ensures site { (trade self.new).site ≡ (trade self.old).site }
        ensures same { (h : History) → (trade self.old).represents h
            → (trade self.new).represents h }
        ensures held { (h : History) (n : ℕ) → (trade self.old).represents h
            → IsKeptFrom h kept_from n → (trade self.old).holds n → (trade self.new).holds n }
        // No other contents stay.
        ensures freed { (h : History) (n : ℕ) → (trade self.old).represents h
            → (trade self.new).holds n → IsKeptFrom h kept_from n };

    /// A Switch needs no room, so that its chain may be looked for after all that may be refused.
    ghost switch_room: { (a : Self) (m : ℕ) (c : List ℕ) → (trade a).has_room (Switch m c) };
}
