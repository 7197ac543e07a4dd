ghost use Rattle.std.specs.Prelude.{◌≡◌, ◌<◌, ◌≤◌, ◌+◌, ◌^◌, ◌++◌, ◌∷◌, ◌↔◌, ◌==◌, ◌&&◌, nat_lt, ℕ, List, [], Some, option_map, IsTrue, IsFalse, IsNone, IfOk, IfErr};
ghost use Rattle.scrip_form.specs.Issuing.{epoch};
ghost use Rattle.ledger_model.specs.Histories.{History};
ghost use Rattle.ledger_model.specs.Houses.{fee, upgrade_in};
ghost use Rattle.ledger_model.specs.Stock.{licence_in, licensed_count, knows_vendor, for_sale};
ghost use Rattle.ledger_model.specs.Lines.{as_line};
ghost use Rattle.ledger_model.specs.Stages.{supplied, sale_by};
ghost use Rattle.ledger_model.specs.Answer.{supply_of};
ghost use Rattle.mc_requests.specs.Errands.{buy, errand_of};
ghost use Rattle.mc_records.specs.Views.{entry};
ghost use Rattle.broker_ledger.specs.Ledger.{Represents, HasRoom, AccountsAnswer};
ghost use Rattle.broker_stalls.specs.Shown.{Shows};
ghost use Rattle.broker_stalls.specs.Vendors.{found_stall, StallsRepresent, StallsHaveRoom, StallsAnswer};
ghost use Rattle.house_state.specs.Learning.{CommandFits, MayRaise};
ghost use Rattle.house_state.specs.Replying.{IsOfSite};
ghost use Rattle.house_state.specs.Trade.{BringsFor};
ghost use Rattle.house_state.specs.Views.{entry_deed, offer_of};
ghost use Rattle.broker_core.specs.Sales.{IsSale};
ghost use Rattle.broker_core.specs.Moves.{MovesRepresent, MovesHaveRoom, MovesAllow};
ghost use Rattle.broker_core.specs.Desk.{DeskRepresents, PartsAllow, DeskAllows, HasNothingOf, IsCredit, IsOfBroker, account_credited, credit_offer, fee_by};

use crate::moves::Moves;
use crate::sale::sold_from;
use broker_ledger::{AccountLedger, accounts_follow, order_of};
use broker_stalls::{Purchase, Stall, Stalls, bought, stalls_follow};
use house_state::{Body, DrawAsk, Offer, SiteKind, Trade, Unlawful, body_of_deed};
use kept_replies::Deed;
use mc_base::{Amount, Moment, NoMemory};
use mc_records::{MOST_IN_ACCOUNT, Record};
use mc_requests::{Errand, Limits, Refusal, errands_are_texts, read_errand};
use scrip_form::{Name, Terms};
use std::alloc::Global;

/// The trade of a broker: the accounts of its customers, the scrip of vendors that it sells, the issuers of vendors that
/// were moved to the second version, and its fee.
#[derive(Drop)]
pub struct Desk {
    accounts: AccountLedger,
    stalls: Stalls,
    moves: Moves,
    /// What it takes for a sale.
    fee: Amount,
}

impl Desk {
    /// The desk of an empty history. It takes no memory.
    pub fn new(alloc: Global) -> Desk
        ensures { DeskRepresents result [] }
    {
        Desk {
            accounts: AccountLedger::new(alloc),
            stalls: Stalls::new(alloc),
            moves: Moves::new(alloc),
            fee: Amount::new(0).unwrap(),
        }
    }

    /// The accounts, and what the operator put in and paid out.
    pub fn accounts(&self) -> &AccountLedger
        ensures { (h : History) → DeskRepresents self.now h → Represents result.now h }
    {
        &self.accounts
    }

    /// The stall of a vendor. Where there is none, he has no licence and no stock.
    pub fn stall(&self, vendor: &[u8]) -> Option<&Stall>
        ensures shows { (h : History) → DeskRepresents self.now h
            → Shows h vendor.now (found_stall result) }
        ensures none { (h : History) → DeskRepresents self.now h → IsNone result
            → HasNothingOf h vendor.now }
    {
        self.stalls.stall(vendor)
    }

    /// Scrip of a vendor for a piece of this value, which has to cover the fee too.
    fn sell(
        &self,
        time: Moment,
        limits: Limits,
        asked: &Purchase,
        value: Amount,
    ) -> Result<Offer, Refusal>
        requires some { 0 < asked.now.value }
        requires limit { limits.series ≤ 2 ^ 32 }
        ensures offer { (h : History) → DeskRepresents self.now h → as_line offer_of result
            ≡ sale_by limits.series time (fee h)
            (supply_of h time asked.now.vendor asked.now.value) asked.now.value value }
        ensures brings { (h : History) (target : List ℕ) → DeskRepresents self.now h
            → errand_of target ≡ Some (buy asked.now.vendor asked.now.value)
            → IfOk result (λ o. BringsFor h target o.deed) }
        ensures site { IfErr result IsOfSite }
        ensures sale { IfOk result (λ o. IsSale o.deed) }
    {
        let price = self.price_of(asked);
        if value.get() < price {
            return Err(Refusal::TooLittle(price));
        }
        match self.supply(time, limits, asked) {
            Ok(deed) => Ok(Offer { price, deed }),
            Err(refusal) => Err(refusal),
        }
    }

    /// What is sold of a vendor, by his stall.
    fn supply(&self, time: Moment, limits: Limits, asked: &Purchase) -> Result<Deed, Refusal>
        requires some { 0 < asked.now.value }
        requires limit { limits.series ≤ 2 ^ 32 }
        ensures deed { (h : History) → DeskRepresents self.now h → as_line entry_deed result
            ≡ supplied limits.series time asked.now.value (licence_in h asked.now.vendor)
            (licensed_count h asked.now.vendor) (knows_vendor h asked.now.vendor)
            (for_sale h time asked.now.vendor asked.now.value) }
        ensures brings { (h : History) (target : List ℕ) → DeskRepresents self.now h
            → errand_of target ≡ Some (buy asked.now.vendor asked.now.value)
            → IfOk result (BringsFor h target) }
        ensures site { IfErr result IsOfSite }
        ensures sale { IfOk result IsSale }
    {
        match self.stall(asked.vendor.bytes()) {
            Some(stall) => sold_from(stall, &self.moves, time, limits, asked),
            None => Err(Refusal::NoVendor),
        }
    }

    /// What scrip of a vendor costs: its value, and the fee.
    fn price_of(&self, asked: &Purchase) -> u64
        ensures { result ≡ asked.now.value + self.now.fee }
    {
        asked.value.get() + self.fee.get()
    }

    /// Credit for the whole of a piece in an account.
    fn credit(&self, account: &Name, value: Amount) -> Result<Offer, Refusal>
        ensures offer { (h : History) → DeskRepresents self.now h
            → as_line offer_of result ≡ credit_offer h account.now value }
        ensures site { IfErr result IsOfSite }
        ensures deed { IfOk result (λ o. IsCredit o.deed) }
    {
        let Some(standing) = self.accounts.standing(account) else {
            return Err(Refusal::NoAccount);
        };
        let after = standing.balance.saturating_add(value.get());
        if MOST_IN_ACCOUNT < after {
            return Err(Refusal::AccountFull(standing.balance));
        }
        Ok(Offer {
            price: value.get(),
            deed: Deed::Credit { balance: after },
        })
    }

    /// Learns the next entry, for which there is room: false exactly where its accounts or its stalls don't allow it.
    fn learn_parts(&mut self, r: &Record<'_>) -> bool
        requires accounts { HasRoom self.old.accounts (entry r.now) }
        requires stalls { StallsHaveRoom self.old.stalls (entry r.now) }
        requires fits { CommandFits (entry r.now) }
        ensures exact { (h : History) → DeskRepresents self.old h
            → IsTrue result ↔ PartsAllow h (entry r.now) }
        ensures accounts { (h : History) → DeskRepresents self.old h → AccountsAnswer h (entry r.now)
            → IsTrue result → Represents self.new.accounts (h ++ entry r.now ∷ []) }
        ensures stalls { (most : ℕ) (h : History) → DeskRepresents self.old h
            → StallsAnswer most h (entry r.now) → IsTrue result
            → StallsRepresent self.new.stalls (h ++ entry r.now ∷ []) }
        ensures same { (h : History) → DeskRepresents self.old h → IsFalse result
            → DeskRepresents self.new h }
        ensures moves { self.new.moves ≡ self.old.moves }
        ensures fee { self.new.fee ≡ self.old.fee }
    {
        match r {
            Record::Licence { .. } | Record::Stock { .. } => {
                if !self.stalls.learn(r) {
                    return false;
                }
                self.accounts.learn(r)
            }
            _ => {
                if !self.accounts.learn(r) {
                    return false;
                }
                self.stalls.learn(r)
            }
        }
    }

    /// The terms of a vendor's licence; None exactly where he has none.
    pub(crate) fn licence(&self, vendor: &[u8]) -> Option<&Terms>
        ensures { (h : History) → DeskRepresents self.now h
            → option_map (λ t. t.now) result ≡ licence_in h vendor.now }
    {
        match self.stall(vendor) {
            Some(stall) => stall.licence(),
            None => None,
        }
    }

    /// The epoch from which on an issuer of a vendor has the second version of scrip, where there is one.
    pub(crate) fn upgraded(&self, vendor: &[u8], issuer: u8) -> Option<u32>
        ensures { (h : History) → DeskRepresents self.now h
            → result ≡ upgrade_in h vendor.now issuer }
    {
        self.moves.upgraded(vendor, issuer)
    }

    /// Whether the issuer that an entry moves may be moved, where it is not the broker's own.
    fn may_move(&self, r: &Record<'_>) -> bool
        ensures { (h : History) → DeskRepresents self.now h
            → IsTrue result ↔ MovesAllow h (entry r.now) }
    {
        let Record::Upgrade {
            moment,
            vendor,
            issuer,
            from,
        } = *r
        else {
            return true;
        };
        if issuer == 0 {
            return true;
        }
        self.may_raise(moment, vendor, issuer, from)
    }

    /// Whether the issuer of a vendor's licence may be moved to the second version at a moment, from an epoch on.
    fn may_raise(&self, moment: Moment, vendor: &[u8], issuer: u8, from: u32) -> bool
        ensures { (h : History) → DeskRepresents self.now h
            → IsTrue result ↔ MayRaise h moment vendor.now issuer from }
    {
        if self.upgraded(vendor, issuer).is_some() {
            return false;
        }
        match self.licence(vendor) {
            Some(terms) => comes(terms, moment, issuer, from),
            None => false,
        }
    }

    /// Learns the next entry, for which there is room: false exactly where one of its parts doesn't allow it.
    fn learn_all(&mut self, r: &Record<'_>) -> bool
        requires accounts { HasRoom self.old.accounts (entry r.now) }
        requires stalls { StallsHaveRoom self.old.stalls (entry r.now) }
        requires moves { MovesHaveRoom self.old.moves (entry r.now) }
        requires fits { CommandFits (entry r.now) }
        ensures exact { (h : History) → DeskRepresents self.old h
            → IsTrue result ↔ DeskAllows h (entry r.now) }
        ensures accounts { (h : History) → DeskRepresents self.old h → AccountsAnswer h (entry r.now)
            → IsTrue result → Represents self.new.accounts (h ++ entry r.now ∷ []) }
        ensures stalls { (most : ℕ) (h : History) → DeskRepresents self.old h
            → StallsAnswer most h (entry r.now) → IsTrue result
            → StallsRepresent self.new.stalls (h ++ entry r.now ∷ []) }
        ensures moves { (h : History) → DeskRepresents self.old h → IsTrue result
            → MovesRepresent self.new.moves (h ++ entry r.now ∷ []) }
        ensures same { (h : History) → DeskRepresents self.old h → IsFalse result
            → DeskRepresents self.new h }
        ensures fee { self.new.fee ≡ self.old.fee }
    {
        if !self.may_move(r) {
            return false;
        }
        if !self.learn_parts(r) {
            return false;
        }
        self.moves.learn(r);
        true
    }
}

impl Trade for Desk {
    ghost use Rattle.house_state.specs.Learning.{untested};
    ghost use Rattle.broker_core.specs.Desk.{desk_view};

    ghost trade = { desk_view };

    ghost passes = { untested };

    fn kind(&self) -> SiteKind {
        SiteKind::Broker
    }

    fn price(&self, target: &[u8]) -> Option<u64> {
        match bought(target) {
            Some(asked) => Some(self.price_of(&asked)),
            None => None,
        }
    }

    fn offer(
        &self,
        time: Moment,
        limits: Limits,
        target: &[u8],
        value: Amount,
    ) -> Result<Offer, Refusal> {
        match bought(target) {
            Some(asked) => return self.sell(time, limits, &asked, value),
            None => (),
        }
        match credited(target) {
            Some(account) => self.credit(&account, value),
            None => Err(Refusal::NoSuchGoods),
        }
    }

    fn draw(&self, target: &[u8]) -> Option<DrawAsk> {
        let Some(order) = order_of(target) else {
            return None;
        };
        let Some(standing) = self.accounts.standing(&order.account) else {
            return Some(DrawAsk {
                account: order.account,
                order: order.order,
                amount: order.amount,
                key: None,
                last: 0,
                balance: 0,
            });
        };
        let key = standing.key;
        Some(DrawAsk {
            account: order.account,
            order: order.order,
            amount: order.amount,
            key: Some(key),
            last: standing.last,
            balance: standing.balance,
        })
    }

    fn reserve(&mut self, r: &Record<'_>) -> Result<(), NoMemory> {
        self.accounts.reserve(r)?;
        self.stalls.reserve(r)?;
        self.moves.reserve(r)
    }

    fn learn(&mut self, _number: u64, r: &Record<'_>) -> Result<(), Unlawful> {
        accounts_follow();
        stalls_follow();
        if !is_of_broker(r) || !self.learn_all(r) {
            return Err(Unlawful);
        }
        self.fee = fee_after(self.fee, r);
        Ok(())
    }

    fn body<'a>(&'a self, deed: &Deed, room: &'a mut [u8; 512]) -> Body<'a> {
        body_of_deed(deed, room)
    }

    fn forget(&mut self, _kept_from: Option<u64>) {}

    ghost switch_room = { λ a m c. (tt, tt, tt) };
}

/// The account that a target asks credit in; None exactly where it asks for none.
fn credited(target: &[u8]) -> Option<Name>
    ensures { result ≡ account_credited (errand_of target.now) }
{
    errands_are_texts();
    let Some(Errand::Credit { account }) = read_errand(target) else {
        return None;
    };
    let account = Name::new(account).unwrap();
    Some(account)
}

/// Whether terms are of an issuer, and an epoch is later than that of a moment under them.
fn comes(terms: &Terms, moment: Moment, issuer: u8, from: u32) -> bool
    ensures { result ≡ (terms.now.issuer == issuer && nat_lt (epoch terms.now moment) from) }
{
    terms.issuer() == issuer && terms.epoch_of(moment) < from
}

/// Whether an entry is of a kind that a broker learns.
fn is_of_broker(r: &Record<'_>) -> bool
    ensures { IsTrue result ↔ IsOfBroker (entry r.now) }
{
    match r {
        Record::Site { .. }
        | Record::Account { .. }
        | Record::Deposit { .. }
        | Record::Withdraw { .. }
        | Record::Accept { .. }
        | Record::Draw { .. }
        | Record::Licence { .. }
        | Record::Stock { .. }
        | Record::Upgrade { .. }
        | Record::Switch { .. }
        | Record::Note { .. } => true,
        _ => false,
    }
}

/// The fee after an entry: a Site entry sets it.
fn fee_after(fee: Amount, r: &Record<'_>) -> Amount
    requires { CommandFits (entry r.now) }
    ensures { result ≡ fee_by fee (entry r.now) }
{
    match r {
        Record::Site {
            house: Some(house),
            ..
        } => Amount::new(house.fee).unwrap(),
        _ => fee,
    }
}
