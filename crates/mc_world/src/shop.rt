//! A house of a world: a bench, and its history beside it.

ghost use Rattle.std.specs.Prelude.{◌≡◌, ◌≤◌, ◌↔◌, [], Some, IfOk, IfErr, OnOk, Err, true};
ghost use Rattle.mc_requests.specs.Limits.{AreInRange};
ghost use Rattle.mc_records.specs.Sizes.{size};
ghost use Rattle.ledger_model.specs.Lawful.{IsLawful};
ghost use Rattle.ledger_model.specs.Houses.{site_kind};
ghost use Rattle.world_model.specs.Worlds.{opens};
ghost use Rattle.mc_requests.specs.declared.refusal.Refusal.TheVariants.{NoMemory as Starved};
ghost use Rattle.ledger_model.specs.Answer.{Answer};
ghost use Rattle.slow_ledger.specs.Shown.{Shows};
ghost use Rattle.mc_requests.specs.Requests.{asked_of};
ghost use Rattle.millicent_http.specs.Takes.{item_of};
ghost use Rattle.house_state.specs.Replying.{IsOfSite};
ghost use Rattle.mc_records.specs.Chains.{TellsChain};
ghost use Rattle.mc_records.specs.Entry.{Fits, moment_of};
ghost use Rattle.mc_records.specs.Views.{entry};
ghost use Rattle.house_state.specs.CommandEntries.{IsCommand};
ghost use Rattle.house_core.specs.Bench.{KeepsReply, house_time};
ghost use Rattle.mc_world.specs.Houses.{EntersOr};
ghost use Rattle.house_core.specs.Session.{raised};
ghost use Rattle.mc_world.specs.Links.{IsDid, IsDelivered};
ghost use Rattle.mc_world.specs.Shops.{IsShop, IsTold, shop_state, history_after};

use crate::house::House;
use house_core::{Bench, EnterFault, ReplyRoom};
use house_state::{Presented, Trade};
use kept_replies::KeptNumber;
use ledger_model::History;
use mc_base::{Moment, NoMemory};
use mc_records::{Record, read_record};
use mc_requests::{Limits, Refusal, Request};
use millicent_http::{ItemRef, MAX_ITEMS, next_item};
use slow_ledger::{ModelAnswer, slow_answer};
use std::alloc::Global;
use std::vec::Vec;

/// A house with its history, which a bench does not hold.
#[derive(Drop)]
pub struct Shop<T> {
    bench: Bench<T>,
    history: History,
    limits: Limits,
}

impl<T: Trade> Shop<T> {
    /// A house as its history opens it, with a trade that has learned nothing yet.
    pub(crate) fn open(
        alloc: Global,
        history: History,
        limits: Limits,
        trade: T,
    ) -> Result<Shop<T>, NoMemory>
        requires range { AreInRange limits }
        requires lawful { IsLawful limits history }
        requires most { size history ≤ Limits.MOST_JOURNAL }
        requires kind { site_kind history ≡ Some (T.trade trade).site }
        requires trade { (T.trade trade).represents [] }
        ensures shop { IfOk result (λ x. IsShop T.trade x) }
        ensures limits { IfOk result (λ x. x.limits ≡ limits) }
        ensures opens { IfOk result (λ x. shop_state x ≡ opens history) }
    {
        let Some(first) = history.get(0) else {
            return Err(NoMemory);
        };
        let mut bench = Bench::new(alloc, &first, limits, trade)?;
        for number in 1..history.len() {
            let Some(entry) = history.get(number) else {
                return Err(NoMemory);
            };
            match bench.replay(&entry) {
                Ok(_) => (),
                Err(_) => return Err(NoMemory),
            }
        }
        Ok(Shop {
            bench,
            history,
            limits,
        })
    }

    /// Enters an entry by a command, whose moment is not below its time and which tells the chain where it is a Switch.
    /// False where the entry may not follow, fails the trade's own test, or does not fit; then the history stays.
    pub(crate) fn enter(&mut self, r: &Record<'_>) -> Result<bool, NoMemory>
        requires shop { IsShop T.trade self.old }
        requires fits { Fits (entry r.now) }
        requires command { IsCommand (entry r.now) }
        requires order { house_time self.old.bench ≤ moment_of (entry r.now) }
        requires tells { TellsChain self.old.history (entry r.now) }
        ensures entered { IfOk result (EntersOr T.passes self.old.limits self.old.history (entry r.now) self.new.history) }
    {
        match self.bench.enter(r) {
            Ok(_number) => {
                self.history.push(r)?;
                Ok(true)
            }
            Err(EnterFault::NoMemory) => Err(NoMemory),
            Err(EnterFault::Unlawful) => Ok(false),
            Err(EnterFault::Refused(_)) => Ok(false),
        }
    }

    /// Its history.
    pub(crate) fn into_history(self) -> History
        ensures { result ≡ self.history }
    {
        let Shop {
            bench: _,
            history,
            limits: _,
        } = self;
        history
    }

    /// Raises its time to a moment where that is later.
    pub(crate) fn raise(&mut self, moment: Moment)
        requires shop { IsShop T.trade self.old }
        ensures shop { IsShop T.trade self.new }
        ensures limits { self.new.limits ≡ self.old.limits }
        ensures raised { shop_state self.new ≡ raised (shop_state self.old) moment }
    {
        self.bench.raise(moment);
    }

    /// Its history and its time.
    pub(crate) fn close(self) -> House
        ensures { result ≡ shop_state self }
    {
        let Shop {
            mut bench,
            history,
            limits: _,
        } = self;
        // A bench tells its time where it is raised.
        let time = bench.raise(Moment::clamped(0));
        House { history, time }
    }

    /// The replies to a link of these bytes at a reading, behind what was written. An `Err` leaves anything.
    pub(crate) fn deliver(
        &mut self,
        alloc: Global,
        link: &[u8],
        reading: Moment,
        out: &mut Vec<u8>,
    ) -> Result<(), NoMemory>
        requires shop { IsShop T.trade self.old }
        ensures shop { OnOk result (IsShop T.trade self.new) }
        ensures limits { OnOk result (self.new.limits ≡ self.old.limits) }
        ensures delivered { OnOk result (IsDelivered self.old.limits (shop_state self.old) reading link.now out.old.items out.new.items (shop_state self.new)) }
    {
        let mut rest = link;
        for _ in 0..MAX_ITEMS {
            let Some((item, tail)) = next_item(rest) else {
                return Ok(());
            };
            self.deliver_item(alloc, &item, reading, out)?;
            if item.closes() {
                return Ok(());
            }
            rest = tail;
        }
        Ok(())
    }

    /// The reply to an item at a reading.
    fn deliver_item(
        &mut self,
        alloc: Global,
        item: &ItemRef<'_>,
        reading: Moment,
        out: &mut Vec<u8>,
    ) -> Result<(), NoMemory>
        requires shop { IsShop T.trade self.old }
        ensures shop { OnOk result (IsShop T.trade self.new) }
        ensures limits { OnOk result (self.new.limits ≡ self.old.limits) }
        ensures did { OnOk result (IsDid self.old.limits (shop_state self.old) reading (item_of item.now) out.old.items out.new.items (shop_state self.new)) }
    {
        let mut room = ReplyRoom::new();
        match item {
            ItemRef::Request(request, _) => {
                let told = self.take_request(alloc, request, reading)?;
                self.bench
                    .reply(&Presented::of(*request), &told, &mut room)
                    .append_to(out)
            }
            ItemRef::Refused(head, _) => self
                .bench
                .refuse_head(reading, *head, &mut room)
                .append_to(out),
        }
    }

    /// What is said to a request at a reading. Its entry, which a bench does not tell, is that of the
    /// definitions.
    fn take_request(
        &mut self,
        alloc: Global,
        request: &Request<'_>,
        reading: Moment,
    ) -> Result<Result<KeptNumber, Refusal>, NoMemory>
        requires shop { IsShop T.trade self.old }
        ensures limits { OnOk result (self.new.limits ≡ self.old.limits) }
        ensures shop { OnOk result (IsShop T.trade self.new) }
        ensures kept { IfOk result (λ told. IfOk told (KeepsReply self.new.bench)) }
        ensures site { IfOk result (λ told. IfErr told IsOfSite) }
        ensures said { IfOk result (λ told. IsTold self.old.limits (shop_state self.old) reading (asked_of request.now) told (shop_state self.new)) }
    {
        let time = self.bench.raise(reading);
        let model = slow_answer(alloc, &self.history, time, self.limits, request)?;
        let told = self.bench.answer(reading, &Presented::of(*request));
        if is_starved(&told) {
            return Err(NoMemory);
        }
        push_taken(&mut self.history, &model)?;
        Ok(told)
    }
}

/// Whether memory was refused.
fn is_starved(told: &Result<KeptNumber, Refusal>) -> bool
    ensures { result ≡ true ↔ told.now ≡ Err Starved }
{
    match told {
        Err(Refusal::NoMemory) => true,
        _ => false,
    }
}

/// Enters the entry that an answer takes.
fn push_taken(history: &mut History, model: &ModelAnswer) -> Result<(), NoMemory>
    ensures { (a : Answer) → Shows model.now a → OnOk result (history.new ≡ history_after history.old a) }
{
    match model {
        ModelAnswer::Take(payload) => match read_record(payload.slice()) {
            Ok(record) => history.push(&record),
            Err(_) => Ok(()),
        },
        _ => Ok(()),
    }
}
