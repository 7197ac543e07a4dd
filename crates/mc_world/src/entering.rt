//! How an operator's entry is entered into a house of a world.

ghost use Rattle.std.specs.Prelude.{◌≡◌, ◌↔◌, ◌≤◌, [], max, Some, IfOk, IsTrue};
ghost use Rattle.mc_records.specs.Chains.{TellsChain};
ghost use Rattle.mc_records.specs.Entry as entries;
ghost use Rattle.mc_records.specs.Entry.{Entry, Fits, moment_of};
ghost use Rattle.mc_requests.specs.Limits.{AreInRange};
ghost use Rattle.mc_records.specs.Views.{entry};
ghost use Rattle.ledger_model.specs.Histories.{History as Entries, time};
ghost use Rattle.ledger_model.specs.Houses.{site_kind};
ghost use Rattle.house_state.specs.CommandEntries.{IsCommand};
ghost use Rattle.house_state.specs.Learning.{Passes};
ghost use Rattle.world_model.specs.Worlds.{HasBytes};
ghost use Rattle.mc_world.specs.Houses.{IsHouseAt, EntersAs, EntersBy};

use crate::house::House;
use crate::shop::Shop;
use broker_core::Desk;
use house_state::Trade;
use mc_base::{Moment, NoMemory};
use mc_records::{Record, read_record};
use mc_requests::Limits;
use slow_ledger::{Prefix, slow_chain, slow_is_broker, slow_time};
use std::alloc::Global;
use vendor_core::Shelf;

/// The house after an operator's entry of this payload was entered; as it was where the bytes are no payload of a
/// command, or the entry may not follow or does not fit.
pub(crate) fn enter(
    alloc: Global,
    house: House,
    limits: Limits,
    payload: &[u8],
) -> Result<House, NoMemory>
    requires range { AreInRange limits }
    requires house { IsHouseAt limits house }
    ensures entered { IfOk result (EntersBy limits house payload.now) }
{
    secrets_are_bytes(payload);
    let Ok(record) = read_record(payload) else {
        return Ok(house);
    };
    if !may_come(&house, &record) {
        return Ok(house);
    }
    if slow_is_broker(&Prefix::whole(&house.history)) {
        enter_by(alloc, house, limits, Desk::new(alloc), &record)
    } else {
        enter_by(alloc, house, limits, Shelf::new(alloc), &record)
    }
}

/// The house after an entry, by a trade that has learned nothing yet and asks nothing of Notes; as it was where the entry
/// may not follow or does not fit.
fn enter_by<T: Trade>(
    alloc: Global,
    house: House,
    limits: Limits,
    trade: T,
    r: &Record<'_>,
) -> Result<House, NoMemory>
    requires range { AreInRange limits }
    requires house { IsHouseAt limits house }
    requires kind { site_kind house.history ≡ Some (T.trade trade).site }
    requires trade { (T.trade trade).represents [] }
    requires fits { Fits (entry r.now) }
    requires command { IsCommand (entry r.now) }
    requires order { time house.history ≤ moment_of (entry r.now) }
    requires tells { TellsChain house.history (entry r.now) }
    requires passes { (h : Entries) (e : Entry) → Passes T.passes h e }
    ensures entered { IfOk result (EntersAs limits house (entry r.now)) }
{
    let House { history, time } = house;
    let mut shop = Shop::open(alloc, history, limits, trade)?;
    if shop.enter(r)? {
        let time = later(time, r.moment());
        let history = shop.into_history();
        Ok(House { history, time })
    } else {
        let history = shop.into_history();
        Ok(House { history, time })
    }
}

/// Whether an entry is a command's, of a moment that is not before the history's, and tells the chain where it is a
/// Switch.
fn may_come(house: &House, r: &Record<'_>) -> bool
    ensures command { IsTrue result → IsCommand (entry r.now) }
    ensures order { IsTrue result → time house.now.history ≤ moment_of (entry r.now) }
    ensures tells { IsTrue result → TellsChain house.now.history (entry r.now) }
    ensures only { IsCommand (entry r.now) → time house.now.history ≤ moment_of (entry r.now) → TellsChain house.now.history (entry r.now) → IsTrue result }
{
    let history = Prefix::whole(&house.history);
    is_command(r) && slow_time(&history) <= r.moment().seconds() && r.tells(&slow_chain(&history))
}

/// Whether an entry founds no site, and is no request that was accepted.
fn is_command(r: &Record<'_>) -> bool
    ensures { IsTrue result ↔ IsCommand (entry r.now) }
{
    !matches!(
        r,
        Record::Site { .. } | Record::Accept { .. } | Record::Draw { .. }
    )
}

/// The later of two moments.
fn later(a: Moment, b: Moment) -> Moment
    ensures { result ≡ max a b }
{
    if a.seconds() < b.seconds() { b } else { a }
}

/// The secrets of stock that a payload spells are bytes.
pub(crate) fn secrets_are_bytes(bytes: &[u8])
    ensures { (e : Entry) → bytes.now ≡ entries.payload e → HasBytes e }
{}
