//! What a house of a world does. Between links it is its history and its time; for each link it is opened by its
//! history, entry by entry.

ghost use Rattle.std.specs.Prelude.{◌≡◌, ◌<◌, ◌-◌, ◌^◌, min, [], Some, IfOk};
ghost use Rattle.mc_requests.specs.Limits.{AreInRange};
ghost use Rattle.ledger_model.specs.Histories.{time};
ghost use Rattle.ledger_model.specs.Houses.{site_kind};
ghost use Rattle.world_model.specs.Worlds.{opens};
ghost use Rattle.mc_world.specs.Links.{IsDelivered};
ghost use Rattle.mc_world.specs.Houses.{IsHouseAt};

use crate::shop::Shop;
use broker_core::Desk;
use house_state::Trade;
use ledger_model::History;
use mc_base::{Moment, NoMemory};
use mc_requests::Limits;
use slow_ledger::{Prefix, slow_is_broker, slow_time};
use std::alloc::Global;
use std::marker::Model;
use std::vec::Vec;
use vendor_core::Shelf;

/// A house between two links. Contracts see the state of a house.
#[derive(Drop)]
pub(crate) struct House {
    pub(crate) history: History,
    pub(crate) time: Moment,
}

impl Model for House {
    ghost use Rattle.house_core.specs.Session.{State};

    ghost Value = { State };

    ghost view = { λ h. record { history = h.history; time = h.time } };
}

impl House {
    /// No house: one of no entries.
    pub(crate) fn none(alloc: Global) -> House {
        House {
            history: History::new(alloc),
            time: Moment::clamped(0),
        }
    }

    /// Begins its next run.
    pub(crate) fn restart(&mut self)
        requires in_range { time self.old.history < 2 ^ 35 }
        ensures { self.new ≡ opens self.old.history }
    {
        self.time = opening_time(&self.history);
    }

    /// Its history.
    pub(crate) fn into_history(self) -> History
        ensures { result ≡ self.history }
    {
        let House { history, time: _ } = self;
        history
    }
}

/// The time at which a history opens a house.
pub(crate) fn opening_time(history: &History) -> Moment
    requires { time history.now < 2 ^ 35 }
    ensures { result ≡ time history.now }
{
    Moment::clamped(slow_time(&Prefix::whole(history)))
}

/// The house after a link of these bytes at a reading, and its replies. The reading is a clock's.
pub(crate) fn deliver(
    alloc: Global,
    house: House,
    limits: Limits,
    link: &[u8],
    reading: u64,
) -> Result<(House, Vec<u8>), NoMemory>
    requires range { AreInRange limits }
    requires house { IsHouseAt limits house }
    ensures delivered { IfOk result (λ x. IsDelivered limits house (min reading (2 ^ 35 - 1)) link.now [] x.1.items x.0) }
{
    if slow_is_broker(&Prefix::whole(&house.history)) {
        deliver_by(alloc, house, limits, Desk::new(alloc), link, reading)
    } else {
        deliver_by(alloc, house, limits, Shelf::new(alloc), link, reading)
    }
}

/// The same with a trade that has learned nothing yet.
fn deliver_by<T: Trade>(
    alloc: Global,
    house: House,
    limits: Limits,
    trade: T,
    link: &[u8],
    reading: u64,
) -> Result<(House, Vec<u8>), NoMemory>
    requires range { AreInRange limits }
    requires house { IsHouseAt limits house }
    requires kind { site_kind house.history ≡ Some (T.trade trade).site }
    requires trade { (T.trade trade).represents [] }
    ensures delivered { IfOk result (λ x. IsDelivered limits house (min reading (2 ^ 35 - 1)) link.now [] x.1.items x.0) }
{
    let House { history, time } = house;
    let mut shop = Shop::open(alloc, history, limits, trade)?;
    shop.raise(time);
    let mut replies = Vec::new(alloc);
    shop.deliver(alloc, link, Moment::clamped(reading), &mut replies)?;
    Ok((shop.close(), replies))
}
