ghost use Rattle.std.specs.Prelude.{◌≡◌, ◌-◌, ◌^◌, min, map, IfOk};
ghost use Rattle.mc_stage.specs.Scenario.{first_reading, next_readings};

use mc_base::{Moment, NoMemory};
use std::alloc::Global;
use std::marker::Model;

/// Readings that come one after another; after the last one the last is repeated.
#[derive(Drop)]
pub(crate) struct Clock {
    readings: Vec<Moment>,
    at: usize,
}

impl Model for Clock {
    ghost use Rattle.std.specs.Prelude.{◌-◌, ◌≤◌, length, drop};
    ghost use Rattle.mc_stage.specs.Scenario.{Readings};

    ghost Value = { Readings };

    ghost view = { λ c. record { all = c.readings.items; left = drop c.at c.readings.items } };

    ghost invariant = { λ c. c.at ≤ length c.readings.items - 1 };
}

impl Clock {
    /// A clock that gives these readings, each brought into the range of a moment.
    pub(crate) fn of(alloc: Global, readings: &[u64]) -> Result<Clock, NoMemory>
        ensures { IfOk result (λ c. c ≡ record { all = map (λ r. min r (2 ^ 35 - 1)) readings.now; left = map (λ r. min r (2 ^ 35 - 1)) readings.now }) }
    {
        let readings = readings.iter().map(|r| Moment::clamped(*r)).collect(alloc)?;
        Ok(Clock { readings, at: 0 })
    }

    /// The same readings from the first on.
    pub(crate) fn restarted(self) -> Clock
        ensures { result ≡ record self { left = self.all } }
    {
        let Clock { readings, .. } = self;
        Clock { readings, at: 0 }
    }

    /// The next reading; 0 where there are none.
    pub(crate) fn next(&mut self) -> Moment
        ensures reading { result ≡ first_reading self.old.left }
        ensures left { self.new ≡ record self.old { left = next_readings self.old.left } }
    {
        let Some(reading) = self.readings.get(self.at) else {
            return Moment::clamped(0);
        };
        let reading = *reading;
        if self.at < self.readings.len() - 1 {
            self.at += 1;
        }
        reading
    }
}
