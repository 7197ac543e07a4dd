ghost use Rattle.std.specs.Prelude.{◌≡◌, ◌+◌, ◌-◌, ◌^◌, ◌↔◌, min, IsTrue};
ghost use Rattle.std.specs.List.{Contains};

use mc_base::List;
use std::marker::Model;

/// Calls that are numbered from 0, and the numbers of those that shall fail.
#[derive(Drop)]
pub(crate) struct Plan {
    listed: List<u32>,
    calls: u64,
}

impl Model for Plan {
    ghost use Rattle.mc_stage.specs.Scenario.{Numbered};

    ghost Value = { Numbered };

    ghost view = { λ p. record { listed = p.listed; calls = p.calls } };
}

impl Plan {
    /// No call was made yet.
    pub(crate) fn of(listed: List<u32>) -> Plan
        ensures { result ≡ record { listed = listed; calls = 0 } }
    {
        Plan { listed, calls: 0 }
    }

    /// Counts one more call, and tells whether it is listed.
    pub(crate) fn next(&mut self) -> bool
        ensures counted { self.new ≡ record self.old { calls = min (self.old.calls + 1) (2 ^ 64 - 1) } }
        ensures listed { IsTrue result ↔ Contains self.old.listed self.old.calls }
    {
        let number = self.calls;
        self.calls = number.saturating_add(1);
        self.listed.slice().iter().any(|n| u64::from(*n) == number)
    }

    /// How many calls were made, up to 2^64 - 1.
    pub(crate) fn calls(&self) -> u64
        ensures { result ≡ self.now.calls }
    {
        self.calls
    }
}
