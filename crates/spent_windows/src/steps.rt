ghost use Rattle.std.specs.Prelude.{◌≡◌, ◌+◌};

use crate::counter::Counter;
use std::marker::Model;

/// The marker of steps that anybody may begin to count.
#[derive(Clone, Copy, Debug)]
pub struct Plain;

/// How many windows were looked at: a step is one window looked at, and nothing else changes the
/// number. It has no bytes, and contracts see it as the number. The marker `L` keeps counts apart: only
/// one of the marker [`Plain`] can be begun, so code for any `L` has no other count than the one that
/// it is given.
#[derive(Drop)]
pub struct Steps<L> {
    counter: Counter<L>,
}

impl<L> Model for Steps<L> {
    ghost use Rattle.std.specs.Prelude.{ℕ};

    ghost Value = { ℕ };

    ghost view = { λ s. s.counter.count };
}

impl Steps<Plain> {
    /// A count that begins at 0.
    pub fn start() -> Steps<Plain>
        ensures { result ≡ 0 }
    {
        Steps {
            counter: Counter::zero(),
        }
    }
}

impl<L> Steps<L> {
    /// One step more.
    pub(crate) fn tick(&mut self)
        ensures { self.new ≡ self.old + 1 }
    {
        self.counter = self.counter.next();
    }
}
