ghost use Rattle.std.specs.Prelude.{◌≡◌, ℕ, ◌<◌, ◌^◌, ◌-◌, ◌↔◌, IsSome, IfSome, min};

use std::marker::Model;

/// A moment, in whole seconds since 1970 without leap seconds, below 2^35 (in the year 3058).
/// Contracts see it as the number of seconds.
#[derive(Clone, Copy, Debug, PartialEq, Eq, PartialOrd, Ord)]
pub struct Moment {
    seconds: u64,
}

impl Model for Moment {
    ghost Value = { ℕ };

    ghost view = { λ m. m.seconds };

    ghost invariant = { λ m. m.seconds < 2 ^ 35 };

    ghost inverse = { λ n. record { seconds = n } };
}

impl Moment {
    /// The last moment, 2^35 - 1 seconds after 1970 began.
    pub const LAST: u64 = (1 << 35) - 1;

    /// The moment `n` seconds after 1970 began; None exactly from 2^35 on.
    pub fn new(n: u64) -> Option<Moment>
        ensures valid { IsSome result ↔ (n < 2 ^ 35) }
        ensures value { IfSome result (λ m. m ≡ n) }
    {
        if n <= Moment::LAST {
            Some(Moment { seconds: n })
        } else {
            None
        }
    }

    /// The moment `n` seconds after 1970 began, or the last moment where `n` lies past it, as a
    /// clock's reading is brought into range.
    pub fn clamped(n: u64) -> Moment
        ensures { result ≡ min n (2 ^ 35 - 1) }
    {
        Moment {
            seconds: n.min(Moment::LAST),
        }
    }

    /// The number of seconds since 1970 began.
    pub fn seconds(self) -> u64
        ensures seconds { result ≡ self }
        ensures last { self < 2 ^ 35 }
    {
        self.seconds
    }
}
