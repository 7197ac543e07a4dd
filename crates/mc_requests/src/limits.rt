ghost use Rattle.std.specs.Prelude.{◌↔◌, IsTrue};

/// What a house may grow to: the bytes of its journal, 64 to 2^40, and the pieces of one series, 1 to
/// 2^32. Each call that takes limits has these ranges as a condition.
#[derive(Clone, Copy, Debug, PartialEq, Eq)]
pub struct Limits {
    pub journal: u64,
    pub series: u64,
}

impl Limits {
    ghost use Rattle.mc_requests.specs.Limits.{AreInRange};

    /// The least bytes that a journal may be limited to.
    pub const LEAST_JOURNAL: u64 = 64;

    /// The most bytes of a journal.
    pub const MOST_JOURNAL: u64 = 1 << 40;

    /// The most pieces of one series.
    pub const MOST_SERIES: u64 = 1 << 32;

    /// The two greatest limits, under which the program runs.
    pub const FULL: Limits = Limits {
        journal: Limits::MOST_JOURNAL,
        series: Limits::MOST_SERIES,
    };

    /// Whether the two limits are in their ranges.
    pub fn are_in_range(&self) -> bool
        ensures { IsTrue result ↔ AreInRange self.now }
    {
        (Limits::LEAST_JOURNAL..=Limits::MOST_JOURNAL).contains(&self.journal)
            && (1..=Limits::MOST_SERIES).contains(&self.series)
    }
}
