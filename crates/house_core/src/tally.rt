//! How the items were answered that a house served.

ghost use Rattle.std.specs.Prelude.{◌≡◌, ℕ, ◌+◌, ◌≤◌, ◌^◌, [], ◌∷◌};
ghost use Rattle.mc_records.specs.Entry.{Entry};
ghost use Rattle.ledger_model.specs.Sums.{price_paid};
ghost use Rattle.house_core.specs.Tallies.{AreCounts, IsWithin, Taken, Repeated, RefusedBy, change_given, counted, no_tally, tallied, told_stop};

use house_state::NotAuthorized;
use mc_requests::Refusal;

/// How many items were answered in which way, and the sums that the accepted requests paid and were given
/// back. A count stays at the greatest number of its type once it is there.
#[derive(Clone, Copy, Debug)]
pub struct Tally {
    /// Requests that were taken, each with a new entry.
    pub taken: u64,
    /// Requests that came again within the keeping time.
    pub again: u64,
    /// Refusals 26: the series of the piece had ended.
    pub expired: u64,
    /// Refusals 27: the piece was spent.
    pub spent: u64,
    /// Refusals 31: the piece was worth less than the price.
    pub little: u64,
    /// Refusals of any other number.
    pub other: u64,
    /// Refusals 90: memory was refused.
    pub memory: u64,
    /// The prices of the requests that were taken, summed up.
    pub takings: u128,
    /// What they were given as change, summed up.
    pub change: u128,
}

impl Tally {
    /// Nothing was served yet.
    pub(crate) fn none() -> Tally
        ensures { result ≡ no_tally }
    {
        Tally {
            taken: 0,
            again: 0,
            expired: 0,
            spent: 0,
            little: 0,
            other: 0,
            memory: 0,
            takings: 0,
            change: 0,
        }
    }

    /// Counts a request that was taken at a price, with change of this worth.
    pub(crate) fn take(&mut self, price: u64, change: u64)
        ensures within { (entries : ℕ) → IsWithin entries self.old → IsWithin (entries + 1) self.new }
        ensures counted { (e : Entry) (entries : ℕ) → IsWithin entries self.old → entries ≤ 2 ^ 40
            → price_paid e ≡ price → change_given e ≡ change
            → self.new ≡ tallied self.old (Taken e ∷ []) }
    {
        self.taken = one_more(self.taken);
        self.takings = self.takings.saturating_add(u128::from(price));
        self.change = self.change.saturating_add(u128::from(change));
    }

    /// Counts a request that came again.
    pub(crate) fn repeat(&mut self)
        ensures within { (entries : ℕ) → IsWithin entries self.old → IsWithin entries self.new }
        ensures counted { AreCounts self.old → self.new ≡ tallied self.old (Repeated ∷ []) }
    {
        self.again = one_more(self.again);
    }

    /// Counts a refusal.
    pub(crate) fn refuse(&mut self, refusal: &Refusal)
        ensures within { (entries : ℕ) → IsWithin entries self.old → IsWithin entries self.new }
        ensures counted { AreCounts self.old → self.new ≡ tallied self.old (RefusedBy refusal.now ∷ []) }
    {
        match refusal {
            Refusal::Expired(_, _) => self.expired = one_more(self.expired),
            Refusal::Spent => self.spent = one_more(self.spent),
            Refusal::TooLittle(_) => self.little = one_more(self.little),
            Refusal::NoMemory => self.memory = one_more(self.memory),
            _ => self.other = one_more(self.other),
        }
    }

    /// Counts a request that makes no entry.
    pub(crate) fn stop(&mut self, stopped: &NotAuthorized)
        ensures within { (entries : ℕ) → IsWithin entries self.old → IsWithin entries self.new }
        ensures counted { AreCounts self.old → self.new ≡ tallied self.old (told_stop stopped.now ∷ []) }
    {
        match stopped {
            NotAuthorized::Refused(refusal) => self.refuse(refusal),
            NotAuthorized::Again(_) => self.repeat(),
        }
    }
}

/// One more, where there is one.
fn one_more(count: u64) -> u64
    ensures { result ≡ counted count 1 }
{
    count.saturating_add(1)
}
