ghost use Rattle.std.specs.Prelude.{◌≡◌, ◌≤◌, ◌<◌, ◌+◌, length, take, slice_get, Some, IfSome};
ghost use Rattle.mc_records.specs.Views.{entry};
ghost use Rattle.mc_records.specs.Entry as entries;
ghost use Rattle.mc_records.specs.Entry.{Fits};

use ledger_model::History;
use mc_records::Record;
use std::marker::Model;

/// The first entries of a history, as many as it counts, on which definitions are evaluated.
/// Contracts see it as the history that these entries are.
#[derive(Drop)]
pub struct Prefix<'a> {
    history: &'a History,
    count: usize,
}

impl<'a> Model for Prefix<'a> {
    ghost use Rattle.std.specs.Prelude.{List, ◌≤◌, length, take};
    ghost use Rattle.mc_records.specs.Entry.{Entry};

    ghost Value = { List Entry };

    ghost view = { λ f. take f.count f.history.now };

    ghost invariant = { λ f. f.count ≤ length f.history.now };
}

impl<'a> Prefix<'a> {
    /// All entries of a history.
    pub fn whole(history: &'a History) -> Prefix<'a>
        ensures { result ≡ history.now }
    {
        let count = history.len();
        Prefix { history, count }
    }

    /// The first so many of the entries.
    pub fn first(&self, count: usize) -> Prefix<'a>
        requires { count ≤ length self.now }
        ensures { result ≡ take count self.now }
    {
        Prefix {
            history: self.history,
            count,
        }
    }

    /// The entries up to and with that of a number.
    pub fn through(&self, n: usize) -> Prefix<'a>
        requires { n < length self.now }
        ensures { result ≡ take (n + 1) self.now }
    {
        let all = self.count;
        let count = if n < all { n + 1 } else { all };
        self.first(count)
    }

    /// How many entries there are.
    pub fn len(&self) -> usize
        ensures { result ≡ length self.now }
    {
        self.count
    }

    /// The entry of a number.
    pub fn record(&self, n: usize) -> Record<'_>
        requires { n < length self.now }
        ensures found { slice_get self.now n ≡ Some (entry result) }
        ensures fits { Fits (entry result) }
    {
        match self.history.get(n) {
            Some(record) => record,
            None => unreachable!(),
        }
    }

    /// The payload of the entry of a number.
    pub fn payload(&self, n: usize) -> &[u8]
        requires { n < length self.now }
        ensures { IfSome (slice_get self.now n) (λ e. result.now ≡ entries.payload e) }
    {
        match self.history.payload(n) {
            Some(payload) => payload,
            None => unreachable!(),
        }
    }
}
