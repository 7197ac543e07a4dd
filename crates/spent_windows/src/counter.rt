ghost use Rattle.std.specs.Prelude.{◌≡◌, ◌+◌, ℕ};
ghost use Rattle.std.specs.Borrow.{ftrue};

use std::marker::{Model, PhantomData};

/// A number that only contracts read, for a marker `L`. It has no bytes, and its methods do nothing at
/// run time. The standard library has such numbers in `std::sync::ledger`, but there none can be begun
/// for a marker that is given, as [`Steps::start`](crate::Steps::start) does.
#[derive(Drop)]
pub(crate) struct Counter<L> {
    of: PhantomData<L>,
    pub(crate) ghost count: { ℕ },
}

impl<L> Model for Counter<L> {
    ghost also_owns = { λ _. ftrue };
}

impl<L> Counter<L> {
    /// The number 0.
    pub(crate) fn zero() -> Counter<L>
        ensures { result.count ≡ 0 }
    {
        Counter { of: PhantomData }
    }

    /// The number that follows.
    pub(crate) fn next(&self) -> Counter<L>
        ensures { result.count ≡ self.now.count + 1 }
    {
        Counter { of: PhantomData }
    }
}
