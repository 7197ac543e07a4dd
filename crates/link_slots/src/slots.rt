ghost use Rattle.std.specs.Prelude.{◌≡◌, ◌<◌, ℕ, is_some, IsTrue, Some};
ghost use Rattle.mc_outside.specs.DiskView.{LinkKeeps};
ghost use Rattle.link_slots.specs.SlotsView.{SlotsView, SlotsStay, WorksHere, SendsBehind, TurnKeeps};

use mc_outside::{Disk, Link};

/// Links that stand side by side, one in each slot: a slot has links one after another, as a [`Link`] has. The calls of Link
/// speak of the slot that is turned to, and no call changes what the links of another slot mean. Which links are those of the
/// operator each slot tells of its own, as any links do (`doors` of a `LinkView`).
///
/// Which slot is turned to next is the implementation's choice: one whose link has a whole item to take, or was read to its
/// end, or a free one for which a link waits. So no link that is silent or slow holds up another.
pub trait Slots: Link {
    /// What the links of all slots mean now.
    ghost slots: { Self → SlotsView };

    /// Turns alone lead from the one to the other.
    ghost turned: { Self → Self → Type 0 };

    /// How many slots there are: one at least.
    fn count(&self) -> usize
        ensures count { result ≡ (slots self.now).count }
        ensures some { 0 < result };

    /// Turns to a slot.
    fn turn_to(&mut self, slot: usize)
        requires { slot < (slots self.old).count }
        ensures turned { turned self.old self.new }
        ensures at { (slots self.new).at ≡ slot };

    /// Turns to the slot whose link has been ready for the longest time, and answers which it is. Where `more` is false no
    /// new link counts as ready. With `wait` it waits for one; without it None is answered where none is ready now.
    fn turn(&mut self, wait: bool, more: bool) -> Option<usize>
        ensures turned { turned self.old self.new }
        ensures within { (slots self.new).at < (slots self.new).count }
        ensures at { (n : ℕ) → result ≡ Some n → n ≡ (slots self.new).at }
        ensures waited { IsTrue wait → result ≡ Some (slots self.new).at };

    /// The calls of Link speak of the slot that is turned to.
    ghost here: { (a : Self) → Self.link a ≡ (slots a).slot (slots a).at };

    /// Where one slot tells the bytes of its links, all do.
    ghost alike: { (a : Self) (p q : ℕ) → is_some ((slots a).slot p).sessions ≡ is_some ((slots a).slot q).sessions };

    /// Where calls of Link alone were made, the other slots stay.
    ghost works_here: { (a b : Self) → Self.link_moved a b → WorksHere (slots a) (slots b) };

    /// Where turns alone were made, all slots stay.
    ghost turns_stay: { (a b : Self) → turned a b → SlotsStay (slots a) (slots b) };

    ghost turned_none: { (a : Self) → turned a a };

    ghost turned_then: { (a b c : Self) → turned a b → turned b c → turned a c };
}

/// A disk, and links side by side, as one value, with what ties the two: no call of the one changes the other, and the crash
/// pairs of the disk speak of the bytes sent over all slots, in the order in which they were sent.
pub trait Sides: Disk + Slots {
    /// Where calls of Link alone were made, the disk stays, and the crash pairs grow by the images of now, each with a prefix
    /// of what was sent.
    ghost link_keeps: { (a b : Self) → Self.link_moved a b → LinkKeeps (Self.disk a) (Self.disk b) };

    /// What they sent is behind all that was sent.
    ghost sends_behind: { (a b : Self) → Self.link_moved a b → SendsBehind (Self.link a) (Self.link b) (Self.disk a) (Self.disk b) };

    /// Turns leave the disk, and send nothing.
    ghost turn_keeps: { (a b : Self) → Self.turned a b → TurnKeeps (Self.disk a) (Self.disk b) };

    /// Where calls of Disk alone were made, all slots stay, and the turn.
    ghost disk_keeps: { (a b : Self) → Self.disk_moved a b → SlotsStay (Self.slots a) (Self.slots b) × ((Self.slots b).at ≡ (Self.slots a).at) };
}
