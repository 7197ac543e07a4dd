//! Who opens a book.

ghost use Rattle.std.specs.Prelude.{◌≡◌, ◌+◌, ◌≤◌, ◌↔◌, [], List, IsTrue, true, IfOk, OnOk};
ghost use Rattle.mc_records.specs.Chains.{chain, is_switch};
ghost use Rattle.mc_records.specs.Entry.{Entry, Fits};
ghost use Rattle.mc_records.specs.Sizes.{size, entry_size};
ghost use Rattle.mc_records.specs.Views.{entry};
ghost use Rattle.mc_requests.specs.declared.limits.TheConstants.Limits.{MOST_JOURNAL};
ghost use Rattle.scrip_journal.specs.Causes.{FoundsSite};
ghost use Rattle.book_opening.specs.Opener.{OpenerView, Learns, IsSite};

use mc_records::Record;
use scrip_journal::LearnFault;
use std::alloc::Global;

/// Who opens a book: it says which entries may follow which, books of which kinds of site are opened, and
/// what learns their entries.
pub trait Opener: Drop {
    /// What learns the entries: what keeps of them what its calls need.
    type Learner: Drop;

    // What the opener means.
    ghost opener: { Self → OpenerView Self.Learner };

    /// Whether books of a site of this kind are opened.
    fn opens(&self, kind: u8) -> bool
        ensures { IsTrue result ↔ (opener self.now).kinds kind };

    /// Begins with the first entry of a book, which founds a site of a kind that is opened. `Unlawful` comes
    /// exactly where the entry may not come first. It takes memory.
    fn begin(self, alloc: Global, first: &Record<'_>) -> Result<Self::Learner, LearnFault>
        requires ready { (opener self).ready }
        requires fits { Fits (entry first.now) }
        requires kind { FoundsSite (opener self).kinds (entry first.now) }
        ensures belongs { IfOk result (opener self).belongs }
        ensures exact { Learns (opener self).may (opener self).holds [] (entry first.now) result };

    /// Whether an entry may be learned, by the chain of the entries before it, which is given for a Switch alone; for any
    /// other entry any 32 bytes are.
    fn is_told(r: &Record<'_>, before: &[u8; 32]) -> bool
        ensures { (o : Self) (h : List Entry) → (is_switch (entry r.now) ≡ true → before.now ≡ chain h)
            → IsTrue result ↔ (opener o).asks h (entry r.now) };

    /// Learns the next entry of a book, of which `is_told` said that it may be learned. `Unlawful` comes exactly where
    /// it may not follow those before it. After an `Err` nothing is said of the learner. It takes memory.
    fn learn(learner: &mut Self::Learner, r: &Record<'_>) -> Result<(), LearnFault>
        requires fits { Fits (entry r.now) }
        ensures belongs { (o : Self) → (opener o).belongs learner.old
            → OnOk result ((opener o).belongs learner.new) }
        ensures exact { (o : Self) (h : List Entry) → (opener o).belongs learner.old
            → (opener o).holds learner.old h
            → (opener o).asks h (entry r.now)
            → size h + entry_size h (entry r.now) ≤ MOST_JOURNAL
            → Learns (opener o).may (λ u. (opener o).holds learner.new) h (entry r.now) result };

    /// Only a Site entry may come first.
    ghost site_first: { (o : Self) (e : Entry) → (opener o).may [] e → IsSite e };

    /// Only an entry of which that is found may follow.
    ghost told_first: { (o : Self) (h : List Entry) (e : Entry) → (opener o).may h e → (opener o).asks h e };
}
