ghost use Rattle.std.specs.Prelude.{◌≡◌, ◌+◌, ◌<◌, ◌≤◌, ◌^◌, ◌==◌, ◌||◌, ◌&&◌, ℕ, [], length, vec_len, filter, Some, None, false, IsTrue, IsOk, IfOk, IfErr, OnOk, OnErr, All, if◌then◌else◌};
ghost use Rattle.scrip_form.specs.Identities.{series_of};
ghost use Rattle.spent_windows.specs.Windows.{window_of, bit_of, is_marked, end_of, has_room, ends_after, lasts, later_than, AreInOrder, IsCompact};
ghost use Rattle.spent_windows.specs.Store.{IsAt, IsGapFor, IsAdded};

use crate::look::{Fresh, Look};
use crate::steps::Steps;
use crate::window::Window;
use mc_base::{Moment, NoMemory};
use scrip_form::Id;
use std::alloc::Global;
use std::marker::Model;

/// The serials of a window.
const SERIALS: u64 = 4096;

/// Into how many rows the series are put: enough that those in use mostly have a row each.
const ROWS: usize = 16;

/// Which identities are spent, as windows of 4,096 serials of one series, a bit for each. A window takes
/// 512 bytes of bits while it isn't full, and none then; it is dropped at the end of its series.
///
/// Contracts see the list of the windows in the order of their numbers, and ask `is_marked`, `end_of`
/// and `has_room` of an identity.
#[derive(Drop)]
pub struct Windows {
    /// In the order of their numbers.
    windows: Vec<Window>,
    /// How far the number of the window that was reserved last is ahead of its place, for each of the
    /// `ROWS` rows of series. Where the windows of a series have no gap, this leads to the place of each.
    ahead: [u64; ROWS],
    /// No window ends before.
    first_end: u64,
}

impl Model for Windows {
    ghost use Rattle.std.specs.Prelude.{List};
    ghost use Rattle.spent_windows.specs.Windows.{WindowView};
    ghost use Rattle.spent_windows.specs.Store.{AreStored};

    ghost Value = { List WindowView };

    ghost view = { λ w. w.windows.items };

    ghost invariant = { λ w. AreStored w.windows.items w.first_end };
}

impl Windows {
    ghost use Rattle.spent_windows.specs.Looks.{Tells};

    /// No windows, so no identity is marked. It takes no memory; `reserve` takes it of `alloc`.
    pub fn new(alloc: Global) -> Windows
        ensures windows { result ≡ [] }
        ensures marked { (k : ℕ) → is_marked result k ≡ false }
        ensures ends { (k : ℕ) → end_of result k ≡ None }
    {
        Windows {
            windows: Vec::new(alloc),
            ahead: [0; ROWS],
            first_end: u64::MAX,
        }
    }

    /// The number of windows. No two of them are of the same serials, and none that is full keeps bits.
    pub fn count(&self) -> usize
        ensures count { result ≡ length self.now }
        ensures order { AreInOrder self.now }
        ensures compact { All IsCompact self.now }
    {
        self.windows.len()
    }

    /// Makes room to mark an identity, whose series ends at `end`, in seconds since 1970: its window is
    /// there then, with this end. All windows of the series have to be reserved with the same end.
    /// Where there is room it is `Ok` and takes no memory. What is marked stays as it is, and after an
    /// `Err` all is as it was.
    pub fn reserve(&mut self, id: Id, end: u64) -> Result<(), NoMemory>
        requires { (k e : ℕ)
            → series_of k ≡ series_of id → end_of self.old k ≡ Some e → e ≡ end }
        ensures ok { OnOk result ((k : ℕ)
            → end_of self.new k ≡ (if window_of id == window_of k then Some end else end_of self.old k)) }
        ensures count { OnOk result (
            length self.new ≡ length self.old + (if has_room self.old id then 0 else 1)) }
        ensures err { OnErr result (self.new ≡ self.old) }
        ensures same { (k : ℕ) → is_marked self.new k ≡ is_marked self.old k }
        ensures again { IsTrue (has_room self.old id) → IsOk result }
    {
        let number = window_of(id);
        let row = row_of(number);
        match place_of(&self.windows, self.ahead[row], number, &mut Steps::start()) {
            Ok(place) => {
                self.ahead[row] = number.wrapping_sub(place as u64);
                Ok(())
            }
            Err(place) => {
                add(&mut self.windows, place, number, end)?;
                self.ahead[row] = number.wrapping_sub(place as u64);
                self.first_end = self.first_end.min(end);
                Ok(())
            }
        }
    }

    /// Whether an identity is marked; if not, the answer proves that it was asked for. Each window that is
    /// looked at is a step: one at least where there are windows, and at most one more than their number
    /// has binary digits. It takes no memory.
    pub fn has<L>(&self, id: Id, steps: &mut Steps<L>) -> Look
        ensures told { Tells self.now id result }
        ensures looked { 0 < length self.now → steps.old < steps.new }
        ensures rising { steps.old ≤ steps.new }
        ensures bound { (digits : ℕ)
            → length self.now < 2 ^ digits → steps.new ≤ steps.old + digits + 1 }
    {
        let ahead = self.ahead[row_of(window_of(id))];
        if is_marked(&self.windows, ahead, id, steps) {
            Look::Marked
        } else {
            Look::New(Fresh::of(id, self))
        }
    }

    /// Marks an identity for which there is room, and no other. An identity that is marked stays so. It
    /// takes no memory.
    pub fn mark(&mut self, id: Id)
        requires { IsTrue (has_room self.old id) }
        ensures marked { (k : ℕ) → is_marked self.new k ≡ (is_marked self.old k || (id == k)) }
        ensures ends { (k : ℕ) → end_of self.new k ≡ end_of self.old k }
        ensures count { length self.new ≡ length self.old }
    {
        let number = window_of(id);
        let ahead = self.ahead[row_of(number)];
        let place = place_of(&self.windows, ahead, number, &mut Steps::start()).unwrap();
        let window = &mut self.windows[place];
        window.mark(bit_of(id));
    }

    /// Drops the windows whose end is at most this moment, and no others: from the end of its series on a
    /// window is gone, and not a second before. It takes no memory.
    pub fn forget(&mut self, now: Moment)
        ensures windows { self.new ≡ filter (ends_after now) self.old }
        ensures marked { (k : ℕ)
            → is_marked self.new k ≡ (is_marked self.old k && lasts now (end_of self.old k)) }
        ensures ends { (k : ℕ) → end_of self.new k ≡ later_than now (end_of self.old k) }
    {
        let now = now.seconds();
        if self.first_end <= now {
            drop_ended(&mut self.windows, now);
            self.first_end = first_end(&self.windows);
        }
    }
}

/// Puts a window without a mark at a place. After an `Err`, which is for want of memory, the windows are
/// as they were.
fn add(windows: &mut Vec<Window>, place: usize, number: u64, end: u64) -> Result<(), NoMemory>
    requires { place ≤ vec_len windows.old }
    ensures ok { OnOk result (IsAdded windows.old.items windows.new.items place number end) }
    ensures err { OnErr result (windows.new.items ≡ windows.old.items) }
{
    let alloc = *windows.allocator();
    windows.insert(place, Window::blank(alloc, number, end)?)?;
    Ok(())
}

/// Keeps the windows that end after a time.
fn drop_ended(windows: &mut Vec<Window>, now: u64)
    ensures { windows.new.items ≡ filter (ends_after now) windows.old.items }
{
    windows.retain(|window| now < window.end());
}

/// A time before which no window ends.
fn first_end(windows: &[Window]) -> u64
    ensures { All (λ w. result ≤ w.end) windows.now }
{
    let mut first = u64::MAX;
    for window in windows {
        first = first.min(window.end());
    }
    first
}

/// Whether an identity is marked.
fn is_marked<L>(windows: &[Window], ahead: u64, id: Id, steps: &mut Steps<L>) -> bool
    requires { AreInOrder windows.now }
    ensures marked { result ≡ is_marked windows.now id }
    ensures looked { 0 < length windows.now → steps.old < steps.new }
    ensures rising { steps.old ≤ steps.new }
    ensures bound { (digits : ℕ)
        → length windows.now < 2 ^ digits → steps.new ≤ steps.old + digits + 1 }
{
    match place_of(windows, ahead, window_of(id), steps) {
        Ok(place) => windows[place].has(bit_of(id)),
        Err(_) => false,
    }
}

/// The number of the window of an identity.
fn window_of(id: Id) -> u64
    ensures { result ≡ window_of id }
{
    id.number() / SERIALS
}

/// The row of the series of a window, by its epoch and its issuer: series whose epochs follow one another
/// have different rows.
fn row_of(number: u64) -> usize
    ensures { result < ROWS }
{
    (((number >> 20) ^ (number >> 44).wrapping_mul(5)) % ROWS as u64) as usize
}

/// The bit of an identity in its window.
fn bit_of(id: Id) -> usize
    ensures { result ≡ bit_of id }
{
    (id.number() % SERIALS) as usize
}

/// The place of the window of a number; `Err` with the place for it where there is none. The window that
/// a guess leads to is looked at first.
fn place_of<L>(
    windows: &[Window],
    ahead: u64,
    number: u64,
    steps: &mut Steps<L>,
) -> Result<usize, usize>
    requires { AreInOrder windows.now }
    ensures found { IfOk result (IsAt windows.now number) }
    ensures gap { IfErr result (IsGapFor windows.now number) }
    ensures looked { 0 < length windows.now → steps.old < steps.new }
    ensures rising { steps.old ≤ steps.new }
    ensures bound { (digits : ℕ)
        → length windows.now < 2 ^ digits → steps.new ≤ steps.old + digits + 1 }
{
    let guess = number.wrapping_sub(ahead);
    if guess < windows.len() as u64 && windows[guess as usize].look(steps) == number {
        return Ok(guess as usize);
    }
    search(windows, number, steps)
}

/// The same by halving, without a guess.
fn search<L>(windows: &[Window], number: u64, steps: &mut Steps<L>) -> Result<usize, usize>
    requires { AreInOrder windows.now }
    ensures found { IfOk result (IsAt windows.now number) }
    ensures gap { IfErr result (IsGapFor windows.now number) }
    ensures looked { 0 < length windows.now → steps.old < steps.new }
    ensures rising { steps.old ≤ steps.new }
    ensures bound { (digits : ℕ)
        → length windows.now < 2 ^ digits → steps.new ≤ steps.old + digits }
{
    let mut low = 0;
    let mut high = windows.len();
    while low < high {
        let middle = low + (high - low) / 2;
        let there = windows[middle].look(steps);
        if there == number {
            return Ok(middle);
        }
        if there < number {
            low = middle + 1;
        } else {
            high = middle;
        }
    }
    Err(low)
}
