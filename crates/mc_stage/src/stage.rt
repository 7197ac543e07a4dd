ghost use Rattle.std.specs.Prelude.{◌≡◌, ◌+◌, ◌-◌, ◌≤◌, ◌^◌, ◌*◌, ◌%◌, min, length, take, drop, IfOk, if◌then◌else◌};
ghost use Rattle.std.specs.Prelude.{◌==◌};
ghost use Rattle.std.specs.List.{list_any};
ghost use Rattle.mc_stage.specs.Scenario.{without_empty, first_link, links_of};
ghost use Rattle.mc_stage.specs.Image.{image_from, fill};

use crate::clock::Clock;
use crate::pieces::{Pieces, copy_part};
use crate::plan::Plan;
use crate::tape::Tape;
use mc_base::{List, Moment, NoMemory};
use mc_outside::{Disk, DiskFault, Doors, Link, LinkFault, Outside};
use std::alloc::Global;

/// The calls that shall fail, by number. Fallible calls of Disk, and apart from them of Link, are
/// numbered from 0.
#[derive(Debug, Drop)]
pub struct Failing {
    pub disk: List<u32>,
    pub link: List<u32>,
}

/// An outside in memory, which tells everything.
///
/// A call that is listed fails and does nothing else. A call that is refused memory fails, does
/// nothing else, and is counted by [`Stage::starved`]. No other call fails.
#[derive(Drop)]
pub struct Stage {
    pub(crate) alloc: Global,
    pub(crate) tape: Tape,
    pub(crate) disk_plan: Plan,
    pub(crate) link_plan: Plan,
    pub(crate) faults: u64,
    pub(crate) link_faults: u64,
    pub(crate) starved: u32,
    pub(crate) links: Vec<Vec<Vec<u8>>>,
    pub(crate) pieces: Pieces,
    pub(crate) stands: bool,
    pub(crate) over: bool,
    pub(crate) said: Vec<u8>,
    pub(crate) clock: Clock,
    pub(crate) given: Vec<Moment>,
    pub(crate) lost: bool,
    /// The numbers of the links that come through the operator's door.
    pub(crate) doors: Vec<u32>,
}

/// One fault more; the count stops at its last value.
fn raise(count: &mut u64)
    ensures raised { count.new ≡ min (count.old + 1) (2 ^ 64 - 1) }
    ensures grows { count.old ≤ count.new }
{
    let before = *count;
    *count = before.saturating_add(1);
}

/// One call more that was refused memory; the count stops at its last value.
fn raise_starved(count: &mut u32)
    ensures { count.new ≡ min (count.old + 1) (2 ^ 32 - 1) }
{
    let before = *count;
    *count = before.saturating_add(1);
}

/// Takes the next link's pieces; the links to come are kept with the next one last.
fn take_pieces(alloc: Global, links: &mut Vec<Vec<Vec<u8>>>) -> Pieces
    ensures pieces { result ≡ without_empty (first_link (links_of links.old.items)) }
    ensures links { links_of links.new.items ≡ drop 1 (links_of links.old.items) }
{
    match links.pop() {
        Some(pieces) => Pieces::of(pieces),
        None => Pieces::none(alloc),
    }
}

/// The byte that a choice puts at a place that isn't synced.
fn fill_byte(choice: u64, place: u64) -> u8
    ensures { result ≡ fill choice place }
{
    ((choice as u128 * place as u128 + 1) % 256) as u8
}

/// The bytes that are synced, and filled ones in place of the others.
fn filled(alloc: Global, choice: u64, bytes: &[u8], marks: &[bool]) -> Result<Vec<u8>, NoMemory>
    requires { length marks.now ≡ length bytes.now }
    ensures { IfOk result (λ v. v.items ≡ image_from choice 0 bytes.now marks.now) }
{
    let mut image = Vec::new(alloc);
    for (place, byte) in bytes.iter().enumerate() {
        let kept = if marks[place] {
            *byte
        } else {
            fill_byte(choice, place as u64)
        };
        image.push(kept)?;
    }
    Ok(image)
}

impl Stage {
    ghost use Rattle.std.specs.Prelude.{[], None, Some, false, true, slice_get, option_map, map, reverse};
    ghost use Rattle.mc_stage.specs.Stage.{trace_of, scenario_of};
    ghost use Rattle.mc_stage.specs.Model.{Trace, model, untouched, link_of};
    ghost use Rattle.mc_stage.specs.Image.{chosen};

    /// A stage with these contents, which count as synced. Each link is a list of pieces; one
    /// `recv` gives at most the rest of one piece, and empty pieces are passed over. Readings are
    /// brought into the range of a moment; after the last one the last is repeated, and with none
    /// the reading is 0.
    pub fn new(
        alloc: Global,
        contents: Vec<u8>,
        links: Vec<Vec<Vec<u8>>>,
        readings: Vec<u64>,
        failing: Failing,
    ) -> Result<Stage, NoMemory>
        ensures trace { IfOk result (λ s. trace_of s ≡ untouched contents.items) }
        // Nothing was called yet: the links and readings are all to come, in their order.
        ensures scenario { IfOk result (λ s. scenario_of s ≡ record {
          disk = record { listed = failing.disk; calls = 0 };
          link = record { listed = failing.link; calls = 0 };
          links = map (λ l. map (λ v. v.items) l.items) links.items;
          pieces = [];
          readings = record { all = map (λ r. min r (2 ^ 35 - 1)) readings.items; left = map (λ r. min r (2 ^ 35 - 1)) readings.items };
          starved = 0;
        }) }
    {
        let clock = Clock::of(alloc, &readings)?;
        let Failing { disk, link } = failing;
        Stage::start(alloc, contents, links, clock, disk, link)
    }

    fn start(
        alloc: Global,
        contents: Vec<u8>,
        mut links: Vec<Vec<Vec<u8>>>,
        clock: Clock,
        disk: List<u32>,
        link: List<u32>,
    ) -> Result<Stage, NoMemory>
        ensures trace { IfOk result (λ s. trace_of s ≡ untouched contents.items) }
        ensures scenario { IfOk result (λ s. scenario_of s ≡ record {
          disk = record { listed = disk; calls = 0 };
          link = record { listed = link; calls = 0 };
          links = map (λ l. map (λ v. v.items) l.items) links.items;
          pieces = [];
          readings = clock;
          starved = 0;
        }) }
    {
        let tape = Tape::new(alloc, contents)?;
        links.reverse();
        Ok(Stage {
            alloc,
            tape,
            disk_plan: Plan::of(disk),
            link_plan: Plan::of(link),
            faults: 0,
            link_faults: 0,
            starved: 0,
            links,
            pieces: Pieces::none(alloc),
            stands: false,
            over: false,
            said: Vec::new(alloc),
            clock,
            given: Vec::new(alloc),
            lost: false,
            doors: Vec::new(alloc),
        })
    }

    /// What a crash now may leave: with 0 what a read gives, with 1 what the last sync left, and
    /// with any other `choice` the present size, where each byte that isn't synced is the low byte
    /// of `choice` times its place, plus 1. The new stage has no links, the same readings from the
    /// first on, and no failing calls.
    pub fn crash(self, choice: u64) -> Result<Stage, NoMemory>
        ensures image { IfOk result (λ s. (model (trace_of s)).contents ≡ chosen choice (model (trace_of self))) }
        // It is an image of the disk as it was.
        ensures possible { IfOk result (λ s. (model (trace_of self)).leaves (model (trace_of s)).contents) }
        ensures scenario { IfOk result (λ s. scenario_of s ≡ record {
          disk = record { listed = []; calls = 0 };
          link = record { listed = []; calls = 0 };
          links = [];
          pieces = [];
          readings = record (scenario_of self).readings { left = (scenario_of self).readings.all };
          starved = 0;
        }) }
        ensures fresh { IfOk result (λ s. trace_of s ≡ untouched (model (trace_of s)).contents) }
    {
        let bytes = self.image(choice)?;
        let alloc = self.alloc;
        let links = Vec::new(alloc);
        let none = List::of(Vec::new(alloc));
        let nothing = List::of(Vec::new(alloc));
        Stage::start(alloc, bytes, links, self.clock.restarted(), none, nothing)
    }

    fn image(&self, choice: u64) -> Result<Vec<u8>, NoMemory>
        ensures { IfOk result (λ v. v.items ≡ chosen choice (model (trace_of self.now))) }
    {
        if choice == 0 {
            let bytes = self.tape.bytes().to_vec(self.alloc)?;
            return Ok(bytes);
        }
        if choice == 1 {
            let bytes = self.tape.kept().to_vec(self.alloc)?;
            return Ok(bytes);
        }
        filled(self.alloc, choice, self.tape.bytes(), self.tape.marks())
    }

    /// The same stage, whose links of these numbers, from 0, come through the operator's door.
    pub fn through_door(mut self, doors: Vec<u32>) -> Stage
        ensures trace { trace_of result ≡ record (trace_of self) { doors = doors.items } }
        ensures scenario { scenario_of result ≡ scenario_of self }
    {
        self.doors = doors;
        self
    }

    /// The bytes sent on one link, numbered from 0; None exactly where fewer links were taken.
    pub fn sent(&self, link: usize) -> Option<&[u8]>
        ensures { option_map (λ b. b.now) result
            ≡ option_map (λ s. s.sent) (slice_get (model (trace_of self.now)).sessions link) }
    {
        self.tape.sent(link)
    }

    /// The bytes said.
    pub fn said(&self) -> &[u8]
        ensures { result.now ≡ (trace_of self.now).said }
    {
        &self.said
    }

    /// What a read gives.
    pub fn contents(&self) -> &[u8]
        ensures { result.now ≡ (model (trace_of self.now)).contents }
    {
        self.tape.bytes()
    }

    /// Whether a link stands, on which bytes can be received and sent.
    #[tactic(auto, using(crate::proofs::Links::taken_where_sent, crate::proofs::Links::none_where_unsent))]
    pub fn stands(&self) -> bool
        ensures { result ≡ (link_of (trace_of self.now)).stands }
    {
        match self.tape.sent(0) {
            Some(_) => self.stands,
            None => false,
        }
    }

    /// How many calls of the disk were made that can fail, and how many of links, each up to 2^64 - 1.
    pub fn calls(&self) -> (u64, u64)
        ensures disk { result.0 ≡ (scenario_of self.now).disk.calls }
        ensures link { result.1 ≡ (scenario_of self.now).link.calls }
    {
        (self.disk_plan.calls(), self.link_plan.calls())
    }

    /// How many calls failed since memory was refused, up to 2^32 - 1.
    pub fn starved(&self) -> u32
        ensures { result ≡ (scenario_of self.now).starved }
    {
        self.starved
    }
}

impl Disk for Stage {
    ghost use Rattle.std.specs.Prelude.{◌↔◌, ◌⊎◌, ◌++◌, List, ℕ, IfOk, OnOk, OnErr, option_map};
    ghost use Rattle.mc_outside.specs.Bytes.{put, Told, HasCause};
    ghost use Rattle.mc_outside.specs.DiskView.{CallPairs, Follows, LeavesNoMore, IsSynced, Torn, CutShort};
    ghost use Rattle.mc_stage.specs.Stage.{scenario_of, disk_view};
    ghost use Rattle.mc_stage.specs.Scenario.{DiskPlanned, OnlyDiskCalled};
    ghost use Rattle.mc_stage.specs.Stage.{trace_of};
    ghost use Rattle.mc_stage.specs.Model.{disk_of, DiskMoved, DiskFailed};
    ghost use Rattle.mc_stage.specs.Trace.{is_disk, disk_none, disk_then, disk_goes};

    ghost disk = { λ s. disk_of (trace_of s) };

    ghost disk_moved = { λ a b. DiskMoved (trace_of a) (trace_of b) };

    ghost is_disk = { λ a. is_disk (trace_of a) };

    ghost disk_stays = { λ a. disk_none (trace_of a) };

    ghost disk_goes_on = { λ a b c m n. disk_then (trace_of a) (trace_of b) (trace_of c) m n };

    ghost disk_goes = { λ a b m. disk_goes (trace_of a) (trace_of b) m };

    fn size(&mut self) -> Result<u64, DiskFault>
        ensures moved { DiskMoved (trace_of self.old) (trace_of self.new) }
        ensures pairs { CallPairs (disk_view self.old) (disk_view self.new) }
        ensures cause { HasCause (disk_view self.old).faults (disk_view self.new).faults result }
        ensures same { (disk_view self.new).contents ≡ (disk_view self.old).contents }
        ensures crash { LeavesNoMore (disk_view self.old) (disk_view self.new) }
        ensures length { IfOk result (λ n. (x : List ℕ) → (disk_view self.old).contents ≡ Some x
            → n ≡ length x) }
        ensures plan { DiskPlanned (scenario_of self.old) (scenario_of self.new) result }
        ensures scenario { OnlyDiskCalled (scenario_of self.old) (scenario_of self.new) }
        ensures nothing { OnErr result (DiskFailed (trace_of self.old) (trace_of self.new)) }
    {
        if self.disk_plan.next() {
            raise(&mut self.faults);
            return Err(DiskFault);
        }
        Ok(self.tape.bytes().len() as u64)
    }

    fn read(&mut self, at: u64, buf: &mut [u8]) -> Result<usize, DiskFault>
        ensures moved { DiskMoved (trace_of self.old) (trace_of self.new) }
        ensures pairs { CallPairs (disk_view self.old) (disk_view self.new) }
        ensures cause { HasCause (disk_view self.old).faults (disk_view self.new).faults result }
        ensures same { (disk_view self.new).contents ≡ (disk_view self.old).contents }
        ensures crash { LeavesNoMore (disk_view self.old) (disk_view self.new) }
        ensures room { IfOk result (λ n. n ≤ length buf.old) }
        ensures bytes { IfOk result (λ n. (x : List ℕ) → (disk_view self.old).contents ≡ Some x
            → buf.new ≡ take n (drop at x) ++ drop n buf.old) }
        ensures end { IfOk result (λ n. (x : List ℕ) → (disk_view self.old).contents ≡ Some x
            → (n ≡ 0) ↔ ((length buf.old ≡ 0) ⊎ (length x ≤ at))) }
        ensures plan { DiskPlanned (scenario_of self.old) (scenario_of self.new) result }
        ensures scenario { OnlyDiskCalled (scenario_of self.old) (scenario_of self.new) }
        ensures nothing { OnErr result (DiskFailed (trace_of self.old) (trace_of self.new)) }
    {
        if self.disk_plan.next() {
            raise(&mut self.faults);
            return Err(DiskFault);
        }
        Ok(copy_part(self.tape.bytes(), at as usize, buf))
    }

    fn write_at(&mut self, at: u64, bytes: &[u8]) -> Result<(), DiskFault>
        requires { at + length bytes.now ≤ 2 ^ 40 }
        ensures moved { DiskMoved (trace_of self.old) (trace_of self.new) }
        ensures pairs { CallPairs (disk_view self.old) (disk_view self.new) }
        ensures cause { HasCause (disk_view self.old).faults (disk_view self.new).faults result }
        ensures written { OnOk result ((disk_view self.new).contents
            ≡ option_map (put at bytes.now) (disk_view self.old).contents) }
        ensures failed { OnErr result (Told (Torn at (length bytes.now)) (disk_view self.old).contents (disk_view self.new).contents) }
        ensures crash { Follows (Torn at (length bytes.now)) (disk_view self.old) (disk_view self.new) }
        ensures plan { DiskPlanned (scenario_of self.old) (scenario_of self.new) result }
        ensures scenario { OnlyDiskCalled (scenario_of self.old) (scenario_of self.new) }
        ensures nothing { OnErr result (DiskFailed (trace_of self.old) (trace_of self.new)) }
    {
        if self.disk_plan.next() {
            raise(&mut self.faults);
            return Err(DiskFault);
        }
        if self.tape.write(at, bytes).is_err() {
            raise_starved(&mut self.starved);
            raise(&mut self.faults);
            return Err(DiskFault);
        }
        Ok(())
    }

    fn cut(&mut self, size: u64) -> Result<(), DiskFault>
        ensures moved { DiskMoved (trace_of self.old) (trace_of self.new) }
        ensures pairs { CallPairs (disk_view self.old) (disk_view self.new) }
        ensures cause { HasCause (disk_view self.old).faults (disk_view self.new).faults result }
        ensures cut { OnOk result ((disk_view self.new).contents
            ≡ option_map (take size) (disk_view self.old).contents) }
        ensures failed { OnErr result (Told (CutShort size) (disk_view self.old).contents (disk_view self.new).contents) }
        ensures crash { Follows (CutShort size) (disk_view self.old) (disk_view self.new) }
        ensures plan { DiskPlanned (scenario_of self.old) (scenario_of self.new) result }
        ensures scenario { OnlyDiskCalled (scenario_of self.old) (scenario_of self.new) }
        ensures nothing { OnErr result (DiskFailed (trace_of self.old) (trace_of self.new)) }
    {
        if self.disk_plan.next() {
            raise(&mut self.faults);
            return Err(DiskFault);
        }
        if self.tape.cut(size).is_err() {
            raise_starved(&mut self.starved);
            raise(&mut self.faults);
            return Err(DiskFault);
        }
        Ok(())
    }

    fn sync(&mut self) -> Result<(), DiskFault>
        ensures moved { DiskMoved (trace_of self.old) (trace_of self.new) }
        ensures pairs { CallPairs (disk_view self.old) (disk_view self.new) }
        ensures cause { HasCause (disk_view self.old).faults (disk_view self.new).faults result }
        ensures same { (disk_view self.new).contents ≡ (disk_view self.old).contents }
        ensures crash { LeavesNoMore (disk_view self.old) (disk_view self.new) }
        ensures synced { OnOk result (IsSynced (disk_view self.new)) }
        ensures plan { DiskPlanned (scenario_of self.old) (scenario_of self.new) result }
        ensures scenario { OnlyDiskCalled (scenario_of self.old) (scenario_of self.new) }
        ensures nothing { OnErr result (DiskFailed (trace_of self.old) (trace_of self.new)) }
    {
        if self.disk_plan.next() {
            raise(&mut self.faults);
            return Err(DiskFault);
        }
        if self.tape.sync().is_err() {
            raise_starved(&mut self.starved);
            raise(&mut self.faults);
            return Err(DiskFault);
        }
        Ok(())
    }
}

impl Link for Stage {
    ghost use Rattle.std.specs.Prelude.{◌<◌, ◌⊎◌, ◌++◌, [], ◌∷◌, List, ℕ, IfOk, OnOk, OnErr, IsTrue, true, false, option_map};
    ghost use Rattle.mc_outside.specs.Bytes.{Told, AddsPart, HasCause};
    ghost use Rattle.mc_outside.specs.LinkView.{Failed, next_taken, none_left, after_recv, after_send, after_eof};
    ghost use Rattle.mc_stage.specs.Stage.{scenario_of, link_view};
    ghost use Rattle.mc_stage.specs.Scenario.{LinkPlanned, OnlyLinkCalled, first_piece, pieces_after, first_reading, next_readings};
    ghost use Rattle.mc_stage.specs.Stage.{trace_of};
    ghost use Rattle.mc_stage.specs.Model.{link_of, LinkMoved, LinkFailed};
    ghost use Rattle.mc_stage.specs.Trace.{is_link, link_none, link_then, link_goes};

    ghost link = { λ s. link_of (trace_of s) };

    ghost link_moved = { λ a b. LinkMoved (trace_of a) (trace_of b) };

    ghost is_link = { λ a. is_link (trace_of a) };

    ghost link_stays = { λ a. link_none (trace_of a) };

    ghost link_goes_on = { λ a b c m n. link_then (trace_of a) (trace_of b) (trace_of c) m n };

    ghost link_goes = { λ a b m. link_goes (trace_of a) (trace_of b) m };

    fn next_link(&mut self) -> Result<bool, LinkFault>
        ensures moved { LinkMoved (trace_of self.old) (trace_of self.new) }
        ensures cause { HasCause (link_view self.old).faults (link_view self.new).faults result }
        ensures over { IfOk result (λ more. IsTrue more → (link_view self.old).over ≡ false) }
        ensures taken { IfOk result (λ more. link_view self.new
            ≡ (if more then next_taken (link_view self.old) else none_left (link_view self.old))) }
        ensures failed { OnErr result (link_view self.new
            ≡ record (link_view self.old) { stands = false; faults = (link_view self.new).faults }) }
        ensures plan { LinkPlanned (scenario_of self.old) (scenario_of self.new) result }
        ensures nothing { OnErr result (LinkFailed (record (trace_of self.old) { stands = false }) (trace_of self.new)) }
        ensures others { scenario_of self.new ≡ record (scenario_of self.old) {
          link = (scenario_of self.new).link;
          starved = (scenario_of self.new).starved;
          links = (scenario_of self.new).links;
          pieces = (scenario_of self.new).pieces;
        } }
        ensures next { IfOk result (λ more. IsTrue more
            → ((scenario_of self.new).links ≡ drop 1 (scenario_of self.old).links)
            × ((scenario_of self.new).pieces ≡ without_empty (first_link (scenario_of self.old).links))) }
        ensures none { IfOk result (λ more. more ≡ false
            → ((trace_of self.old).over ≡ true) ⊎ ((scenario_of self.old).links ≡ [])) }
    {
        self.stands = false;
        if self.link_plan.next() {
            raise(&mut self.link_faults);
            return Err(LinkFault);
        }
        if self.over || self.links.is_empty() {
            self.over = true;
            return Ok(false);
        }
        if self.tape.take_link().is_err() {
            raise_starved(&mut self.starved);
            raise(&mut self.link_faults);
            return Err(LinkFault);
        }
        self.pieces = take_pieces(self.alloc, &mut self.links);
        self.stands = true;
        Ok(true)
    }

    fn recv(&mut self, buf: &mut [u8]) -> Result<usize, LinkFault>
        requires { IsTrue (link_view self.old).stands }
        ensures moved { LinkMoved (trace_of self.old) (trace_of self.new) }
        ensures cause { HasCause (link_view self.old).faults (link_view self.new).faults result }
        ensures room { IfOk result (λ n. n ≤ length buf.old) }
        ensures rest { IfOk result (λ n. drop n buf.new ≡ drop n buf.old) }
        ensures heard { IfOk result (λ n. 0 < n ⊎ (length buf.old ≡ 0)
            → link_view self.new ≡ after_recv (take n buf.new) (link_view self.old)) }
        ensures end { IfOk result (λ n. n ≡ 0 → 0 < length buf.old
            → link_view self.new ≡ after_eof (link_view self.old)) }
        ensures stays_at_end { IfOk result (λ n. IsTrue (link_view self.old).at_end → n ≡ 0) }
        ensures failed { OnErr result (Failed (link_view self.old) (link_view self.new)) }
        ensures plan { LinkPlanned (scenario_of self.old) (scenario_of self.new) result }
        ensures nothing { OnErr result (LinkFailed (trace_of self.old) (trace_of self.new)) }
        ensures others { scenario_of self.new ≡ record (scenario_of self.old) {
          link = (scenario_of self.new).link;
          starved = (scenario_of self.new).starved;
          pieces = (scenario_of self.new).pieces;
        } }
        ensures pieces { IfOk result (λ n. (0 < n → (scenario_of self.new).pieces ≡ pieces_after n (scenario_of self.old).pieces)
            × (n ≡ 0 → (scenario_of self.new).pieces ≡ (scenario_of self.old).pieces)) }
        ensures given { IfOk result (λ n. take n buf.new ≡ take n (first_piece (scenario_of self.old).pieces)) }
        ensures count { IfOk result (λ n. (link_view self.old).at_end ≡ false → n
            ≡ min (length buf.old) (length (first_piece (scenario_of self.old).pieces))) }
    {
        if self.link_plan.next() {
            raise(&mut self.link_faults);
            return Err(LinkFault);
        }
        if buf.is_empty() {
            return Ok(0);
        }
        let n = if self.tape.at_end() {
            0
        } else {
            self.pieces.peek(buf)
        };
        if n == 0 {
            if self.tape.end().is_err() {
                raise_starved(&mut self.starved);
                raise(&mut self.link_faults);
                return Err(LinkFault);
            }
            return Ok(0);
        }
        if self.tape.hear(&buf[..n]).is_err() {
            raise_starved(&mut self.starved);
            raise(&mut self.link_faults);
            return Err(LinkFault);
        }
        self.pieces.advance(n);
        Ok(n)
    }

    fn send(&mut self, bytes: &[u8]) -> Result<usize, LinkFault>
        requires { IsTrue (link_view self.old).stands }
        ensures moved { LinkMoved (trace_of self.old) (trace_of self.new) }
        ensures cause { HasCause (link_view self.old).faults (link_view self.new).faults result }
        ensures room { IfOk result (λ n. n ≤ length bytes.now) }
        ensures some { IfOk result (λ n. 0 < length bytes.now → 0 < n) }
        ensures sent { IfOk result (λ n. link_view self.new ≡ after_send (take n bytes.now) (link_view self.old)) }
        ensures failed { OnErr result (Failed (link_view self.old) (link_view self.new)) }
        ensures plan { LinkPlanned (scenario_of self.old) (scenario_of self.new) result }
        ensures scenario { OnlyLinkCalled (scenario_of self.old) (scenario_of self.new) }
        ensures nothing { OnErr result (LinkFailed (trace_of self.old) (trace_of self.new)) }
        ensures whole { IfOk result (λ n. n ≡ length bytes.now) }
    {
        if self.link_plan.next() {
            raise(&mut self.link_faults);
            return Err(LinkFault);
        }
        if self.tape.send(bytes).is_err() {
            raise_starved(&mut self.starved);
            raise(&mut self.link_faults);
            return Err(LinkFault);
        }
        Ok(bytes.len())
    }

    fn end_link(&mut self)
        ensures moved { LinkMoved (trace_of self.old) (trace_of self.new) }
        ensures ended { link_view self.new ≡ record (link_view self.old) { stands = false } }
        ensures scenario { scenario_of self.new ≡ scenario_of self.old }
    {
        self.stands = false;
    }

    fn say(&mut self, bytes: &[u8]) -> Result<(), LinkFault>
        ensures moved { LinkMoved (trace_of self.old) (trace_of self.new) }
        ensures cause { HasCause (link_view self.old).faults (link_view self.new).faults result }
        ensures said { OnOk result (link_view self.new
            ≡ record (link_view self.old) { said = option_map (λ s. s ++ bytes.now) (link_view self.old).said }) }
        ensures failed { OnErr result (link_view self.new
            ≡ record (link_view self.old) { faults = (link_view self.new).faults; said = (link_view self.new).said }) }
        ensures failed_said { OnErr result (Told (AddsPart bytes.now) (link_view self.old).said (link_view self.new).said) }
        ensures plan { LinkPlanned (scenario_of self.old) (scenario_of self.new) result }
        ensures scenario { OnlyLinkCalled (scenario_of self.old) (scenario_of self.new) }
        ensures nothing { OnErr result (LinkFailed (trace_of self.old) (trace_of self.new)) }
    {
        if self.link_plan.next() {
            raise(&mut self.link_faults);
            return Err(LinkFault);
        }
        if self.said.extend_from_slice(bytes).is_err() {
            raise_starved(&mut self.starved);
            raise(&mut self.link_faults);
            return Err(LinkFault);
        }
        Ok(())
    }

    fn now(&mut self) -> Moment
        ensures moved { LinkMoved (trace_of self.old) (trace_of self.new) }
        ensures rest { link_view self.new ≡ record (link_view self.old) { readings = (link_view self.new).readings } }
        ensures read { (rs : List ℕ) → (link_view self.new).readings ≡ Some rs
            → (qs : List ℕ) × ((link_view self.old).readings ≡ Some qs) × (rs ≡ qs ++ result ∷ []) }
        ensures reading { result ≡ first_reading (scenario_of self.old).readings.left }
        ensures left { scenario_of self.new ≡ record (scenario_of self.old) {
          readings = record (scenario_of self.old).readings { left = next_readings (scenario_of self.old).readings.left };
        } }
    {
        let reading = self.clock.next();
        if !self.lost && self.given.push(reading).is_err() {
            self.lost = true;
        }
        reading
    }
}

impl Doors for Stage {
    ghost use Rattle.std.specs.Prelude.{IsTrue};
    ghost use Rattle.mc_outside.specs.LinkView.{IsWhose};
    ghost use Rattle.mc_stage.specs.Stage.{link_view};

    fn is_operators(&self) -> bool
        ensures { IsWhose (link_view self.now) result }
    {
        has_last(&self.doors, self.tape.links())
    }
}

/// Whether the number of the last of so many links is among these.
fn has_last(doors: &[u32], links: u64) -> bool
    ensures { result ≡ list_any (λ n. n + 1 == links) doors.now }
{
    doors.iter().any(|n| u64::from(*n) + 1 == links)
}

impl Outside for Stage {
    ghost use Rattle.mc_stage.specs.Stage.{trace_of, sent_is};
    ghost use Rattle.mc_stage.specs.Trace.{link_keeps, disk_keeps};

    ghost link_keeps = { λ a b m. link_keeps (trace_of a) (trace_of b) m };

    ghost disk_keeps = { λ a b m. disk_keeps (trace_of a) (trace_of b) m };

    ghost sent_aside = { λ a ss e. sent_is (trace_of a) ss e };
}
