ghost use Rattle.std.specs.Prelude.{◌≡◌, [], ◌≤◌, IsTrue};
ghost use Rattle.play_heads.specs.Telling.{no_links};

use crate::supply::Supply;
use crate::told::{Note, Telling};
use mc_base::Moment;
use mc_outside::{Link, LinkFault};

/// How many heads a link has at most.
const LINK_HEADS: u32 = 1000;

/// The heads of a play as links in memory, of 1,000 heads each but for the last one, which has the rest.
/// A link that is ended early leaves its other heads out. A head is made when the one before it was given
/// whole, so no more than one is kept. What is sent and said is taken whole and not kept. The clock gives
/// 0, 1, 2 and so on, so that a site that reads it once for each head answers head i at the moment i. No
/// call fails.
#[derive(Drop)]
pub struct Heads {
    /// How many heads there are.
    pub(crate) count: u32,
    /// The first head of the next link.
    pub(crate) end: u32,
    /// What is still to come on the link taken last.
    pub(crate) supply: Supply,
    /// Whether the links before that one were received whole.
    pub(crate) whole: bool,
    /// The next reading.
    pub(crate) clock: Moment,
    pub(crate) telling: Telling,
    ghost within: { end ≤ count },
    pub(crate) ghost at_end: { IsTrue telling.told.view.at_end → supply ≡ [] },
    pub(crate) ghost over: { IsTrue telling.told.view.over → count ≤ end },
}

impl Heads {
    ghost use Rattle.std.specs.Prelude.{◌↔◌};
    ghost use Rattle.play_heads.specs.Receiving.{HasPlayed};
    ghost use Rattle.play_heads.specs.Playing.{count_of, link_of, Plays};

    /// The heads of a play of so many, of which nothing was received yet.
    pub fn new(count: u32) -> Heads
        ensures count { count_of result ≡ count }
        ensures untouched { link_of result ≡ no_links }
        ensures plays { Plays result }
    {
        Heads {
            count,
            end: 0,
            supply: Supply::between(0, 0),
            whole: true,
            clock: Moment::clamped(0),
            telling: Telling::nothing(),
        }
    }

    /// Whether every head was received, on its link.
    pub fn is_done(&self) -> bool
        ensures done { Plays self.now → IsTrue result ↔ HasPlayed (count_of self.now) (link_of self.now) }
    {
        if self.end != self.count {
            return false;
        }
        self.are_whole()
    }

    /// Whether the links taken so far were received whole.
    fn are_whole(&self) -> bool
        ensures { IsTrue result ↔ (IsTrue self.now.whole × (self.now.supply ≡ [])) }
    {
        if !self.whole {
            return false;
        }
        self.supply.is_empty()
    }
}

impl Link for Heads {
    ghost use Rattle.play_heads.specs.Playing.{link_of, PlaysOn, plays_is_link, plays_stay, plays_then, plays_goes};

    ghost link = { λ h. link_of h };

    ghost link_moved = { λ a b. PlaysOn a b };

    ghost is_link = { λ a. plays_is_link a };

    ghost link_stays = { λ a. plays_stay a };

    ghost link_goes_on = { λ a b c m n. plays_then a b c m n };

    ghost link_goes = { λ a b m. plays_goes a b m };

    fn next_link(&mut self) -> Result<bool, LinkFault> {
        if self.end == self.count {
            self.telling.note(&Note::NoneLeft);
            return Ok(false);
        }
        let first = self.end;
        self.whole = self.are_whole();
        self.end = first + (self.count - first).min(LINK_HEADS);
        self.supply = Supply::between(first, self.end);
        self.telling.note(&Note::Taken);
        Ok(true)
    }

    fn recv(&mut self, buf: &mut [u8]) -> Result<usize, LinkFault> {
        let n = self.supply.give(buf);
        if n == 0 && !buf.is_empty() {
            self.telling.note(&Note::ReadToEnd);
        } else {
            self.telling.note(&Note::Received(&buf[..n]));
        }
        Ok(n)
    }

    fn send(&mut self, bytes: &[u8]) -> Result<usize, LinkFault> {
        self.telling.note(&Note::Sent(bytes));
        Ok(bytes.len())
    }

    fn end_link(&mut self) {
        self.telling.note(&Note::Ended);
    }

    fn say(&mut self, bytes: &[u8]) -> Result<(), LinkFault> {
        self.telling.note(&Note::Said(bytes));
        Ok(())
    }

    fn now(&mut self) -> Moment {
        let reading = self.clock;
        self.clock = Moment::clamped(reading.seconds() + 1);
        self.telling.note(&Note::Read(reading));
        reading
    }
}
