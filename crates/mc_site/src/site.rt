ghost use Rattle.std.specs.Prelude.{◌≡◌, false};

use crate::book::Book;
use crate::faults::counted;
use crate::passed::{Keeping, Passed};
use mc_base::Moment;
use mc_door::Source;
use mc_outside::{Disk, DiskFault, Doors, Link, LinkFault, Outside};
use std::alloc::Global;
use std::fs::OpenFile;
use std::io;
use std::io::{ErrorKind, Write};
use std::marker::Model;
use std::os::unix::fs::FileExt;
use std::rt::Clock;
use std::time::{SystemTime, UNIX_EPOCH};

/// The outside of the program: a book, links from a source, a writer for what is said, and a clock. It
/// tells nothing of the bytes. Contracts see how many of its calls failed and where its links stand, as the record
/// `Silent`.
#[derive(Drop)]
pub struct Site<F, S, W, C> {
    book: Book<F>,
    source: S,
    output: W,
    clock: C,
    stands: bool,
    at_end: bool,
    over: bool,
    link_faults: u64,
    // what the system said of the last fault of a link, and of one in saying a line
    link_fault: Option<io::Error>,
    said_fault: Option<io::Error>,
    // what passes through
    keeping: Keeping,
}

impl<F, S, W, C> Model for Site<F, S, W, C> {
    ghost use Rattle.mc_outside.specs.Silent.{Silent};

    ghost Value = { Silent };

    ghost view = { λ s. record { disk_faults = s.book; link_faults = s.link_faults; stands = s.stands; at_end = s.at_end; over = s.over } };
}

impl<F, S: Source, W: Write, C: Clock> Site<F, S, W, C> {
    /// The outside of these parts. No link stands, and none has failed.
    pub fn new(book: Book<F>, source: S, output: W, clock: C) -> Site<F, S, W, C>
        ensures book { result.disk_faults ≡ book }
        ensures fresh { (result.stands ≡ false) × (result.over ≡ false) × (result.link_faults ≡ 0) }
    {
        Site {
            book,
            source,
            output,
            clock,
            stands: false,
            at_end: false,
            over: false,
            link_faults: 0,
            link_fault: None,
            said_fault: None,
            keeping: Keeping::none(),
        }
    }

    /// Keeps from now on what passes through, so that it can be told of.
    pub fn keep(&mut self, alloc: Global)
        ensures { self.new ≡ self.old }
    {
        self.keeping = Keeping::new(alloc);
    }

    /// The book of it.
    pub fn book(&self) -> &Book<F>
        ensures { result.now ≡ self.now.disk_faults }
    {
        &self.book
    }

    /// Where its links come from.
    pub fn source(&self) -> &S {
        &self.source
    }

    /// What lines are said on.
    pub fn output(&self) -> &W {
        &self.output
    }

    /// What the system said of the last fault of a link.
    pub fn link_fault(&self) -> Option<io::Error> {
        self.link_fault
    }

    /// How many calls of links failed, and of saying a line, up to the greatest number.
    pub fn link_faults(&self) -> u64
        ensures { result ≡ self.now.link_faults }
    {
        self.link_faults
    }

    /// What the system said where a line could not be said.
    pub fn said_fault(&self) -> Option<io::Error> {
        self.said_fault
    }

    /// What passed through, where it is kept.
    pub fn passed(&self) -> Option<&Passed> {
        self.keeping.passed()
    }

    /// Sees for a bounded time to what is still under way to peers, and gives back the book.
    pub fn finish(mut self) -> Book<F>
    where
        S: Drop,
        W: Drop,
        C: Drop,
        ensures { result ≡ self.disk_faults }
    {
        self.source.finish();
        self.book
    }
}

impl<F: OpenFile + FileExt, S: Source, W: Write, C: Clock> Disk for Site<F, S, W, C> {
    ghost use Rattle.mc_outside.specs.Silent.{silent_disk, SilentDiskMoved, silent_is_disk, silent_disk_none, silent_disk_then, silent_disk_goes};

    ghost disk = { λ s. silent_disk s };

    ghost disk_moved = { λ a b. SilentDiskMoved a b };

    ghost is_disk = { λ s. silent_is_disk s };

    ghost disk_stays = { λ a. silent_disk_none _ };

    ghost disk_goes_on = { λ a b c m n. silent_disk_then _ _ _ m n };

    ghost disk_goes = { λ a b m. silent_disk_goes _ _ m };

    fn size(&mut self) -> Result<u64, DiskFault> {
        self.book.size()
    }

    fn read(&mut self, at: u64, buf: &mut [u8]) -> Result<usize, DiskFault> {
        self.book.read(at, buf)
    }

    fn write_at(&mut self, at: u64, bytes: &[u8]) -> Result<(), DiskFault> {
        self.keeping.write(bytes);
        self.book.write_at(at, bytes)
    }

    fn cut(&mut self, size: u64) -> Result<(), DiskFault> {
        self.book.cut(size)
    }

    fn sync(&mut self) -> Result<(), DiskFault> {
        self.book.sync()
    }
}

impl<F: OpenFile + FileExt, S: Source, W: Write, C: Clock> Link for Site<F, S, W, C> {
    ghost use Rattle.mc_outside.specs.Silent.{silent_link, SilentLinkMoved, silent_is_link, silent_link_none, silent_link_then, silent_link_goes};

    ghost link = { λ s. silent_link s };

    ghost link_moved = { λ a b. SilentLinkMoved a b };

    ghost is_link = { λ s. silent_is_link s };

    ghost link_stays = { λ a. silent_link_none _ };

    ghost link_goes_on = { λ a b c m n. silent_link_then _ _ _ m n };

    ghost link_goes = { λ a b m. silent_link_goes _ _ m };

    fn next_link(&mut self) -> Result<bool, LinkFault> {
        self.stands = false;
        if self.over {
            return Ok(false);
        }
        let answer = self.source.next();
        let more = counted(
            &mut self.link_faults,
            &mut self.link_fault,
            answer,
            LinkFault,
        )?;
        self.stands = more;
        self.over = !more;
        self.at_end = self.at_end && !more;
        Ok(more)
    }

    fn recv(&mut self, buf: &mut [u8]) -> Result<usize, LinkFault> {
        if self.at_end || buf.is_empty() {
            return Ok(0);
        }
        let answer = self.source.recv(buf);
        let n = counted(
            &mut self.link_faults,
            &mut self.link_fault,
            answer,
            LinkFault,
        )?;
        self.at_end = n == 0;
        self.keeping.receive(buf, n);
        Ok(n)
    }

    fn send(&mut self, bytes: &[u8]) -> Result<usize, LinkFault> {
        let answer = match self.source.send(bytes) {
            Ok(0) if !bytes.is_empty() => Err(ErrorKind::WriteZero.into()),
            answer => answer,
        };
        counted(
            &mut self.link_faults,
            &mut self.link_fault,
            answer,
            LinkFault,
        )
    }

    fn end_link(&mut self) {
        self.source.end();
        self.stands = false;
    }

    fn say(&mut self, bytes: &[u8]) -> Result<(), LinkFault> {
        self.keeping.say(bytes);
        let answer = self.output.write_all(bytes);
        counted(
            &mut self.link_faults,
            &mut self.said_fault,
            answer,
            LinkFault,
        )
    }

    fn now(&mut self) -> Moment {
        Moment::clamped(reading(&self.clock))
    }
}

/// The reading of a clock in seconds since 1970; 0 where it can't be read.
pub fn reading<C: Clock>(clock: &C) -> u64 {
    match SystemTime::now(clock) {
        Ok(time) => match time.duration_since(UNIX_EPOCH) {
            Ok(since) => since.as_secs(),
            Err(_) => 0,
        },
        Err(_) => 0,
    }
}

impl<F: OpenFile + FileExt, S: Source, W: Write, C: Clock> Outside for Site<F, S, W, C> {
    ghost use Rattle.mc_outside.specs.Silent.{silent_link_keeps, silent_sent};

    ghost link_keeps = { λ a b m. silent_link_keeps _ _ m };

    ghost disk_keeps = { λ a b m. m.links };

    ghost sent_aside = { λ a ss e. silent_sent a ss e };
}

impl<F: OpenFile + FileExt, S: Source, W: Write, C: Clock> Doors for Site<F, S, W, C> {
    fn is_operators(&self) -> bool {
        self.source.is_operators()
    }
}
