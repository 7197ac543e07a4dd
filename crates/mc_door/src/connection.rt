ghost use Rattle.std.specs.Io.{ReadsAtMost, WritesAtMost};

use crate::commands::Commands;
use millicent_http::ends_item;
use mio::event::Source;
use mio::net::TcpStream;
use mio::{Interest, Registry, Token};
use std::alloc::Global;
use std::io;
use std::io::{ErrorKind, Read, Write};
use std::net::Shutdown;
use std::time::{Duration, Instant};

/// How many seconds a connection may take for its first item.
const WAITING: u64 = 30;

/// How many seconds an operator's connection may be silent between two commands, and how many one may take that began.
const SILENT: u64 = 600;

const TELLING: u64 = 30;

/// How many times bytes of an operator's commands are taken in one go.
const READS: u32 = 64;

/// How many seconds a peer may take nothing of what is left for it, or not end its side, once its link is over.
const LEAVING: u64 = 10;

/// How many seconds it may take in all.
const LONGEST_LEAVING: u64 = 120;

/// The most bytes that are kept for a peer which does not take them: the longest reply, a page of 4,096 bytes
/// and contents of 65,536.
const MOST_KEPT: usize = 69_632;

/// How many times bytes of the peer are taken, and dropped, in one go after the site's last byte.
const LAST_READS: u32 = 16;

/// What a connection is at.
#[derive(Clone, Copy, Debug, PartialEq, Eq)]
pub(crate) enum Stage {
    /// Its bytes end no item yet. They stay with the system. An operator's are read: they are no command whole yet, or its
    /// peer has not taken the answers of before.
    Waiting,
    /// Its bytes end an item, or its peer has ended it. An operator's begin with a command whole.
    Ready,
    /// It is that of the standing link.
    Standing,
    /// Its link is ended; what is left for the peer goes its way.
    Leaving,
}

/// What a look at the bytes of a waiting connection shows.
pub(crate) enum Look {
    /// They end an item, or nothing more comes.
    Item,
    /// They end no item.
    Part,
    /// They are no command of the operator's, and no more come.
    Over,
    /// The connection broke.
    Gone,
}

/// A connection, none of whose calls waits.
#[derive(Drop)]
pub(crate) struct Connection {
    stream: TcpStream,
    stage: Stage,
    // when its stage began
    since: Instant,
    // when its link last moved a byte
    moved: Instant,
    // whether some bytes came, which end no item
    begun: bool,
    // what was sent on the link and the system did not take yet: the bytes from `gone` on
    kept: Vec<u8>,
    gone: usize,
    // whether the poll tells when more can be sent
    watched: bool,
    // whether the peer's end was read
    at_end: bool,
    // whether the peer was told of the site's end
    told: bool,
    // of an operator's: what came of its commands
    commands: Option<Commands>,
    // whether bytes were to be sent on its link that were not taken
    owes: bool,
}

impl Connection {
    ghost use Rattle.std.specs.Prelude.{◌≡◌, ◌⊎◌, false, IsNone};

    /// A connection of a customer's, or of the operator's.
    pub(crate) fn new(
        alloc: Global,
        stream: TcpStream,
        is_operators: bool,
        now: Instant,
    ) -> Connection {
        Connection {
            stream,
            stage: Stage::Waiting,
            since: now,
            moved: now,
            begun: false,
            kept: Vec::new(alloc),
            gone: 0,
            watched: false,
            at_end: false,
            told: false,
            commands: if is_operators {
                Some(Commands::new(alloc))
            } else {
                None
            },
            owes: false,
        }
    }

    /// Whether it came through the operator's door.
    pub(crate) fn is_operators(&self) -> bool {
        self.commands.is_some()
    }

    pub(crate) fn stage(&self) -> Stage {
        self.stage
    }

    /// Since when it has been at its stage.
    pub(crate) fn since(&self) -> Instant {
        self.since
    }

    /// How long it has been at its stage.
    pub(crate) fn age(&self, now: Instant) -> Duration {
        now.duration_since(self.since)
    }

    /// How long its link has moved no byte.
    pub(crate) fn silence(&self, now: Instant) -> Duration {
        now.duration_since(self.moved)
    }

    /// Whether it waits, and some of its bytes are there.
    pub(crate) fn has_begun(&self) -> bool {
        self.begun && self.stage == Stage::Waiting
    }

    pub(crate) fn enter(&mut self, stage: Stage, now: Instant) {
        self.stage = stage;
        self.since = now;
        self.moved = now;
    }

    /// Whether its time is over.
    pub(crate) fn is_overdue(&self, now: Instant) -> bool
        ensures stays { (self.now.stage ≡ Stage.Ready) ⊎ (self.now.stage ≡ Stage.Standing) → result ≡ false }
    {
        let age = self.age(now).as_secs();
        match self.stage {
            Stage::Waiting => age >= self.patience(),
            Stage::Leaving => age >= LONGEST_LEAVING || self.silence(now).as_secs() >= LEAVING,
            Stage::Ready | Stage::Standing => false,
        }
    }

    /// How many seconds it may wait.
    fn patience(&self) -> u64 {
        if !self.is_operators() {
            WAITING
        } else if self.begun {
            TELLING
        } else {
            SILENT
        }
    }

    /// Whether it may go for others while it waits: where it does so since before `young`; an operator's where no part of a
    /// command is there.
    fn may_go(&self, young: Instant) -> bool {
        if self.is_operators() {
            !self.begun
        } else {
            self.since <= young
        }
    }

    /// Of those that may make room for another, the one with the least of these goes first: one whose peer
    /// has all, one that waits and may go, one whose peer does not take what it was sent, each time
    /// the oldest. None where it may not go.
    pub(crate) fn rank(&self, young: Instant) -> Option<(u8, Instant)>
        ensures stays { (self.now.stage ≡ Stage.Ready) ⊎ (self.now.stage ≡ Stage.Standing) → IsNone result }
    {
        match self.stage {
            Stage::Leaving if self.has_kept() => Some((2, self.since)),
            Stage::Leaving => Some((0, self.since)),
            Stage::Waiting if self.may_go(young) => Some((1, self.since)),
            Stage::Waiting | Stage::Ready | Stage::Standing => None,
        }
    }

    /// Looks at the bytes that came, and leaves them where they are; an operator's are taken.
    pub(crate) fn look(&mut self, page: &mut [u8], now: Instant) -> Look {
        if self.is_operators() {
            return match self.flush(now) {
                Ok(true) => self.look_for_command(page, now),
                Ok(false) => Look::Part,
                Err(_) => Look::Gone,
            };
        }
        match self.stream.peek(page) {
            Ok(0) => Look::Item,
            Ok(n) if n <= page.len() && ends_item(&page[..n]) => Look::Item,
            Ok(_) => {
                self.begun = true;
                Look::Part
            }
            Err(e) if e.kind() == ErrorKind::WouldBlock => Look::Part,
            Err(_) => Look::Gone,
        }
    }

    /// Takes what came of the operator's commands, until one is whole.
    fn look_for_command(&mut self, page: &mut [u8], now: Instant) -> Look {
        let Some(commands) = &mut self.commands else {
            return Look::Gone;
        };
        for _ in 0..READS {
            if commands.find() {
                return Look::Item;
            }
            let most = page.len().min(commands.room());
            let n = match self.stream.read(&mut page[..most]) {
                Ok(n) => n,
                Err(e) if e.kind() == ErrorKind::WouldBlock => return Look::Part,
                Err(_) => return Look::Gone,
            };
            if n == 0 {
                self.at_end = true;
                return Look::Over;
            }
            if commands.take(&page[..n]).is_err() {
                return Look::Gone;
            }
            if !self.begun {
                self.begun = true;
                self.since = now;
            }
        }
        Look::Part
    }

    /// Whether its link may be followed by another: an operator's, where it is known where the next command begins, and the
    /// peer is sent each answer whole.
    pub(crate) fn goes_on(&self) -> bool {
        match &self.commands {
            Some(commands) => !commands.is_lost() && !self.owes,
            None => false,
        }
    }

    /// Its link is over, and it waits for the operator's next command.
    pub(crate) fn go_on(&mut self, now: Instant) {
        self.enter(Stage::Waiting, now);
        if let Some(commands) = &mut self.commands {
            commands.pass();
            self.begun = commands.has_begun();
        }
    }

    /// Receives what has come; `WouldBlock` where nothing has. Sends what is kept first. Of an operator's it gives
    /// the command, and then its end.
    pub(crate) fn receive(&mut self, buf: &mut [u8], now: Instant) -> io::Result<usize>
        ensures bound { ReadsAtMost result buf.new }
    {
        if let Some(commands) = &mut self.commands {
            return Ok(commands.give(buf));
        }
        self.flush(now)?;
        let n = self.stream.read(buf)?;
        self.at_end = n == 0 && !buf.is_empty();
        self.moved = now;
        Ok(n)
    }

    /// Sends bytes, and keeps what the system does not take; `WouldBlock` where bytes of before are kept yet.
    pub(crate) fn send(&mut self, bytes: &[u8], now: Instant) -> io::Result<usize>
        ensures bound { WritesAtMost result bytes.now }
    {
        self.owes = true;
        if !self.flush(now)? {
            return Err(ErrorKind::WouldBlock.into());
        }
        let n = match self.stream.write(bytes) {
            Ok(n) => n,
            Err(e) if e.kind() == ErrorKind::WouldBlock => 0,
            Err(e) => return Err(e),
        };
        self.moved = now;
        let rest = &bytes[n..];
        let most = rest.len().min(MOST_KEPT);
        let sent = match self.kept.extend_from_slice(&rest[..most]) {
            Ok(()) => n + most,
            Err(_) if n > 0 => n,
            Err(e) => return Err(e.into()),
        };
        self.owes = false;
        Ok(sent)
    }

    /// Whether the system sends at once what it takes, and holds nothing back until the peer has what went before.
    pub(crate) fn sends_at_once(&self) -> io::Result<bool> {
        self.stream.nodelay()
    }

    pub(crate) fn has_kept(&self) -> bool {
        self.gone < self.kept.len()
    }

    /// Sends what is kept. True where nothing is kept any more.
    fn flush(&mut self, now: Instant) -> io::Result<bool> {
        for _ in 0..self.kept.len() {
            let Some(rest) = self.kept.get(self.gone..) else {
                break;
            };
            if rest.is_empty() {
                break;
            }
            match self.stream.write(rest) {
                Ok(n) => {
                    self.gone = self.gone.saturating_add(n);
                    self.moved = now;
                }
                Err(e) if e.kind() == ErrorKind::WouldBlock => return Ok(false),
                Err(e) => return Err(e),
            }
        }
        self.kept.clear();
        self.gone = 0;
        Ok(true)
    }

    /// Where bytes are kept, has the poll tell when more can be sent.
    pub(crate) fn watch(&mut self, registry: &Registry, key: usize) -> io::Result<()> {
        if self.watched || !self.has_kept() {
            return Ok(());
        }
        self.watched = true;
        let both = Interest::READABLE | Interest::WRITABLE;
        registry.reregister(&mut self.stream, Token(key), both)
    }

    /// Ends the connection as far as it goes without waiting: sends what is kept, tells the peer of the end,
    /// and drops what it still sends. To close it while bytes of the peer are unread may take back what was
    /// sent and is still under way. True where nothing is left to do.
    pub(crate) fn leave(&mut self, page: &mut [u8], now: Instant) -> bool {
        match self.flush(now) {
            Ok(true) => {}
            Ok(false) => return false,
            Err(_) => return true,
        }
        if self.at_end {
            return true;
        }
        if !self.told {
            self.told = true;
            if self.stream.shutdown(Shutdown::Write).is_err() {
                return true;
            }
        }
        self.drain(page)
    }

    /// Takes what the peer still sends, and drops it. True where no more comes, or it has sent enough.
    fn drain(&mut self, page: &mut [u8]) -> bool {
        for _ in 0..LAST_READS {
            match self.stream.read(page) {
                Ok(n) if n > 0 => {}
                Err(e) if e.kind() == ErrorKind::WouldBlock => return false,
                _ => return true,
            }
        }
        true
    }
}
