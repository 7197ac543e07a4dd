use crate::connection::{Connection, Look, Stage};
use millicent_http::MAX_HEAD;
use mio::Registry;
use slab::Slab;
use std::alloc::{AllocError, Global};
use std::collections::VecDeque;
use std::io;
use std::io::ErrorKind;
use std::marker::Model;
use std::time::{Duration, Instant};

/// The most connections that are open at once, which stays below the 1,024 descriptors that a process mostly
/// may have.
pub(crate) const MOST: usize = 1000;

/// The most connections of the operator's, which are open beside those.
pub(crate) const MOST_OPERATORS: usize = 8;

/// The most connections in all.
pub(crate) const MOST_OPEN: usize = MOST + MOST_OPERATORS;

/// The most connections whose peers do not take what they were sent, beside that of the standing link.
const MOST_SLOW: usize = 63;

/// The connections that are open, each under its key, and a queue of those that are ready. Contracts see the
/// keys in the queue.
#[derive(Drop)]
pub(crate) struct Connections {
    table: Slab<Connection>,
    ready: VecDeque<usize>,
    page: Vec<u8>,
}

impl Model for Connections {
    ghost use Rattle.std.specs.Prelude.{ℕ, List};

    ghost Value = { List ℕ };

    ghost view = { λ c. c.ready.items };
}

impl Connections {
    ghost use Rattle.std.specs.Prelude.{◌≡◌, ◌↔◌, ◌⊎◌, [], ◌∷◌, ◌++◌, false, IfOk, option_to_list};
    ghost use Rattle.std.specs.Io.{ReadsAtMost, WritesAtMost};

    /// Takes all memory that connections need, but for what peers don't take.
    pub(crate) fn new(alloc: Global) -> Result<Connections, AllocError>
        ensures { IfOk result (λ c. c ≡ []) }
    {
        Ok(Connections {
            table: Slab::with_capacity(alloc, MOST_OPEN)?,
            ready: VecDeque::with_capacity(alloc, MOST_OPEN)?,
            page: Vec::from_elem(alloc, 0, MAX_HEAD)?,
        })
    }

    /// The key that the next connection gets.
    pub(crate) fn next_key(&self) -> usize {
        self.table.vacant_key()
    }

    /// Takes in a connection, which waits.
    pub(crate) fn insert(&mut self, connection: Connection)
        ensures queue { self.new ≡ self.old }
    {
        let _ = self.table.insert(connection);
    }

    pub(crate) fn is_full(&self) -> bool {
        self.table.len() >= MOST
    }

    /// Whether as many of the operator's are open as may be.
    pub(crate) fn is_full_of_operators(&self) -> bool {
        let mut open: usize = 0;
        for (_, connection) in self.table.iter() {
            if connection.is_operators() {
                open = open.saturating_add(1);
            }
        }
        open >= MOST_OPERATORS
    }

    pub(crate) fn is_empty(&self) -> bool {
        self.table.is_empty()
    }

    pub(crate) fn is_any_ready(&self) -> bool
        ensures { (result ≡ false) ↔ (self.now ≡ []) }
    {
        !self.ready.is_empty()
    }

    /// Takes the connection that has been ready for the longest time as that of the standing link.
    pub(crate) fn stand(&mut self, now: Instant) -> Option<usize>
        ensures first { self.old ≡ option_to_list result ++ self.new }
    {
        let key = self.ready.pop_front()?;
        if let Some(connection) = self.table.get_mut(key) {
            connection.enter(Stage::Standing, now);
        }
        Some(key)
    }

    /// Sees to a connection where something happened. A key without a connection is an event's of one that is
    /// gone.
    pub(crate) fn notice(&mut self, key: usize, closed: bool, now: Instant)
        ensures last { (self.new ≡ self.old) ⊎ (self.new ≡ self.old ++ key ∷ []) }
    {
        let Some(connection) = self.table.get_mut(key) else {
            return;
        };
        let stays = !closed || connection.is_operators();
        let goes = match connection.stage() {
            Stage::Waiting => match connection.look(&mut self.page, now) {
                Look::Part if stays => false,
                Look::Part | Look::Item => {
                    connection.enter(Stage::Ready, now);
                    self.ready.push_back(key).is_err()
                }
                Look::Over => {
                    connection.enter(Stage::Leaving, now);
                    connection.leave(&mut self.page, now)
                }
                Look::Gone => true,
            },
            Stage::Leaving => connection.leave(&mut self.page, now),
            Stage::Ready | Stage::Standing => false,
        };
        if goes {
            self.remove(key);
        }
    }

    /// Whether the connection waits, and some of its bytes are there.
    pub(crate) fn has_begun(&self, key: usize) -> bool {
        match self.table.get(key) {
            Some(connection) => connection.has_begun(),
            None => false,
        }
    }

    /// Whether the connection came through the operator's door.
    pub(crate) fn is_operators(&self, key: usize) -> bool {
        match self.table.get(key) {
            Some(connection) => connection.is_operators(),
            None => false,
        }
    }

    /// Receives on a connection what has come, without waiting.
    pub(crate) fn receive(&mut self, key: usize, buf: &mut [u8], now: Instant) -> io::Result<usize>
        ensures bound { ReadsAtMost result buf.new }
        ensures queue { self.new ≡ self.old }
    {
        match self.table.get_mut(key) {
            Some(connection) => connection.receive(buf, now),
            None => Err(ErrorKind::NotConnected.into()),
        }
    }

    /// Sends on a connection, without waiting.
    pub(crate) fn send(&mut self, key: usize, bytes: &[u8], now: Instant) -> io::Result<usize>
        ensures bound { WritesAtMost result bytes.now }
        ensures queue { self.new ≡ self.old }
    {
        match self.table.get_mut(key) {
            Some(connection) => connection.send(bytes, now),
            None => Err(ErrorKind::NotConnected.into()),
        }
    }

    /// Where bytes are kept for the connection's peer, has the poll tell when more can be sent.
    pub(crate) fn watch(&mut self, registry: &Registry, key: usize) -> io::Result<()>
        ensures queue { self.new ≡ self.old }
    {
        match self.table.get_mut(key) {
            Some(connection) if connection.has_kept() => connection.watch(registry, key)?,
            _ => return Ok(()),
        }
        self.drop_slow();
        Ok(())
    }

    /// Whether the system sends at once what it takes on a connection.
    pub(crate) fn sends_at_once(&self, key: usize) -> io::Result<bool> {
        match self.table.get(key) {
            Some(connection) => connection.sends_at_once(),
            None => Err(ErrorKind::NotConnected.into()),
        }
    }

    /// How long the connection's link has stood, and how long it has moved no byte.
    pub(crate) fn times(&self, key: usize, now: Instant) -> io::Result<(Duration, Duration)> {
        match self.table.get(key) {
            Some(connection) => Ok((connection.age(now), connection.silence(now))),
            None => Err(ErrorKind::NotConnected.into()),
        }
    }

    /// Whether the connection of the standing link goes on behind it.
    pub(crate) fn goes_on(&self, key: usize) -> bool {
        match self.table.get(key) {
            Some(connection) => connection.goes_on(),
            None => false,
        }
    }

    /// Ends the standing link, and keeps its connection, which is an operator's: where its next command is whole already it
    /// goes to the queue's end.
    pub(crate) fn go_on(&mut self, key: usize, now: Instant)
        ensures last { (self.new ≡ self.old) ⊎ (self.new ≡ self.old ++ key ∷ []) }
    {
        if let Some(connection) = self.table.get_mut(key) {
            connection.go_on(now);
        }
        self.notice(key, false, now);
    }

    /// Ends the standing link's connection, without waiting.
    pub(crate) fn part(&mut self, key: usize, now: Instant)
        ensures queue { self.new ≡ self.old }
    {
        let Some(connection) = self.table.get_mut(key) else {
            return;
        };
        connection.enter(Stage::Leaving, now);
        if connection.leave(&mut self.page, now) {
            self.remove(key);
        }
    }

    /// Drops the connection, whatever is left for it.
    pub(crate) fn remove(&mut self, key: usize)
        ensures queue { self.new ≡ self.old }
    {
        let _ = self.table.try_remove(key);
    }

    /// Drops the connections whose time is over.
    pub(crate) fn sweep(&mut self, now: Instant)
        ensures queue { self.new ≡ self.old }
    {
        self.table.retain(|_, c| !c.is_overdue(now));
    }

    /// The connection that is the first to go where room is needed for another of a customer's, or of the operator's; None
    /// where none may.
    pub(crate) fn first_to_go(&self, young: Instant, is_operators: bool) -> Option<usize> {
        let mut first: Option<((u8, Instant), usize)> = None;
        for (key, connection) in self.table.iter() {
            if connection.is_operators() != is_operators {
                continue;
            }
            if let Some(rank) = connection.rank(young) {
                match first {
                    Some((least, _)) if least <= rank => {}
                    _ => first = Some((rank, key)),
                }
            }
        }
        match first {
            Some((_, key)) => Some(key),
            None => None,
        }
    }

    /// Drops the connection, unless another look shows that it is ready, or that the operator's command began. True where it
    /// is dropped.
    pub(crate) fn drop_silent(&mut self, key: usize, now: Instant) -> bool
        ensures last { (self.new ≡ self.old) ⊎ (self.new ≡ self.old ++ key ∷ []) }
    {
        self.notice(key, false, now);
        if self.stays(key, now) {
            return false;
        }
        self.remove(key);
        true
    }

    /// Whether the connection may not go.
    fn stays(&self, key: usize, now: Instant) -> bool {
        match self.table.get(key) {
            Some(connection) => connection.rank(now).is_none(),
            None => false,
        }
    }

    /// Where bytes are kept for more peers than may have some, drops the one that has left for the longest
    /// time.
    fn drop_slow(&mut self)
        ensures queue { self.new ≡ self.old }
    {
        let mut slow: usize = 0;
        let mut first: Option<(Instant, usize)> = None;
        for (key, connection) in self.table.iter() {
            if connection.stage() == Stage::Leaving && connection.has_kept() {
                slow = slow.saturating_add(1);
                match first {
                    Some((least, _)) if least <= connection.since() => {}
                    _ => first = Some((connection.since(), key)),
                }
            }
        }
        if let Some((_, key)) = first {
            if slow >= MOST_SLOW {
                self.remove(key);
            }
        }
    }

    /// Drops all but those that still leave, and those whose peers have not taken an answer whole. True where there are some.
    pub(crate) fn keep_leaving(&mut self) -> bool {
        self.table
            .retain(|_, c| c.stage() == Stage::Leaving || c.has_kept());
        !self.table.is_empty()
    }
}
