ghost use Rattle.std.specs.Io.{ReadsAtMost, WritesAtMost};

use crate::connection::Connection;
use crate::connections::{Connections, MOST, MOST_OPEN, MOST_OPERATORS};
use crate::socket::Socket;
use mio::net::TcpStream;
use mio::{Events, Interest, Poll, Token};
use std::alloc::{AllocError, Global};
use std::io;
use std::io::ErrorKind;
use std::net::{Net, SocketAddr};
use std::rt::Clock;
use std::time::{Duration, Instant};

/// How long the door waits at once for something to happen, in milliseconds, before it looks for connections
/// whose time is over.
const TICK: u64 = 1000;

/// How long it waits, in milliseconds, where connections can't be accepted now.
const PAUSE: u64 = 10;

/// How many seconds the standing link may move no byte.
const PATIENCE: u64 = 30;

/// How many seconds a link may stand while others are ready.
const TURN: u64 = 2;

/// How many links are taken before the door looks again for what came meanwhile.
const LINKS_AT_ONCE: u32 = 64;

/// How many milliseconds may go by until it looks.
const LOOK: u64 = 20;

/// How many connections are accepted at once.
const MOST_AT_ONCE: usize = 256;

/// The most events that are told at once: one for each connection, and one for each listening socket.
const MOST_EVENTS: usize = MOST_OPEN + 2;

/// How many milliseconds pass, once there is no room, before connections that wait are dropped for others,
/// so that many that come at once can tell what they ask.
const GRACE: u64 = 200;

/// How many seconds without want of room end such a time.
const CALM: u64 = 5;

/// How many seconds accepting may fail, where no connection is open, before the door fails.
const FAILING: u64 = 16;

/// How many seconds the last peers have, once no more links are taken.
const LAST: u64 = 2;

/// The system's errors where a process, or the system, has no more descriptors (`ENFILE`, `EMFILE`).
const NO_DESCRIPTOR: [i32; 2] = [23, 24];

const LISTENER: Token = Token(usize::MAX);

const OPERATOR: Token = Token(usize::MAX - 1);

/// Whether connections wait to be accepted, as far as is known.
#[derive(Clone, Copy, Debug, PartialEq, Eq)]
enum Accepting {
    /// None waits.
    Idle,
    /// Some may wait.
    Going,
    /// Some may wait, and none that is open may go.
    Full,
    /// It fails, since then.
    Failing(Instant),
}

/// The listening socket of the operator's door.
#[derive(Drop)]
struct OperatorSocket {
    socket: Socket,
    // whether connections may wait at it
    waited_for: bool,
}

/// The listening sockets, what waits at them, and the connections that are open.
#[derive(Drop)]
pub(crate) struct Door {
    alloc: Global,
    poll: Poll,
    events: Events,
    socket: Socket,
    operators: Option<OperatorSocket>,
    connections: Connections,
    standing: Option<usize>,
    accepting: Accepting,
    // since when there is want of room, and when it was last
    pressed: Option<(Instant, Instant)>,
    // when the door last looked, and how many links were taken since
    looked: Instant,
    taken: u32,
    // when it last looked for connections whose time is over
    swept: Instant,
}

impl Door {
    /// A door at this socket, and at the operator's, where there is one; None where the system gives no poll or no time.
    pub(crate) fn open<R: Net, C: Clock>(
        rt: &R,
        alloc: Global,
        mut socket: Socket,
        mut operators: Option<Socket>,
        clock: &C,
    ) -> Result<Option<Door>, AllocError> {
        let connections = Connections::new(alloc)?;
        let events = Events::with_capacity(alloc, MOST_EVENTS)?;
        let (Ok(poll), Ok(now)) = (Poll::new(rt), Instant::now(clock)) else {
            return Ok(None);
        };
        if socket.register(poll.registry(), LISTENER).is_err() {
            return Ok(None);
        }
        if let Some(socket) = &mut operators
            && socket.register(poll.registry(), OPERATOR).is_err()
        {
            return Ok(None);
        }
        let operators = operators.map(|socket| OperatorSocket {
            socket,
            waited_for: true,
        });
        Ok(Some(Door {
            alloc,
            poll,
            events,
            socket,
            operators,
            connections,
            standing: None,
            accepting: Accepting::Going,
            pressed: None,
            looked: now,
            taken: 0,
            swept: now,
        }))
    }

    pub(crate) fn address(&self) -> Option<SocketAddr> {
        self.socket.address()
    }

    /// Ends the standing link, and waits for the next: that of the connection that has been ready for the
    /// longest time.
    pub(crate) fn next<C: Clock>(&mut self, clock: &C) -> io::Result<()> {
        self.end(clock);
        if self.taken >= LINKS_AT_ONCE || self.is_look_due(Instant::now(clock)?) {
            self.turn(clock, 0)?;
        }
        for _ in 0..u64::MAX {
            self.standing = self.connections.stand(Instant::now(clock)?);
            if self.standing.is_some() {
                self.taken = self.taken.saturating_add(1);
                return Ok(());
            }
            self.turn(clock, TICK)?;
        }
        Err(ErrorKind::TimedOut.into())
    }

    /// Whether the standing link came through the operator's door.
    pub(crate) fn is_operators(&self) -> bool {
        match self.standing {
            Some(key) => self.connections.is_operators(key),
            None => false,
        }
    }

    /// Receives on the standing link; an error where its turn is over, or it is silent and another connection
    /// is ready. An operator's has no turn: its command is there whole.
    pub(crate) fn recv<C: Clock>(&mut self, clock: &C, buf: &mut [u8]) -> io::Result<usize>
        ensures bound { ReadsAtMost result buf.new }
    {
        let key = self.standing_key()?;
        if !self.connections.is_operators(key) {
            self.keep_turn(key, clock)?;
        }
        for _ in 0..u64::MAX {
            let now = Instant::now(clock)?;
            match self.connections.receive(key, buf, now) {
                Err(e) if e.kind() == ErrorKind::WouldBlock => {}
                answer => return answer,
            }
            self.wait(key, clock)?;
        }
        Err(ErrorKind::TimedOut.into())
    }

    /// Sends on the standing link. What the system does not take at once is kept, and counts as sent; where
    /// bytes of before are kept yet, an error as in `recv`.
    pub(crate) fn send<C: Clock>(&mut self, clock: &C, bytes: &[u8]) -> io::Result<usize>
        ensures bound { WritesAtMost result bytes.now }
    {
        let key = self.standing_key()?;
        for _ in 0..u64::MAX {
            let now = Instant::now(clock)?;
            match self.connections.send(key, bytes, now) {
                Err(e) if e.kind() == ErrorKind::WouldBlock => {}
                Ok(n) => {
                    self.watch(key)?;
                    return Ok(n);
                }
                Err(e) => return Err(e),
            }
            self.wait(key, clock)?;
        }
        Err(ErrorKind::TimedOut.into())
    }

    /// Whether the system sends at once what it takes on the standing link.
    pub(crate) fn sends_at_once(&self) -> io::Result<bool> {
        self.connections.sends_at_once(self.standing_key()?)
    }

    /// Ends the standing link, where one stands, without waiting for its peer. An operator's connection goes on.
    pub(crate) fn end<C: Clock>(&mut self, clock: &C) {
        let Some(key) = self.standing else {
            return;
        };
        self.standing = None;
        match Instant::now(clock) {
            Ok(now) if self.connections.goes_on(key) => self.connections.go_on(key, now),
            Ok(now) => self.connections.part(key, now),
            Err(_) => self.connections.remove(key),
        }
    }

    /// Ends the standing link, and sees to what is still under way to peers, for two seconds at most.
    pub(crate) fn finish<C: Clock>(mut self, clock: &C) {
        let Ok(start) = Instant::now(clock) else {
            return;
        };
        if let Some(key) = self.standing {
            self.connections.part(key, start);
        }
        for _ in 0..u32::MAX {
            if !self.connections.keep_leaving() || self.turn_last(clock, start).is_err() {
                return;
            }
        }
    }

    /// Goes on with those that leave. An error where their time is over.
    fn turn_last<C: Clock>(&mut self, clock: &C, start: Instant) -> io::Result<()> {
        let wait = Duration::from_millis(PAUSE);
        self.poll.poll(&mut self.events, Some(wait))?;
        let now = Instant::now(clock)?;
        if now.duration_since(start).as_secs() >= LAST {
            return Err(ErrorKind::TimedOut.into());
        }
        let _waited_for = sort_out(&self.events, &mut self.connections, now);
        Ok(())
    }

    fn standing_key(&self) -> io::Result<usize> {
        match self.standing {
            Some(key) => Ok(key),
            None => Err(ErrorKind::NotConnected.into()),
        }
    }

    /// An error where the standing link's turn is over: it has stood for its time, and others are ready. Looks
    /// for these, where that was some time ago.
    fn keep_turn<C: Clock>(&mut self, key: usize, clock: &C) -> io::Result<()> {
        let now = Instant::now(clock)?;
        if self.is_look_due(now) {
            self.turn(clock, 0)?;
        }
        let (age, _) = self.connections.times(key, now)?;
        if self.connections.is_any_ready() && age.as_secs() >= TURN {
            return Err(ErrorKind::TimedOut.into());
        }
        Ok(())
    }

    /// Whether the standing link may go on waiting: not where another is ready, nor beyond its patience. Then
    /// waits for something to happen.
    fn wait<C: Clock>(&mut self, key: usize, clock: &C) -> io::Result<()> {
        let now = Instant::now(clock)?;
        let (_, silence) = self.connections.times(key, now)?;
        if self.connections.is_any_ready() || silence.as_secs() >= PATIENCE {
            return Err(ErrorKind::TimedOut.into());
        }
        self.turn(clock, TICK)
    }

    /// Where bytes are kept for the standing link's peer, has the poll tell when more can be sent.
    fn watch(&mut self, key: usize) -> io::Result<()> {
        self.connections.watch(self.poll.registry(), key)
    }

    fn is_look_due(&self, now: Instant) -> bool {
        now.duration_since(self.looked) >= Duration::from_millis(LOOK)
    }

    /// Takes in what came. Where nothing is ready it waits for that, up to so many milliseconds.
    pub(crate) fn turn<C: Clock>(&mut self, clock: &C, most: u64) -> io::Result<()> {
        let wait = Duration::from_millis(self.patience(most));
        self.poll.poll(&mut self.events, Some(wait))?;
        let now = Instant::now(clock)?;
        let waited_for = sort_out(&self.events, &mut self.connections, now);
        if waited_for.customers && self.accepting == Accepting::Idle {
            self.accepting = Accepting::Going;
        }
        self.accept_operators(waited_for.operators, now);
        if now.duration_since(self.swept) >= Duration::from_millis(TICK) {
            self.swept = now;
            self.connections.sweep(now);
            look_again(&mut self.connections, now);
        }
        self.looked = now;
        self.taken = 0;
        self.accept_all(now)
    }

    /// How long a turn may wait, in milliseconds.
    fn patience(&self, most: u64) -> u64 {
        if self.connections.is_any_ready() {
            return 0;
        }
        match self.accepting {
            Accepting::Idle => most,
            Accepting::Going => 0,
            Accepting::Full | Accepting::Failing(_) => most.min(PAUSE),
        }
    }

    /// Accepts what waits, where there is room or can be made.
    fn accept_all(&mut self, now: Instant) -> io::Result<()> {
        if self.accepting == Accepting::Idle {
            return Ok(());
        }
        for _ in 0..MOST_AT_ONCE {
            if self.connections.is_full() && !self.make_room(now) {
                self.accepting = Accepting::Full;
                return Ok(());
            }
            match self.accept(now) {
                Ok(true) => self.accepting = Accepting::Going,
                Ok(false) => {
                    self.accepting = Accepting::Idle;
                    return Ok(());
                }
                Err(e) => {
                    if !is_want_of_descriptor(&e) || !self.make_room(now) {
                        return self.bear(e, now);
                    }
                }
            }
        }
        Ok(())
    }

    /// Makes room for one more connection, where one that is open may go. False where none may.
    fn make_room(&mut self, now: Instant) -> bool {
        let young = self.young(now);
        for _ in 0..MOST {
            let Some(key) = self.connections.first_to_go(young, false) else {
                return false;
            };
            if self.connections.drop_silent(key, now) {
                return true;
            }
        }
        false
    }

    /// Connections that have waited since this time may go for others: once there has been want of room for a
    /// while, all of them, and before only those that are older than that.
    fn young(&mut self, now: Instant) -> Instant {
        let since = match self.pressed {
            Some((since, last)) if now.duration_since(last).as_secs() < CALM => since,
            _ => now,
        };
        self.pressed = Some((since, now));
        let grace = Duration::from_millis(GRACE);
        if now.duration_since(since) >= grace {
            return now;
        }
        match now.checked_sub(grace) {
            Some(before) => before,
            None => now,
        }
    }

    /// Accepts a connection. False where none waits.
    fn accept(&mut self, now: Instant) -> io::Result<bool> {
        match self.socket.accept() {
            Ok(stream) => self.take(stream, false, now),
            Err(e) if e.kind() == ErrorKind::WouldBlock => return Ok(false),
            // It broke before it was accepted.
            Err(e) if e.kind() == ErrorKind::ConnectionAborted => {}
            Err(e) => return Err(e),
        }
        Ok(true)
    }

    /// Takes in a connection that was accepted, where the poll tells of it.
    fn take(&mut self, mut stream: TcpStream, is_operators: bool, now: Instant) {
        let token = Token(self.connections.next_key());
        let readable = Interest::READABLE;
        if self
            .poll
            .registry()
            .register(&mut stream, token, readable)
            .is_ok()
        {
            let connection = Connection::new(self.alloc, stream, is_operators, now);
            self.connections.insert(connection);
        }
    }

    /// Accepts what waits at the operator's socket, where there is room or can be made. What can't be accepted now waits
    /// until the door looks again.
    fn accept_operators(&mut self, more: bool, now: Instant) {
        for _ in 0..MOST_OPERATORS {
            let Some(operators) = &mut self.operators else {
                return;
            };
            operators.waited_for = operators.waited_for || more;
            if !operators.waited_for || !self.has_operator_room(now) {
                return;
            }
            self.accept_operator(now);
        }
    }

    /// Accepts a connection of the operator's, where one waits.
    fn accept_operator(&mut self, now: Instant) {
        let Some(operators) = &mut self.operators else {
            return;
        };
        match operators.socket.accept() {
            Ok(stream) => self.take(stream, true, now),
            Err(e) if e.kind() == ErrorKind::WouldBlock => operators.waited_for = false,
            Err(_) => {}
        }
    }

    /// Whether there is room for one more of the operator's connections, or the one that has been silent for the longest time
    /// makes it.
    fn has_operator_room(&mut self, now: Instant) -> bool {
        if !self.connections.is_full_of_operators() {
            return true;
        }
        for _ in 0..MOST_OPERATORS {
            let Some(key) = self.connections.first_to_go(now, true) else {
                return false;
            };
            if self.connections.drop_silent(key, now) {
                return true;
            }
        }
        false
    }

    /// Bears that accepting failed, as long as a connection is open, and a while longer.
    fn bear(&mut self, e: io::Error, now: Instant) -> io::Result<()> {
        let since = match self.accepting {
            Accepting::Failing(since) => since,
            _ => now,
        };
        self.accepting = Accepting::Failing(since);
        if self.connections.is_empty() && now.duration_since(since).as_secs() >= FAILING {
            return Err(e);
        }
        Ok(())
    }
}

/// Where connections wait to be accepted, as the poll tells it.
#[derive(Clone, Copy)]
struct WaitedFor {
    customers: bool,
    operators: bool,
}

/// Sees to each connection where something happened. At which sockets connections wait to be accepted.
fn sort_out(events: &Events, connections: &mut Connections, now: Instant) -> WaitedFor {
    let mut waited_for = WaitedFor {
        customers: false,
        operators: false,
    };
    for event in events {
        if event.token() == LISTENER {
            waited_for.customers = true;
        } else if event.token() == OPERATOR {
            waited_for.operators = true;
        } else {
            let closed = event.is_read_closed() || event.is_error();
            connections.notice(event.token().0, closed, now);
        }
    }
    waited_for
}

/// Looks again at those that wait and have begun. The system tells of each arrival of bytes, so this finds
/// nothing, unless it told one less.
fn look_again(connections: &mut Connections, now: Instant) {
    for key in 0..MOST_OPEN {
        if connections.has_begun(key) {
            connections.notice(key, false, now);
        }
    }
}

fn is_want_of_descriptor(e: &io::Error) -> bool {
    match e.raw_os_error() {
        Some(error) => NO_DESCRIPTOR.contains(&error),
        None => false,
    }
}
