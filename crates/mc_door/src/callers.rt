use crate::caller::{Called, PATIENCE, connection};
use crate::calling::{Calling, receive, send};
use crate::source::Source;
use std::io;
use std::io::ErrorKind;
use std::net::{Net, OpenStream};
use std::rt::Clock;
use std::time::{Duration, Instant};

/// How many seconds a connection may take to be made at one address.
const CONNECTING: u64 = 3;

/// How many seconds a link may stand, from when it was asked for.
const STANDING: u64 = 60;

/// Links over connections that are made to an address, one after another: each link is a connection of its own. There is
/// no last one: where no connection can be made that is an error, and the next link tries again. A link that stands for a
/// minute fails, as does one whose peer sends nothing or takes nothing for thirty seconds, while it is waited for.
#[derive(Drop)]
pub struct Callers<'a, R: Net, C> {
    rt: &'a R,
    clock: C,
    address: &'a str,
    standing: Option<Standing<R::Stream>>,
}

/// The connection of the link that stands.
#[derive(Drop)]
struct Standing<S> {
    stream: S,
    /// When it was asked for.
    since: Instant,
}

/// Who calls this address, an IP address or a host's name and a port, for each link anew.
pub fn call_each<'a, R: Net, C: Clock>(rt: &'a R, address: &'a str, clock: C) -> Callers<'a, R, C> {
    Callers {
        rt,
        clock,
        address,
        standing: None,
    }
}

impl<'a, R: Net, C: Clock> Calling for Callers<'a, R, C> {
    type Stream = R::Stream;

    /// The connection of the link that stands, which waits for its peer no longer than the link may stand.
    fn stream(&mut self) -> io::Result<&mut R::Stream> {
        let Some(standing) = &mut self.standing else {
            return Err(ErrorKind::NotConnected.into());
        };
        let stood = Instant::now(&self.clock)?.duration_since(standing.since);
        let left = STANDING.saturating_sub(stood.as_secs());
        if left == 0 {
            return Err(ErrorKind::TimedOut.into());
        }
        if left < PATIENCE {
            let limit = Some(Duration::from_secs(left));
            standing.stream.set_read_timeout(limit)?;
            standing.stream.set_write_timeout(limit)?;
        }
        Ok(&mut standing.stream)
    }
}

impl<'a, R: Net, C: Clock> Source for Callers<'a, R, C> {
    fn next(&mut self) -> io::Result<bool> {
        self.standing = None;
        let since = Instant::now(&self.clock)?;
        match connection(self.rt, self.address, Duration::from_secs(CONNECTING))? {
            Called::Taken(stream, _) => {
                self.standing = Some(Standing { stream, since });
                Ok(true)
            }
            Called::NotTaken(reason) => Err(reason),
        }
    }

    fn recv(&mut self, buf: &mut [u8]) -> io::Result<usize> {
        receive(self, buf)
    }

    fn send(&mut self, bytes: &[u8]) -> io::Result<usize> {
        send(self, bytes)
    }

    fn is_operators(&self) -> bool {
        false
    }

    fn end(&mut self) {
        self.standing = None;
    }

    fn finish(&mut self) {
        self.end();
    }
}
