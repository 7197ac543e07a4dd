use crate::calling::{Calling, receive, send};
use crate::source::Source;
use std::io;
use std::io::ErrorKind;
use std::net::{Net, OpenStream, SocketAddr, ToSocketAddrs};
use std::time::Duration;

/// How many seconds a connection may take to be made at one address.
const CONNECTING: u64 = 10;

/// How many seconds a link may move no byte.
pub(crate) const PATIENCE: u64 = 30;

/// The one link over a connection that is made to an address as the link is asked for; no more come. Where no
/// connection can be made there, none comes at all: the host is not known, refuses, or is not reached within ten
/// seconds at any of its addresses. Each other fault of the system is an error, as are 30 seconds in which the peer
/// sends nothing or takes nothing, while it is waited for.
#[derive(Drop)]
pub struct Caller<'a, R: Net> {
    rt: &'a R,
    address: &'a str,
    stream: Option<R::Stream>,
    called: bool,
    // whom the connection was made to
    peer: Option<SocketAddr>,
    // why none was made
    reason: Option<io::Error>,
}

/// A caller of this address, an IP address or a host's name and a port.
pub fn call<'a, R: Net>(rt: &'a R, address: &'a str) -> Caller<'a, R> {
    Caller {
        rt,
        address,
        stream: None,
        called: false,
        peer: None,
        reason: None,
    }
}

impl<'a, R: Net> Caller<'a, R> {
    /// The address of the host that took the connection, where one was made.
    pub fn peer(&self) -> Option<SocketAddr> {
        self.peer
    }

    /// Why no link came, where none did.
    pub fn reason(&self) -> Option<io::Error> {
        self.reason
    }
}

impl<'a, R: Net> Calling for Caller<'a, R> {
    type Stream = R::Stream;

    fn stream(&mut self) -> io::Result<&mut R::Stream> {
        match &mut self.stream {
            Some(stream) => Ok(stream),
            None => Err(ErrorKind::NotConnected.into()),
        }
    }
}

impl<'a, R: Net> Source for Caller<'a, R> {
    fn next(&mut self) -> io::Result<bool> {
        self.stream = None;
        if self.called {
            return Ok(false);
        }
        let called = connection(self.rt, self.address, Duration::from_secs(CONNECTING))?;
        self.called = true;
        match called {
            Called::Taken(stream, peer) => {
                self.stream = Some(stream);
                self.peer = Some(peer);
                Ok(true)
            }
            Called::NotTaken(reason) => {
                self.reason = Some(reason);
                Ok(false)
            }
        }
    }

    fn recv(&mut self, buf: &mut [u8]) -> io::Result<usize> {
        receive(self, buf)
    }

    fn send(&mut self, bytes: &[u8]) -> io::Result<usize> {
        send(self, bytes)
    }

    fn is_operators(&self) -> bool {
        false
    }

    fn end(&mut self) {
        self.stream = None;
    }

    fn finish(&mut self) {
        self.end();
    }
}

/// How a call of an address went.
#[derive(Drop)]
pub(crate) enum Called<S> {
    /// This host took the connection.
    Taken(S, SocketAddr),
    /// No host did, and why.
    NotTaken(io::Error),
}

/// A connection to the first of the address's hosts that takes one in so much time.
pub(crate) fn connection<R: Net>(
    rt: &R,
    address: &str,
    time: Duration,
) -> io::Result<Called<R::Stream>> {
    let hosts = match address.to_socket_addrs(rt) {
        Ok(hosts) => hosts,
        Err(e) if is_unknown(&e) => return Ok(Called::NotTaken(e)),
        Err(e) => return Err(e),
    };
    let mut reason = ErrorKind::AddrNotAvailable.into();
    let mut fault = None;
    for host in hosts {
        match rt.connect_timeout(host, time) {
            Ok(stream) => return Ok(Called::Taken(patient(stream)?, host)),
            Err(e) if is_out_of_reach(e.kind()) => reason = e,
            Err(e) => fault = Some(e),
        }
    }
    match fault {
        Some(e) => Err(e),
        None => Ok(Called::NotTaken(reason)),
    }
}

/// Whether an address names no host, which is no error of the system.
fn is_unknown(e: &io::Error) -> bool {
    e.raw_os_error().is_none() && e.kind() != ErrorKind::OutOfMemory
}

/// Whether a host refused a connection, or was not reached.
fn is_out_of_reach(kind: ErrorKind) -> bool {
    match kind {
        ErrorKind::ConnectionRefused
        | ErrorKind::ConnectionReset
        | ErrorKind::ConnectionAborted
        | ErrorKind::HostUnreachable
        | ErrorKind::NetworkUnreachable
        | ErrorKind::NetworkDown
        | ErrorKind::AddrNotAvailable
        | ErrorKind::TimedOut => true,
        _ => false,
    }
}

/// The connection with a limit to each wait for its peer. What is sent on it goes at once, where the system lets it.
fn patient<S: OpenStream + Drop>(stream: S) -> io::Result<S> {
    let limit = Some(Duration::from_secs(PATIENCE));
    stream.set_read_timeout(limit)?;
    stream.set_write_timeout(limit)?;
    let _ = stream.set_nodelay(true);
    Ok(stream)
}
