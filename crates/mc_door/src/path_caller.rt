use crate::caller::PATIENCE;
use crate::calling::{Calling, receive, send};
use crate::source::Source;
use std::io;
use std::io::ErrorKind;
use std::net::{Net, Shutdown};
use std::os::unix::net::UnixStream;
use std::time::Duration;

/// The one link over a connection that is made to the Unix socket at a path as the link is asked for; no more come. Where no
/// connection can be made there, none comes at all. The first receiving ends what is sent: so the peer knows that no more
/// comes, and ends its side behind what it answers. Thirty seconds in which the peer sends nothing or takes nothing, while it is
/// waited for, are an error.
#[derive(Drop)]
pub struct PathCaller<'a, R> {
    rt: &'a R,
    path: &'a str,
    stream: Option<UnixStream>,
    called: bool,
    // whether the peer was told that no more is sent
    told: bool,
    // why no connection was made
    reason: Option<io::Error>,
}

/// A caller of the Unix socket at this path.
pub fn call_path<'a, R: Net>(rt: &'a R, path: &'a str) -> PathCaller<'a, R> {
    PathCaller {
        rt,
        path,
        stream: None,
        called: false,
        told: false,
        reason: None,
    }
}

impl<'a, R> PathCaller<'a, R> {
    /// Why no link came, where none did.
    pub fn reason(&self) -> Option<io::Error> {
        self.reason
    }
}

impl<'a, R> Calling for PathCaller<'a, R> {
    type Stream = UnixStream;

    fn stream(&mut self) -> io::Result<&mut UnixStream> {
        match &mut self.stream {
            Some(stream) => Ok(stream),
            None => Err(ErrorKind::NotConnected.into()),
        }
    }
}

impl<'a, R: Net> Source for PathCaller<'a, R> {
    fn next(&mut self) -> io::Result<bool> {
        self.stream = None;
        if self.called {
            return Ok(false);
        }
        self.called = true;
        match UnixStream::connect(self.rt, self.path) {
            Ok(stream) => {
                self.stream = Some(patient(stream)?);
                Ok(true)
            }
            Err(e) => {
                self.reason = Some(e);
                Ok(false)
            }
        }
    }

    fn recv(&mut self, buf: &mut [u8]) -> io::Result<usize> {
        if !self.told {
            self.told = true;
            self.stream()?.shutdown(Shutdown::Write)?;
        }
        receive(self, buf)
    }

    fn send(&mut self, bytes: &[u8]) -> io::Result<usize> {
        send(self, bytes)
    }

    fn is_operators(&self) -> bool {
        false
    }

    fn end(&mut self) {
        self.stream = None;
    }

    fn finish(&mut self) {
        self.end();
    }
}

/// The connection with a limit to each wait for its peer.
fn patient(stream: UnixStream) -> io::Result<UnixStream> {
    let limit = Some(Duration::from_secs(PATIENCE));
    stream.set_read_timeout(limit)?;
    stream.set_write_timeout(limit)?;
    Ok(stream)
}
