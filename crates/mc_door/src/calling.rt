//! Bytes on the connection of a link that was made to a peer.

ghost use Rattle.std.specs.Io.{ReadsAtMost, WritesAtMost};

use std::io;
use std::io::{ErrorKind, Read, Write};

/// Who has made connections to a peer.
pub(crate) trait Calling {
    type Stream: Read + Write;

    /// The connection of the standing link, which waits for its peer as long as the link may; an error where none stands.
    fn stream(&mut self) -> io::Result<&mut Self::Stream>;
}

/// Receives the next bytes of the standing link. What a signal breaks off is tried again.
pub(crate) fn receive<C: Calling>(calling: &mut C, buf: &mut [u8]) -> io::Result<usize>
    ensures bound { ReadsAtMost result buf.new }
{
    for _ in 0..u32::MAX {
        match calling.stream()?.read(buf) {
            Err(e) if e.kind() == ErrorKind::Interrupted => {}
            answer => return answer,
        }
    }
    Err(ErrorKind::TimedOut.into())
}

/// Sends a prefix of the bytes on the standing link, likewise.
pub(crate) fn send<C: Calling>(calling: &mut C, bytes: &[u8]) -> io::Result<usize>
    ensures bound { WritesAtMost result bytes.now }
{
    for _ in 0..u32::MAX {
        match calling.stream()?.write(bytes) {
            Err(e) if e.kind() == ErrorKind::Interrupted => {}
            answer => return answer,
        }
    }
    Err(ErrorKind::TimedOut.into())
}
