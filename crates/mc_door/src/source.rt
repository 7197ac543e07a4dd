ghost use Rattle.std.specs.Io.{ReadsAtMost, WritesAtMost};

use std::io;

/// Where links come from, as the system has them: it keeps no count and no flag, and tells nothing of the
/// bytes. That it gives and takes them is trusted.
pub trait Source {
    /// Ends the standing link and waits for the next: true where it stands, false where no more come.
    fn next(&mut self) -> io::Result<bool>;

    /// Receives the next bytes of the standing link; 0 for a `buf` that isn't empty is the link's end, which
    /// its peer made. Where the link is ended for others' sake, or was silent for too long, the answer is an
    /// error.
    fn recv(&mut self, buf: &mut [u8]) -> io::Result<usize>
        ensures bound { ReadsAtMost result buf.new };

    /// Sends a prefix of the bytes on the standing link.
    fn send(&mut self, bytes: &[u8]) -> io::Result<usize>
        ensures bound { WritesAtMost result bytes.now };

    /// Whether the standing link came through the operator's door; false where none stands.
    fn is_operators(&self) -> bool;

    /// Ends the standing link, where one stands. What was sent on it still goes its way.
    fn end(&mut self);

    /// Ends the standing link, where one stands, and sees for a bounded time to what is still under way to
    /// peers. No more links come.
    fn finish(&mut self);
}
