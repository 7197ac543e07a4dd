use crate::door::Door;
use crate::socket::Socket;
use crate::source::Source;
use std::alloc::{AllocError, Global};
use std::io;
use std::io::ErrorKind;
use std::net::{Net, SocketAddr};
use std::rt::{Clock, Files};

/// Links over the connections that are made to an address, and through the operator's door, where there is one. Up to 1,000 are open at once, and none of them holds
/// up another: one waits by itself until its bytes end an item, or its peer has ended it, and as the next link
/// comes the one that was the first to be so. There is no last link. With no socket no link can be taken.
///
/// A link that is kept open is ended by an error of `recv` where it is silent and another connection is ready,
/// after two seconds in which others are ready, or after 30 seconds of silence; a server may close a connection
/// at any time (RFC 9112, 9.5).
///
/// Through the operator's door each command is a link (`whole_command` tells where one ends), which gives that command's bytes
/// and then its end. It waits in the same line as the others, from when it is there whole, and is not ended for theirs. Its
/// connection goes on behind it, and may bring the next, which waits until the peer has taken what was sent. Where bytes can
/// begin no command they are the last link of their connection. Eight connections may be open; one is closed that takes longer
/// than 30 seconds for a command, or is silent for ten minutes between two, and a ninth takes the place of the one that was
/// silent for the longest time, or waits until one is.
#[derive(Drop)]
pub struct Listener<C> {
    door: Option<Door>,
    // why there is no door, where the system says it, and whether it says it of the operator's socket
    fault: Option<io::Error>,
    at_operators: bool,
    clock: C,
}

/// Listens at this address, where it can be bound: an IP address or a host's name and a port, or the path of a Unix
/// socket, which begins with a slash. The file there is made, and stays; one that a listener of before left is taken
/// away first. Where the path of a door is given, it listens there too, at a Unix socket that its owner alone may use: links
/// that come there are the operator's. Where one of the two can't be bound it listens at none.
///
/// Takes all memory that connections need, but for the bytes of replies that peers don't take, at most 69,632 for each of 64,
/// and of commands, at most 139,265 for each of 8.
pub fn listen<R: Net + Files, C: Clock + Drop>(
    rt: &R,
    alloc: Global,
    address: &str,
    door: Option<&str>,
    clock: C,
) -> Result<Listener<C>, AllocError> {
    let mut listener = Listener {
        door: None,
        fault: None,
        at_operators: false,
        clock,
    };
    match Socket::bind(rt, address) {
        Ok(socket) => listener.open(rt, alloc, socket, door)?,
        Err(e) => listener.fault = Some(e),
    }
    Ok(listener)
}

impl<C> Listener<C> {
    /// The address of the network that it listens at, where it does.
    pub fn address(&self) -> Option<SocketAddr> {
        match &self.door {
            Some(door) => door.address(),
            None => None,
        }
    }

    /// Whether there is a socket that listens, so that links can be taken.
    pub fn is_listening(&self) -> bool {
        self.door.is_some()
    }

    /// Whether the system sends at once what it takes on the standing link (`TCP_NODELAY`), and does not hold a part of a reply
    /// back until the peer has what went before. An error where no link stands, or where it came over a Unix socket, which
    /// holds nothing back and has no such option.
    pub fn sends_at_once(&self) -> io::Result<bool> {
        match &self.door {
            Some(door) => door.sends_at_once(),
            None => Err(self.no_door()),
        }
    }

    /// Whether there is no socket because none can be bound at the path of the operator's door.
    pub fn lacks_door(&self) -> bool {
        self.at_operators
    }

    /// Opens the door at this socket, and at a path, where one is given.
    fn open<R: Net + Files>(
        &mut self,
        rt: &R,
        alloc: Global,
        socket: Socket,
        path: Option<&str>,
    ) -> Result<(), AllocError>
    where
        C: Clock,
    {
        let operators = match path {
            Some(path) => match Socket::bind_for_owner(rt, alloc, path) {
                Ok(socket) => Some(socket),
                Err(e) => {
                    self.at_operators = true;
                    self.fault = Some(e);
                    return Ok(());
                }
            },
            None => None,
        };
        self.door = Door::open(rt, alloc, socket, operators, &self.clock)?;
        Ok(())
    }

    /// The error of each call where there is no socket.
    fn no_door(&self) -> io::Error {
        match self.fault {
            Some(e) => e,
            None => ErrorKind::NotConnected.into(),
        }
    }
}

impl<C: Clock> Source for Listener<C> {
    fn next(&mut self) -> io::Result<bool> {
        match &mut self.door {
            Some(door) => {
                door.next(&self.clock)?;
                Ok(true)
            }
            None => Err(self.no_door()),
        }
    }

    fn recv(&mut self, buf: &mut [u8]) -> io::Result<usize> {
        match &mut self.door {
            Some(door) => door.recv(&self.clock, buf),
            None => Err(ErrorKind::NotConnected.into()),
        }
    }

    fn send(&mut self, bytes: &[u8]) -> io::Result<usize> {
        match &mut self.door {
            Some(door) => door.send(&self.clock, bytes),
            None => Err(ErrorKind::NotConnected.into()),
        }
    }

    fn is_operators(&self) -> bool {
        match &self.door {
            Some(door) => door.is_operators(),
            None => false,
        }
    }

    fn end(&mut self) {
        if let Some(door) = &mut self.door {
            door.end(&self.clock);
        }
    }

    fn finish(&mut self) {
        if let Some(door) = self.door.take() {
            door.finish(&self.clock);
        }
    }
}
