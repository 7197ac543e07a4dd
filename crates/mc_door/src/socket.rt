use mio::net::{TcpListener, TcpStream, UnixListener, UnixStream};
use mio::{Interest, Registry, Token};
use std::alloc::Global;
use std::fs::{DirBuilder, Permissions};
use std::io::ErrorKind;
use std::net::{Net, SocketAddr, ToSocketAddrs};
use std::os::fd::OwnedFd;
use std::os::unix::fs::{DirBuilderExt, FileTypeExt, PermissionsExt};
use std::rt::Files;
use std::{fs, io, net};

/// A listening socket, none of whose calls waits.
#[derive(Drop)]
pub(crate) enum Socket {
    /// At an address of the network.
    Tcp(TcpListener),
    /// At the path of a file.
    Unix(UnixListener),
}

impl Socket {
    /// A socket at this path, where it begins with a slash, else at the first of the host's addresses that can be
    /// bound.
    pub(crate) fn bind<R: Net + Files>(rt: &R, address: &str) -> io::Result<Socket> {
        if address.starts_with('/') {
            Ok(Socket::Unix(bind_path(rt, address)?))
        } else {
            Ok(Socket::Tcp(bind_host(rt, address)?))
        }
    }

    /// A socket at this path, which its owner alone may use.
    pub(crate) fn bind_for_owner<R: Net + Files>(
        rt: &R,
        alloc: Global,
        path: &str,
    ) -> io::Result<Socket> {
        Ok(Socket::Unix(bind_hidden(rt, alloc, path)?))
    }

    /// Has the poll tell when connections wait.
    pub(crate) fn register(&mut self, registry: &Registry, token: Token) -> io::Result<()> {
        match self {
            Socket::Tcp(socket) => registry.register(socket, token, Interest::READABLE),
            Socket::Unix(socket) => registry.register(socket, token, Interest::READABLE),
        }
    }

    /// The next connection; `WouldBlock` where none waits. One over a Unix socket is handed on as if it were TCP's:
    /// the system's calls that look, read, write and end are the same for both.
    pub(crate) fn accept(&self) -> io::Result<TcpStream> {
        match self {
            Socket::Tcp(socket) => {
                let (stream, _) = socket.accept()?;
                Ok(stream)
            }
            Socket::Unix(socket) => {
                let (stream, _) = socket.accept()?;
                Ok(TcpStream::from(OwnedFd::from(stream)))
            }
        }
    }

    /// The address of the network that it is at; None at a path.
    pub(crate) fn address(&self) -> Option<SocketAddr> {
        match self {
            Socket::Tcp(socket) => socket.local_addr().ok(),
            Socket::Unix(_) => None,
        }
    }
}

/// A socket at the first of the addresses that can be bound.
fn bind_host<R: Net>(rt: &R, address: &str) -> io::Result<TcpListener> {
    let mut last = ErrorKind::NotConnected.into();
    for address in address.to_socket_addrs(rt)? {
        match TcpListener::bind(rt, address) {
            Ok(socket) => return Ok(at_once(socket)),
            Err(e) => last = e,
        }
    }
    Err(last)
}

/// What is accepted at the socket then sends its bytes at once, where the system lets it: Linux gives a
/// connection that option (`TCP_NODELAY`) of its listener.
fn at_once(socket: TcpListener) -> TcpListener {
    let stream = net::TcpStream::from(OwnedFd::from(socket));
    let _ = stream.set_nodelay(true);
    TcpListener::from(OwnedFd::from(stream))
}

/// A socket at a path, where nothing stands, or what was left there by a process that ended: the system keeps the file
/// of a socket when nobody listens on it any more.
fn bind_path<R: Net + Files>(rt: &R, path: &str) -> io::Result<UnixListener> {
    match UnixListener::bind(rt, path) {
        Err(e) if e.kind() == ErrorKind::AddrInUse && is_left(rt, path) => {
            fs::remove_file(rt, path)?;
            UnixListener::bind(rt, path)
        }
        bound => bound,
    }
}

/// The mode of a folder that its owner alone may enter, and of a file that he alone may use.
const FOLDER_MODE: u32 = 0o700;

const FILE_MODE: u32 = 0o600;

/// The most bytes of a path that a socket is made at.
const MOST_PATH: usize = 107;

/// How the folder is named in which a socket is made, behind the front of the socket's own path; and the socket in it.
const FOLDER_END: &str = ".d";

const SOCKET_END: &str = ".d/s";

/// A socket at a path, as [`bind_path`] has it, whose file its owner alone may use at every moment: it is made in a folder that
/// he alone may enter, gets its mode there, and then its name. The folder is PATH.d, or where that has no room for a socket's
/// path, as much of PATH and .d as has. It is taken away again, also where it was left.
fn bind_hidden<R: Net + Files>(rt: &R, alloc: Global, path: &str) -> io::Result<UnixListener> {
    if is_there(rt, path) && !is_left(rt, path) {
        return Err(ErrorKind::AddrInUse.into());
    }
    let front = front_of(path, MOST_PATH.saturating_sub(SOCKET_END.len()));
    let folder = format!(in alloc; "{front}{FOLDER_END}")?;
    let inside = format!(in alloc; "{front}{SOCKET_END}")?;
    take_away(rt, &folder, &inside);
    DirBuilder::new()
        .mode(FOLDER_MODE)
        .create(rt, folder.as_str())?;
    let bound = bind_inside(rt, &inside, path);
    take_away(rt, &folder, &inside);
    bound
}

/// As much of a path's front as has at most so many bytes. What is left out is of its last name alone, or else nothing is.
fn front_of(path: &str, most: usize) -> &str {
    for end in (0..=most).rev() {
        match path.get(..end) {
            Some(front) if !path.get(end..).unwrap_or("").contains('/') => return front,
            Some(_) => return path,
            None => {}
        }
    }
    path
}

/// A socket that is made at one path, gets its mode there, and then the other path.
fn bind_inside<R: Net + Files>(rt: &R, inside: &str, path: &str) -> io::Result<UnixListener> {
    let socket = UnixListener::bind(rt, inside)?;
    fs::set_permissions(rt, inside, Permissions::from_mode(FILE_MODE))?;
    fs::rename(rt, inside, path)?;
    Ok(socket)
}

/// Takes away the folder and the socket in it, where they stand.
fn take_away<R: Files>(rt: &R, folder: &str, inside: &str) {
    let _ = fs::remove_file(rt, inside);
    let _ = fs::remove_dir(rt, folder);
}

/// Whether a file of any kind stands at the path.
fn is_there<R: Files>(rt: &R, path: &str) -> bool {
    match fs::symlink_metadata(rt, path) {
        Ok(_) => true,
        Err(e) => e.kind() != ErrorKind::NotFound,
    }
}

/// Whether a socket's file stands at the path, and nobody listens on it: connecting is refused. A file of another kind
/// refuses that too.
fn is_left<R: Net + Files>(rt: &R, path: &str) -> bool {
    let Ok(file) = fs::symlink_metadata(rt, path) else {
        return false;
    };
    if !file.file_type().is_socket() {
        return false;
    }
    match UnixStream::connect(rt, path) {
        Ok(_) => false,
        Err(e) => e.kind() == ErrorKind::ConnectionRefused,
    }
}
