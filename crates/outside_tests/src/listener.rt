//! Links over connections that are made to an address: whose is the next, what ends one, what still arrives.

use mc_door::{Listener, Source, listen};
use std::cell::Cell;
use std::io::{ErrorKind, Read, Write};
use std::net::{Shutdown, TcpStream};
use std::os::fd::OwnedFd;
use std::os::unix::net::UnixStream;
use std::process::Abort;
use std::rt::Clock;
use std::test::Fail;
use std::time::Duration;
use std::{env, fs, io, process};

pub(crate) const HEAD: &[u8] = b"GET /news/1 HTTP/1.1\r\nHost: news.example\r\n\r\n";

/// A clock that goes on by so many milliseconds at each reading, and where it is set on.
#[derive(Drop)]
pub(crate) struct Dial {
    millis: Cell<u64>,
    step: u64,
}

impl Dial {
    /// At 0.
    pub(crate) fn new(step: u64) -> Dial {
        Dial {
            millis: Cell::new(0),
            step,
        }
    }

    pub(crate) fn set_on(&self, millis: u64) {
        self.millis.set(self.millis.get().saturating_add(millis));
    }
}

impl Clock for Dial {
    fn monotonic(&self) -> io::Result<Duration> {
        let millis = self.millis.get();
        self.set_on(self.step);
        Ok(Duration::from_millis(millis))
    }

    fn since_1970(&self) -> io::Result<Duration> {
        self.monotonic()
    }
}

/// A connection to a listener, on which these bytes were sent. It does not wait forever.
pub(crate) fn peer_of<C>(
    rt: &HostRuntime,
    links: &Listener<C>,
    bytes: &[u8],
) -> io::Result<TcpStream> {
    let Some(address) = links.address() else {
        return Err(ErrorKind::NotConnected.into());
    };
    let mut peer = TcpStream::connect(rt, address)?;
    peer.set_read_timeout(Some(Duration::from_secs(10)))?;
    peer.write_all(bytes)?;
    Ok(peer)
}

/// How many bytes the peer reads.
fn read(peer: &mut TcpStream) -> io::Result<usize> {
    peer.read(&mut [0; 64])
}

/// How many bytes the standing link receives.
fn heard<C: Clock>(links: &mut Listener<C>) -> io::Result<usize> {
    links.recv(&mut [0; 64])
}

/// Takes the next link, and receives: how many bytes.
fn taken<C: Clock>(links: &mut Listener<C>) -> io::Result<usize> {
    if links.next()? { heard(links) } else { Ok(0) }
}

/// Takes the next link, receives, and replies five bytes: how many were received.
fn answer<C: Clock>(links: &mut Listener<C>) -> io::Result<usize> {
    let n = taken(links)?;
    let _sent = links.send(b"reply")?;
    links.end();
    Ok(n)
}

/// Answers the next link: how many bytes were received, and how many the peer reads.
fn answered<C: Clock>(links: &mut Listener<C>, peer: &mut TcpStream) -> io::Result<(usize, usize)> {
    Ok((answer(links)?, read(peer)?))
}

#[test]
fn the_first_whole_head_is_the_first_served(rt: HostRuntime) -> Result<(), Fail> {
    let mut links = listen(&rt, rt.alloc(), "127.0.0.1:0", None, &rt)?;
    let _silent = peer_of(&rt, &links, b"")?;
    let mut slow = peer_of(&rt, &links, &HEAD[..20])?;
    let mut peer = peer_of(&rt, &links, HEAD)?;
    whole_first(&rt, &mut links, &mut slow, &mut peer)
}

fn whole_first<C: Clock>(
    rt: &impl Abort,
    links: &mut Listener<C>,
    slow: &mut TcpStream,
    peer: &mut TcpStream,
) -> Result<(), Fail> {
    assert_eq!(rt; answered(links, peer)?, (HEAD.len(), 5));
    slow.write_all(&HEAD[20..])?;
    assert_eq!(rt; answered(links, slow)?, (HEAD.len(), 5));
    Ok(())
}

#[test]
fn an_idle_link_gives_way_by_a_fault(rt: HostRuntime) -> Result<(), Fail> {
    let mut links = listen(&rt, rt.alloc(), "127.0.0.1:0", None, &rt)?;
    let mut idle = peer_of(&rt, &links, HEAD)?;
    assert_eq!(rt; taken(&mut links)?, HEAD.len());
    let _other = peer_of(&rt, &links, HEAD)?;
    gives_way(&rt, &mut links, &mut idle)
}

fn gives_way<C: Clock>(
    rt: &impl Abort,
    links: &mut Listener<C>,
    idle: &mut TcpStream,
) -> Result<(), Fail> {
    assert!(rt; heard(links).is_err());
    assert_eq!(rt; answer(links)?, HEAD.len());
    assert_eq!(rt; read(idle)?, 0);
    Ok(())
}

#[test]
fn the_last_reply_arrives(rt: HostRuntime) -> Result<(), Fail> {
    let mut links = listen(&rt, rt.alloc(), "127.0.0.1:0", None, &rt)?;
    let mut peer = peer_of(&rt, &links, HEAD)?;
    arrives(&rt, &mut links, &mut peer)
}

fn arrives<C: Clock>(
    rt: &impl Abort,
    links: &mut Listener<C>,
    peer: &mut TcpStream,
) -> Result<(), Fail> {
    peer.shutdown(Shutdown::Write)?;
    assert_eq!(rt; taken(links)?, HEAD.len());
    assert_eq!(rt; heard(links)?, 0);
    assert_eq!(rt; links.send(b"last")?, 4);
    links.finish();
    assert_eq!(rt; read(peer)?, 4);
    assert!(rt; links.next().is_err());
    Ok(())
}

/// Sends pages until no more is taken: how many bytes were.
fn send_much<C: Clock>(links: &mut Listener<C>, page: &[u8]) -> usize {
    let mut sent = 0usize;
    for _ in 0..10_000 {
        match links.send(page) {
            Ok(n) => sent = sent.saturating_add(n),
            Err(_) => break,
        }
    }
    sent
}

/// A listener over the dial, and its peers: one that takes nothing of its reply until the other's link stands.
#[derive(Drop)]
struct Slow<'a> {
    dial: &'a Dial,
    links: Listener<&'a Dial>,
    idle: TcpStream,
    other: TcpStream,
}

/// Reads so many bytes, or up to the end, while the other's link goes on: how many came. Each time the door looks for what
/// came, since it did so 20 milliseconds ago.
fn read_much(slow: &mut Slow<'_>, most: usize) -> io::Result<usize> {
    let mut got = 0usize;
    for _ in 0..1_000_000 {
        let n = slow.idle.read(&mut [0; 65_536])?;
        got = got.saturating_add(n);
        if n == 0 || got >= most {
            break;
        }
        slow.other.write_all(b"more")?;
        slow.dial.set_on(20);
        let _ = heard(&mut slow.links)?;
    }
    Ok(got)
}

#[test]
fn a_reply_that_is_not_taken_holds_up_nobody(rt: HostRuntime) -> Result<(), Fail> {
    let dial = Dial::new(0);
    let mut links = listen(&rt, rt.alloc(), "127.0.0.1:0", None, &dial)?;
    let idle = peer_of(&rt, &links, HEAD)?;
    assert!(rt; links.next()?);
    let other = peer_of(&rt, &links, HEAD)?;
    let mut slow = Slow {
        dial: &dial,
        links,
        idle,
        other,
    };
    holds_up_nobody(&rt, &mut slow)
}

fn holds_up_nobody(rt: &impl Abort, slow: &mut Slow<'_>) -> Result<(), Fail> {
    let sent = send_much(&mut slow.links, &[7; 65_536]);
    assert_eq!(rt; taken(&mut slow.links)?, HEAD.len());
    assert_eq!(rt; read_much(slow, sent)?, sent);
    Ok(())
}

#[test]
fn a_connection_has_its_time(rt: HostRuntime) -> Result<(), Fail> {
    let mut links = listen(&rt, rt.alloc(), "127.0.0.1:0", None, Dial::new(31_000))?;
    let mut silent = peer_of(&rt, &links, b"")?;
    let _peer = peer_of(&rt, &links, HEAD)?;
    is_ended(&rt, &mut links, &mut silent)
}

/// The one that is silent is ended when the other's link stands, and then that one, since nothing more comes on it.
fn is_ended<C: Clock>(
    rt: &impl Abort,
    links: &mut Listener<C>,
    silent: &mut TcpStream,
) -> Result<(), Fail> {
    assert_eq!(rt; taken(links)?, HEAD.len());
    assert_eq!(rt; read(silent)?, 0);
    assert!(rt; heard(links).is_err());
    Ok(())
}

#[test]
fn bytes_leave_at_once(rt: HostRuntime) -> Result<(), Fail> {
    let mut links = listen(&rt, rt.alloc(), "127.0.0.1:0", None, &rt)?;
    let _peer = peer_of(&rt, &links, HEAD)?;
    assert!(rt; links.next()?);
    assert!(rt; links.sends_at_once()?);
    Ok(())
}

/// A connection to a listener at this path, on which a head was sent.
fn peer_at(rt: &HostRuntime, path: &str) -> io::Result<TcpStream> {
    let mut peer = TcpStream::from(OwnedFd::from(UnixStream::connect(rt, path)?));
    peer.set_read_timeout(Some(Duration::from_secs(10)))?;
    peer.write_all(HEAD)?;
    Ok(peer)
}

/// Whether links come to a listener at this path.
fn is_served(rt: &HostRuntime, path: &str) -> Result<bool, Fail> {
    let mut links = listen(rt, rt.alloc(), path, None, rt)?;
    let mut peer = peer_at(rt, path)?;
    Ok(answered(&mut links, &mut peer)? == (HEAD.len(), 5))
}

/// Whether no link can be taken at this path.
fn is_taken(rt: &HostRuntime, path: &str) -> Result<bool, Fail> {
    let mut links = listen(rt, rt.alloc(), path, None, rt)?;
    Ok(links.next().is_err())
}

#[test]
fn a_path_is_taken_from_the_gone_alone(rt: HostRuntime) -> Result<(), Fail> {
    let folder = env::temp_dir(&rt)?;
    let folder = folder.as_str();
    let path = format!(in rt.alloc(); "{folder}/mc_door-{}", process::id(rt.process()))?;
    assert!(rt; is_taken_from_the_gone(&rt, &path)?);
    assert!(rt; is_kept(&rt, &path)?);
    Ok(())
}

/// Whether a socket that nobody serves any more gives way, and one that is served does not.
fn is_taken_from_the_gone(rt: &HostRuntime, path: &str) -> Result<bool, Fail> {
    let gives_way = is_served(rt, path)? && is_served(rt, path)?;
    let _links = listen(rt, rt.alloc(), path, None, rt)?;
    Ok(gives_way && is_taken(rt, path)?)
}

/// Whether a file that is no socket stays.
fn is_kept(rt: &HostRuntime, path: &str) -> Result<bool, Fail> {
    fs::remove_file(rt, path)?;
    fs::write(rt, path, "no socket")?;
    let stays = is_taken(rt, path)?;
    fs::remove_file(rt, path)?;
    Ok(stays)
}
