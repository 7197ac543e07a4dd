//! The door of a site's operator: each command is a link, and holds up no customer.

use crate::listener::{Dial, HEAD, peer_of};
use mc_door::{Listener, Source, call_path, listen};
use std::io::{Read, Write};
use std::net::TcpStream;
use std::os::fd::OwnedFd;
use std::os::unix::fs::PermissionsExt;
use std::os::unix::net::UnixStream;
use std::process::Abort;
use std::rt::Clock;
use std::test::Fail;
use std::time::Duration;
use std::{env, fs, io, process};

const TOLD: &[u8] = b"5 vendor goods - /news/1 25\nabcde";

/// The path of a door of this name.
fn path_of(rt: &HostRuntime, name: &str) -> io::Result<String> {
    let folder = env::temp_dir(rt)?;
    let folder = folder.as_str();
    let id = process::id(rt.process());
    Ok(format!(in rt.alloc(); "{folder}/{name}-{id}.door")?)
}

/// A connection to the door, on which these bytes were sent. It does not wait forever.
fn operator_of(rt: &HostRuntime, path: &str, bytes: &[u8]) -> io::Result<TcpStream> {
    let mut peer = TcpStream::from(OwnedFd::from(UnixStream::connect(rt, path)?));
    peer.set_read_timeout(Some(Duration::from_secs(10)))?;
    peer.write_all(bytes)?;
    Ok(peer)
}

/// Whose the next link is, and how many bytes it gives.
fn taken<C: Clock>(links: &mut Listener<C>) -> io::Result<(bool, usize)> {
    let mut buf = [0; 64];
    if !links.next()? {
        return Ok((false, 0));
    }
    Ok((links.is_operators(), links.recv(&mut buf)?))
}

/// Takes the next link, which is an operator's, up to its end, and answers it with five bytes: how many bytes it gives.
fn obeyed<C: Clock>(rt: &impl Abort, links: &mut Listener<C>) -> Result<usize, Fail> {
    let (is_operators, n) = taken(links)?;
    assert!(rt; is_operators);
    assert_eq!(rt; links.recv(&mut [0; 64])?, 0);
    assert_eq!(rt; links.send(b"reply")?, 5);
    links.end();
    Ok(n)
}

/// How many bytes the peer reads.
fn read(peer: &mut TcpStream) -> io::Result<usize> {
    peer.read(&mut [0; 64])
}

#[test]
fn a_command_is_a_link_once_it_is_whole(rt: HostRuntime) -> Result<(), Fail> {
    let path = path_of(&rt, "whole")?;
    let mut links = listen(&rt, rt.alloc(), "127.0.0.1:0", Some(&path), &rt)?;
    let mut operator = operator_of(&rt, &path, &TOLD[..30])?;
    let _customer = peer_of(&rt, &links, HEAD)?;
    let mode = fs::metadata(&rt, &path)?.permissions().mode();
    fs::remove_file(&rt, &path)?;
    assert_eq!(rt; mode & 0o777, 0o600);
    is_a_link(&rt, &mut links, &mut operator)
}

/// The customer's is first, since a part of the command was there; and then the command, and its answer.
fn is_a_link<C: Clock>(
    rt: &impl Abort,
    links: &mut Listener<C>,
    operator: &mut TcpStream,
) -> Result<(), Fail> {
    assert_eq!(rt; taken(links)?, (false, HEAD.len()));
    operator.write_all(&TOLD[30..])?;
    assert_eq!(rt; obeyed(rt, links)?, TOLD.len());
    assert_eq!(rt; read(operator)?, 5);
    Ok(())
}

#[test]
fn commands_take_turns_with_customers(rt: HostRuntime) -> Result<(), Fail> {
    let path = path_of(&rt, "turns")?;
    let mut links = listen(&rt, rt.alloc(), "127.0.0.1:0", Some(&path), &rt)?;
    let mut caller = call_path(&rt, &path);
    assert!(rt; caller.next()?);
    assert_eq!(rt; caller.send(TOLD)?, TOLD.len());
    assert_eq!(rt; caller.send(TOLD)?, TOLD.len());
    let _customer = peer_of(&rt, &links, HEAD)?;
    fs::remove_file(&rt, &path)?;
    take_turns(&rt, &mut links)?;
    let mut buf = [0; 16];
    assert_eq!(rt; caller.recv(&mut buf)?, 10);
    links.finish();
    assert_eq!(rt; caller.recv(&mut buf)?, 0);
    assert!(rt; !caller.next()?);
    Ok(())
}

/// Two commands are there at once, and a customer's link is between their links.
fn take_turns<C: Clock>(rt: &impl Abort, links: &mut Listener<C>) -> Result<(), Fail> {
    assert_eq!(rt; obeyed(rt, links)?, TOLD.len());
    assert_eq!(rt; taken(links)?, (false, HEAD.len()));
    assert_eq!(rt; obeyed(rt, links)?, TOLD.len());
    Ok(())
}

/// A listener over the dial, and its peers: an operator that is silent, and one that is slow.
#[derive(Drop)]
struct Idle<'a> {
    links: Listener<&'a Dial>,
    silent: TcpStream,
    slow: TcpStream,
}

#[test]
fn an_idle_operator_holds_up_nobody(rt: HostRuntime) -> Result<(), Fail> {
    let path = path_of(&rt, "idle")?;
    let dial = Dial::new(0);
    let links = listen(&rt, rt.alloc(), "127.0.0.1:0", Some(&path), &dial)?;
    let silent = operator_of(&rt, &path, b"")?;
    let slow = operator_of(&rt, &path, &TOLD[..30])?;
    let _customer = peer_of(&rt, &links, HEAD)?;
    fs::remove_file(&rt, &path)?;
    let mut idle = Idle {
        links,
        silent,
        slow,
    };
    assert_eq!(rt; taken(&mut idle.links)?, (false, HEAD.len()));
    dial.set_on(31_000);
    let _other = peer_of(&rt, &idle.links, HEAD)?;
    have_their_time(&rt, &mut idle)
}

/// A command has half a minute; between two there may be more.
fn have_their_time(rt: &impl Abort, idle: &mut Idle<'_>) -> Result<(), Fail> {
    assert_eq!(rt; taken(&mut idle.links)?, (false, HEAD.len()));
    assert_eq!(rt; read(&mut idle.slow)?, 0);
    idle.silent.write_all(TOLD)?;
    assert_eq!(rt; obeyed(rt, &mut idle.links)?, TOLD.len());
    Ok(())
}

#[test]
fn a_ninth_takes_the_place_of_a_silent_one(rt: HostRuntime) -> Result<(), Fail> {
    let path = path_of(&rt, "ninth")?;
    let mut links = listen(&rt, rt.alloc(), "127.0.0.1:0", Some(&path), &rt)?;
    let mut first = operator_of(&rt, &path, b"")?;
    let mut others = Vec::new(rt.alloc());
    for _ in 0..7 {
        others.push(operator_of(&rt, &path, b"")?)?;
    }
    let _ninth = operator_of(&rt, &path, TOLD)?;
    fs::remove_file(&rt, &path)?;
    takes_its_place(&rt, &mut links, &mut first)
}

fn takes_its_place<C: Clock>(
    rt: &impl Abort,
    links: &mut Listener<C>,
    first: &mut TcpStream,
) -> Result<(), Fail> {
    assert_eq!(rt; obeyed(rt, links)?, TOLD.len());
    assert_eq!(rt; read(first)?, 0);
    Ok(())
}

#[test]
fn what_begins_no_command_is_the_last_link(rt: HostRuntime) -> Result<(), Fail> {
    let path = path_of(&rt, "lost")?;
    let mut links = listen(&rt, rt.alloc(), "127.0.0.1:0", Some(&path), &rt)?;
    let mut operator = operator_of(&rt, &path, b"05 vendor\nabcde")?;
    fs::remove_file(&rt, &path)?;
    is_the_last(&rt, &mut links, &mut operator)
}

fn is_the_last<C: Clock>(
    rt: &impl Abort,
    links: &mut Listener<C>,
    operator: &mut TcpStream,
) -> Result<(), Fail> {
    assert_eq!(rt; obeyed(rt, links)?, 15);
    assert_eq!(rt; read(operator)?, 5);
    assert_eq!(rt; read(operator)?, 0);
    Ok(())
}
