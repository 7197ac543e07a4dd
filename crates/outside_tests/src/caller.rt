//! The one link over a connection that is made to a peer.

use mc_door::{Caller, Source, call};
use std::io;
use std::io::{Read, Write};
use std::net::{Shutdown, TcpListener, TcpStream};
use std::process::Abort;
use std::test::Fail;

/// What a caller and its peer tell each other until both are at the end. No other link comes.
fn talk(
    rt: &impl Abort,
    links: &mut Caller<'_, HostRuntime>,
    peer: &mut TcpStream,
) -> Result<(), Fail> {
    let mut buf = [0; 8];
    assert_eq!(rt; links.send(b"asked")?, 5);
    assert_eq!(rt; peer.read(&mut buf)?, 5);
    assert_eq!(rt; &buf[..5], b"asked".as_slice());
    peer.write_all(b"answer")?;
    peer.shutdown(Shutdown::Write)?;
    assert_eq!(rt; links.recv(&mut buf)?, 6);
    assert_eq!(rt; &buf[..6], b"answer".as_slice());
    assert_eq!(rt; links.recv(&mut buf)?, 0);
    links.end();
    assert_eq!(rt; peer.read(&mut buf)?, 0);
    assert!(rt; !links.next()?);
    assert!(rt; links.recv(&mut buf).is_err());
    Ok(())
}

#[test]
fn one_link_over_a_connection_that_is_made(rt: HostRuntime) -> Result<(), Fail> {
    let socket = TcpListener::bind(&rt, "127.0.0.1:0")?;
    let port = socket.local_addr()?.port();
    let address = format!(in rt.alloc(); "localhost:{port}")?;
    let mut links = call(&rt, &address);
    begin(&rt, &mut links)?;
    let (mut peer, _) = socket.accept()?;
    talk(&rt, &mut links, &mut peer)
}

/// Nothing is sent before there is a link.
fn begin(rt: &impl Abort, links: &mut Caller<'_, HostRuntime>) -> Result<(), Fail> {
    assert!(rt; links.send(b"early").is_err());
    assert!(rt; links.next()?);
    Ok(())
}

/// Whether no link comes, however often one is asked for.
fn has_no_link(links: &mut Caller<'_, HostRuntime>) -> io::Result<bool> {
    Ok(!links.next()? && !links.next()?)
}

#[test]
fn no_link_where_no_connection_is_made(rt: HostRuntime) -> Result<(), Fail> {
    let socket = TcpListener::bind(&rt, "127.0.0.1:0")?;
    let port = socket.local_addr()?.port();
    drop(socket);
    let address = format!(in rt.alloc(); "127.0.0.1:{port}")?;
    for address in [
        address.as_str(),
        "no address",
        "127.0.0.1",
        "127.0.0.1:65536",
        "",
    ] {
        assert!(rt; has_no_link(&mut call(&rt, address))?);
    }
    Ok(())
}
