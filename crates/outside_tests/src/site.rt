//! The outside of the program: links over streams and over connections, lines that are said, and the clock.

use mc_door::{Listener, listen};
use mc_outside::{Disk, DiskFault, Link, LinkFault};
use mc_site::{Book, Site, Streams};
use std::fs::File;
use std::io::{ErrorKind, Read, Write};
use std::net::{Shutdown, TcpStream};
use std::process::Abort;
use std::test::Fail;

#[test]
fn a_link_over_streams(rt: HostRuntime) -> Result<(), Fail> {
    let source = Streams::new(b"in".as_slice(), Vec::new(rt.alloc()), None::<&HostRuntime>);
    let book: Book<File> = Book::none();
    let mut site = Site::new(book, source, Vec::new(rt.alloc()), &rt);
    assert_eq!(rt; site.next_link(), Ok(true));
    let mut buf = [0; 8];
    assert_eq!(rt; site.recv(&mut buf), Ok(2));
    assert_eq!(rt; &buf[..2], b"in".as_slice());
    assert_eq!(rt; site.recv(&mut buf), Ok(0));
    assert_eq!(rt; site.send(b"out"), Ok(3));
    assert_eq!(rt; site.next_link(), Ok(false));
    assert_eq!(rt; site.next_link(), Ok(false));
    assert_eq!(rt; site.say(b"said"), Ok(()));
    assert_eq!(rt; site.output().as_slice(), b"said".as_slice());
    assert!(rt; site.now().seconds() > 1_700_000_000);
    assert_eq!(rt; site.link_faults(), 0);
    assert_eq!(rt; site.sync(), Err(DiskFault));
    assert_eq!(rt; site.link_faults(), 0);
    Ok(())
}

/// The outside whose links are connections, with no book.
type Connected<'a> = Site<File, Listener<&'a HostRuntime>, Vec<u8>, &'a HostRuntime>;

/// Has one link with a peer, which ends what it sends.
fn first(rt: &impl Abort, site: &mut Connected<'_>, peer: &mut TcpStream) -> Result<(), Fail> {
    let mut buf = [0; 8];
    peer.write_all(b"in\n\n")?;
    assert_eq!(rt; site.next_link(), Ok(true));
    assert_eq!(rt; site.recv(&mut buf), Ok(4));
    assert_eq!(rt; &buf[..4], b"in\n\n".as_slice());
    assert_eq!(rt; site.send(b"out"), Ok(3));
    peer.shutdown(Shutdown::Write)?;
    assert_eq!(rt; site.recv(&mut buf), Ok(0));
    Ok(())
}

/// Has the next link, with another peer, of which not all is read; the first has got its bytes.
fn next(
    rt: &impl Abort,
    site: &mut Connected<'_>,
    peer: &mut TcpStream,
    other: &mut TcpStream,
) -> Result<(), Fail> {
    let mut buf = [0; 8];
    other.write_all(b"more than is read\n\n")?;
    assert_eq!(rt; site.next_link(), Ok(true));
    assert_eq!(rt; peer.read(&mut buf)?, 3);
    assert_eq!(rt; peer.read(&mut buf)?, 0);
    assert_eq!(rt; site.recv(&mut buf[..4]), Ok(4));
    assert_eq!(rt; site.send(b"last"), Ok(4));
    site.end_link();
    assert_eq!(rt; site.link_faults(), 0);
    Ok(())
}

/// Reads the last bytes that come.
fn last(rt: &impl Abort, peer: &mut TcpStream) -> Result<(), Fail> {
    let mut buf = [0; 8];
    assert_eq!(rt; peer.read(&mut buf)?, 4);
    assert_eq!(rt; &buf[..4], b"last".as_slice());
    assert_eq!(rt; peer.read(&mut buf)?, 0);
    Ok(())
}

#[test]
fn links_over_connections(rt: HostRuntime) -> Result<(), Fail> {
    let source = listen(&rt, rt.alloc(), "127.0.0.1:0", None, &rt)?;
    let Some(address) = source.address() else {
        return Err(ErrorKind::NotConnected.into());
    };
    let mut site = Site::new(Book::none(), source, Vec::new(rt.alloc()), &rt);
    let mut peer = TcpStream::connect(&rt, address)?;
    first(&rt, &mut site, &mut peer)?;
    let mut other = TcpStream::connect(&rt, address)?;
    next(&rt, &mut site, &mut peer, &mut other)?;
    let _book = site.finish();
    last(&rt, &mut other)
}

#[test]
fn no_listener_no_links(rt: HostRuntime) -> Result<(), Fail> {
    let book: Book<File> = Book::none();
    let source = listen(&rt, rt.alloc(), "no address", None, &rt)?;
    let mut site = Site::new(book, source, Vec::new(rt.alloc()), &rt);
    assert_eq!(rt; site.next_link(), Err(LinkFault));
    assert_eq!(rt; site.next_link(), Err(LinkFault));
    assert_eq!(rt; site.link_faults(), 2);
    assert_eq!(rt; site.say(b"said"), Ok(()));
    assert_eq!(rt; site.output().as_slice(), b"said".as_slice());
    Ok(())
}
