//! What is told on standard error of links: why one failed, and that scrip goes in the clear.

use std::io;
use std::io::ErrorKind;
use std::net::SocketAddr;

/// Tells what the system said of a fault, where it said something.
pub fn tell_fault(rt: &impl Eprint, what: &str, fault: Option<io::Error>) {
    let Some(error) = fault else {
        return;
    };
    match error.kind() {
        ErrorKind::WouldBlock | ErrorKind::TimedOut => {
            let _ = eprintln!(rt; "millicent: {what}: timed out");
        }
        _ => {
            let _ = eprintln!(rt; "millicent: {what}: {error}");
        }
    }
}

/// Tells that scrip that goes to or from this address is not kept from others on its way, where it leaves the
/// machine.
pub fn tell_clear(rt: &impl Eprint, address: Option<SocketAddr>) {
    if let Some(address) = address
        && !address.ip().is_loopback()
    {
        let _ = eprintln!(rt;
            "millicent: {address} is no loopback address: scrip goes in the clear"
        );
    }
}
