//! Words that name a place to listen at or to connect to.

ghost use Rattle.std.specs.Prelude.{◌≡◌, ◌∷◌, IsTrue, ◌↔◌};
ghost use Rattle.command_table.specs.Ranges as ranges;
ghost use Rattle.command_table.specs.Ranges.{IsAddress, IsBracketedAndPort, IsConnect, IsHostAndPort, IsListen, IsSocket, IsSocketPath};

use crate::value::{is_place, number_from};
use mc_fields::{TextRule, read_text};

/// The greatest port.
pub const MOST_PORT: u64 = 65_535;

/// The most bytes of the name of a host, by the standards for them.
pub const MOST_HOST: usize = 253;

/// The most bytes of the path of a Unix socket, which the system has room for.
pub const MOST_SOCKET: usize = 107;

/// Whether the word names a place to connect to: a host or an address, a colon, and a port that is no 0.
pub(crate) fn is_connect(word: &str) -> bool
    ensures { IsTrue result ↔ IsConnect word.now }
{
    is_place(word) && is_address(1, word.as_bytes())
}

/// Whether it names a place to listen at: an address and a port, which may be 0, or the path of a Unix socket.
pub(crate) fn is_listen(word: &str) -> bool
    ensures { IsTrue result ↔ IsListen word.now }
{
    is_place(word) && (is_socket_path(word.as_bytes()) || is_address(0, word.as_bytes()))
}

/// Whether it names a place of a Unix socket: its path.
pub(crate) fn is_socket(word: &str) -> bool
    ensures { IsTrue result ↔ IsSocket word.now }
{
    is_place(word) && is_socket_path(word.as_bytes())
}

/// Whether the word is the path of a Unix socket: a slash, and a byte or more behind it.
fn is_socket_path(word: &[u8]) -> bool
    ensures { IsTrue result ↔ IsSocketPath word.now }
{
    match word {
        [b'/', behind @ ..] => !behind.is_empty() && word.len() <= MOST_SOCKET,
        _ => false,
    }
}

/// Whether the word is an address and a port from the least on.
fn is_address(least: u64, word: &[u8]) -> bool
    ensures { IsTrue result ↔ IsAddress least word.now }
{
    is_host_and_port(least, word) || is_bracketed_and_port(least, word)
}

/// Whether the word is a host, a colon, and a port from the least on.
fn is_host_and_port(least: u64, word: &[u8]) -> bool
    ensures { IsTrue result ↔ IsHostAndPort least word.now }
{
    let Ok(found) = read_text::<HostRule>(b':', word) else {
        return false;
    };
    let (_, port) = found;
    number_from(least, MOST_PORT, port).is_some()
}

/// Whether the word is an address of version 6 in square brackets, a colon, and a port from the least on.
fn is_bracketed_and_port(least: u64, word: &[u8]) -> bool
    ensures { IsTrue result ↔ IsBracketedAndPort least word.now }
{
    match word {
        [b'[', rest @ ..] => is_bracketed_rest(least, rest),
        _ => false,
    }
}

/// Whether the bytes behind the first bracket go on so.
fn is_bracketed_rest(least: u64, rest: &[u8]) -> bool
    ensures { IsTrue result ↔ IsBracketedAndPort least (91 ∷ rest.now) }
{
    let Ok(found) = read_text::<AddressRule>(b']', rest) else {
        return false;
    };
    let (_, behind) = found;
    let Some((next, port)) = behind.split_first() else {
        return false;
    };
    if *next != b':' {
        return false;
    }
    number_from(least, MOST_PORT, port).is_some()
}

/// How hosts are spelled.
struct HostRule;

impl TextRule for HostRule {
    ghost use Rattle.command_table.specs.Ranges.{is_host_byte};
    ghost use Rattle.command_table.specs.declared.address.TheConstants.{MOST_HOST};

    ghost first = { is_host_byte };

    ghost other = { is_host_byte };

    ghost least = { 1 };

    ghost most = { MOST_HOST };

    fn may_follow(len: usize, byte: u8) -> bool {
        len < MOST_HOST && is_host_byte(byte)
    }

    fn may_end(len: usize) -> bool {
        len >= 1
    }

    ghost begins_fit = { λ c is. is };
}

/// How addresses of version 6 are spelled.
struct AddressRule;

impl TextRule for AddressRule {
    ghost use Rattle.command_table.specs.Ranges.{is_address_byte};
    ghost use Rattle.command_table.specs.declared.address.TheConstants.{MOST_HOST};

    ghost first = { is_address_byte };

    ghost other = { is_address_byte };

    ghost least = { 1 };

    ghost most = { MOST_HOST };

    fn may_follow(len: usize, byte: u8) -> bool {
        len < MOST_HOST && is_address_byte(byte)
    }

    fn may_end(len: usize) -> bool {
        len >= 1
    }

    ghost begins_fit = { λ c is. is };
}

/// A byte of a host.
fn is_host_byte(byte: u8) -> bool
    ensures { result ≡ ranges.is_host_byte byte }
{
    matches!(byte, b'a'..=b'z' | b'A'..=b'Z' | b'0'..=b'9' | b'-' | b'.' | b'_')
}

/// A byte of an address of version 6.
fn is_address_byte(byte: u8) -> bool
    ensures { result ≡ ranges.is_address_byte byte }
{
    matches!(byte, b'a'..=b'f' | b'A'..=b'F' | b'0'..=b'9' | b':' | b'.' | b'%')
}
