//! The statuses that the program ends with.

ghost use Rattle.std.specs.Prelude.{◌≡◌, ◌+◌, ◌≤◌, ◌++◌, length, take, codes, decimal};
ghost use Rattle.command_status.specs.declared.status.Status.TheVariants.{Proxied, Refused, Stranger};
ghost use Rattle.command_status.specs.Statuses.{number_of, line_of, IsMade};

use mc_base::List;
use mc_fields::{put, put_number};
use mc_requests::{Refusal, put_refusal_text};
use scrip_form::{Id, Name, digits_of_id};

/// How the program ends. What is said with each is in `docs/FORMATS.md`.
#[derive(Drop)]
pub enum Status {
    /// It is done, and no line tells of it.
    Done,
    /// So many links were served.
    Served(u32),
    /// So many links of a browser were served, and so much was paid.
    Proxied(u32, u64),
    /// A site of this name was founded.
    Founded(Name),
    /// What was asked for was done. This is said of it.
    Did(List<u8>),
    BadWords,
    NotJournal,
    /// The bytes of the book can't stand from this place on.
    BadEntry(u64),
    /// The bytes from this place on are another chain than the one computed.
    BadChain(u64),
    /// The entry behind the gate at this place may not follow those before it.
    UnlawfulEntry(u64),
    DiskFault,
    NoMemory,
    LinkFault,
    Refused(Refusal),
    /// The book of the site of this name has accepted or sold a piece with this identity that nobody handed out.
    Stranger { name: Name, id: Id },
}

impl Status {
    /// The number that a program ends with.
    pub fn number(&self) -> u8
        ensures { result ≡ number_of self.now }
    {
        match self {
            Status::Done
            | Status::Served(_)
            | Status::Proxied(..)
            | Status::Founded(_)
            | Status::Did(_) => 0,
            Status::BadWords => 2,
            Status::NotJournal
            | Status::BadEntry(_)
            | Status::BadChain(_)
            | Status::UnlawfulEntry(_) => 3,
            Status::DiskFault => 4,
            Status::NoMemory => 5,
            Status::LinkFault => 6,
            Status::Refused(_) => 7,
            Status::Stranger { .. } => 8,
        }
    }

    /// The line that is said. `room` is for one that is made here.
    pub fn line<'a>(&'a self, room: &'a mut [u8; 256]) -> &'a [u8]
        ensures { result.now ≡ line_of self.now }
    {
        if let Status::Did(line) = self {
            return line.slice();
        }
        let len = self.put_line(room);
        &room[..len]
    }

    /// Writes the line of a status that brings none to the front of the buffer, and answers its length.
    fn put_line(&self, out: &mut [u8; 256]) -> usize
        ensures within { result ≤ 256 }
        ensures line { IsMade self.now → take result out.new ≡ line_of self.now }
    {
        match self {
            Status::Done | Status::Did(_) => 0,
            Status::Served(links) => put_numbered(out, b"served ", u64::from(*links)),
            Status::Proxied(links, paid) => put_proxied(out, *links, *paid),
            Status::Founded(name) => put_named(out, name),
            Status::BadWords => put(out, 0, b"bad words\n"),
            Status::NotJournal => put(out, 0, b"not a journal\n"),
            Status::BadEntry(place) => put_numbered(out, b"bad entry at ", *place),
            Status::BadChain(place) => put_numbered(out, b"bad chain at ", *place),
            Status::UnlawfulEntry(place) => put_numbered(out, b"unlawful entry at ", *place),
            Status::DiskFault => put(out, 0, b"disk fault\n"),
            Status::NoMemory => put(out, 0, b"no memory\n"),
            Status::LinkFault => put(out, 0, b"link fault\n"),
            Status::Refused(refusal) => put_refused(out, refusal),
            Status::Stranger { name, id } => put_stranger(out, name, *id),
        }
    }
}

/// Words and a number.
fn put_numbered(out: &mut [u8; 256], words: &[u8], number: u64) -> usize
    requires { length words.now ≤ 100 }
    ensures within { result ≤ 256 }
    ensures line { take result out.new ≡ words.now ++ decimal number ++ codes "\n" }
{
    let at = put(out, 0, words);
    let at = put_number(out, at, number);
    put(out, at, b"\n")
}

fn put_proxied(out: &mut [u8; 256], links: u32, paid: u64) -> usize
    ensures within { result ≤ 256 }
    ensures line { take result out.new ≡ line_of (Proxied links paid) }
{
    let at = put(out, 0, b"proxied ");
    let at = put_number(out, at, u64::from(links));
    let at = put(out, at, b" ");
    let at = put_number(out, at, paid);
    put(out, at, b"\n")
}

fn put_named(out: &mut [u8; 256], name: &Name) -> usize
    ensures within { result ≤ 256 }
    ensures line { take result out.new ≡ codes "founded " ++ name.now ++ codes "\n" }
{
    let at = put(out, 0, b"founded ");
    let at = put(out, at, name.bytes());
    put(out, at, b"\n")
}

fn put_refused(out: &mut [u8; 256], refusal: &Refusal) -> usize
    ensures within { result ≤ 256 }
    ensures line { take result out.new ≡ line_of (Refused refusal.now) }
{
    let at = put(out, 0, b"refused ");
    let at = put_refusal_text(out, at, refusal);
    put(out, at, b"\n")
}

fn put_stranger(out: &mut [u8; 256], name: &Name, id: Id) -> usize
    ensures within { result ≤ 256 }
    ensures line { take result out.new ≡ line_of (Stranger name.now id) }
{
    let at = put(out, 0, b"stranger ");
    let at = put(out, at, name.bytes());
    let at = put(out, at, b" ");
    let at = put(out, at, &digits_of_id(id));
    put(out, at, b"\n")
}
