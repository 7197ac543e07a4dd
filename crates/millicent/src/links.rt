//! Where the links of a command come from.

use diagnostics::{DoorLog, Survey};
use mc_door::{Caller, Listener, Source};
use mc_site::{Streams, Watched};
use std::io;
use std::io::{Stdin, Stdout};

/// The source of the links of a command, one of three. As one type it makes the outside one type, over which the program
/// is proved and compiled once.
#[derive(Drop)]
pub(crate) enum Links<'a> {
    /// The one link goes to an address.
    To(Caller<'a, HostRuntime>),
    /// Links come to an address.
    From(Announced<'a>),
    /// Standard input and output are the one link.
    Over(Streams<Stdin, Stdout, &'a HostRuntime>),
}

/// Links that come to an address. The first is asked for once the book was opened, and found good: then standard error says who
/// listens where. Behind each of an operator's it says which command that was.
#[derive(Drop)]
pub(crate) struct Announced<'a> {
    links: Watched<'a, Listener<&'a HostRuntime>>,
    rt: &'a HostRuntime,
    // what is said, until it is
    listening: Option<Listening<'a>>,
    log: DoorLog,
}

/// Who listens where.
#[derive(Drop)]
pub(crate) struct Listening<'a> {
    /// What the book has, where there was memory to read it.
    pub(crate) survey: Option<Survey>,
    /// The path of the book.
    pub(crate) book: &'a str,
    /// The address, or the path of the socket.
    pub(crate) place: String,
    /// The path of its operator's door, where it has one.
    pub(crate) door: Option<&'a str>,
}

impl<'a> Announced<'a> {
    /// These links, and what is said before the first.
    pub(crate) fn new(
        links: Watched<'a, Listener<&'a HostRuntime>>,
        rt: &'a HostRuntime,
        listening: Option<Listening<'a>>,
    ) -> Announced<'a> {
        Announced {
            links,
            rt,
            listening,
            log: DoorLog::new(),
        }
    }
}

impl<'a> Listening<'a> {
    /// Says it.
    fn tell(&self, rt: &HostRuntime) {
        let place = self.place.as_str();
        match &self.survey {
            Some(survey) => {
                let (name, entries) = (survey.name(), survey.entries());
                let noun = if entries == 1 { "entry" } else { "entries" };
                let _ = eprintln!(rt; "millicent: {name} listens at {place}, {entries} {noun}");
            }
            None => {
                let book = self.book;
                let _ = eprintln!(rt; "millicent: {book} listens at {place}");
            }
        }
        if let Some(door) = self.door {
            let _ = eprintln!(rt;
                "millicent: its operator's commands come to {door}, in the place of the book"
            );
        }
    }
}

impl<'a> Source for Announced<'a> {
    fn next(&mut self) -> io::Result<bool> {
        if let Some(listening) = self.listening.take() {
            listening.tell(self.rt);
        }
        self.log.end(self.rt);
        let stands = self.links.next()?;
        if stands && self.links.is_operators() {
            self.log.begin();
        }
        Ok(stands)
    }

    fn recv(&mut self, buf: &mut [u8]) -> io::Result<usize> {
        let n = self.links.recv(buf)?;
        if let Some(bytes) = buf.get(..n) {
            self.log.hear(bytes);
        }
        Ok(n)
    }

    fn send(&mut self, bytes: &[u8]) -> io::Result<usize> {
        self.log.answer(bytes);
        self.links.send(bytes)
    }

    fn is_operators(&self) -> bool {
        self.links.is_operators()
    }

    fn end(&mut self) {
        self.links.end();
        self.log.end(self.rt);
    }

    fn finish(&mut self) {
        self.log.end(self.rt);
        self.links.finish();
    }
}

impl<'a> Source for Links<'a> {
    fn next(&mut self) -> io::Result<bool> {
        match self {
            Links::To(caller) => caller.next(),
            Links::From(links) => links.next(),
            Links::Over(streams) => streams.next(),
        }
    }

    fn recv(&mut self, buf: &mut [u8]) -> io::Result<usize> {
        match self {
            Links::To(caller) => caller.recv(buf),
            Links::From(links) => links.recv(buf),
            Links::Over(streams) => streams.recv(buf),
        }
    }

    fn send(&mut self, bytes: &[u8]) -> io::Result<usize> {
        match self {
            Links::To(caller) => caller.send(bytes),
            Links::From(links) => links.send(bytes),
            Links::Over(streams) => streams.send(bytes),
        }
    }

    fn is_operators(&self) -> bool {
        match self {
            Links::To(caller) => caller.is_operators(),
            Links::From(links) => links.is_operators(),
            Links::Over(streams) => streams.is_operators(),
        }
    }

    fn end(&mut self) {
        match self {
            Links::To(caller) => caller.end(),
            Links::From(links) => links.end(),
            Links::Over(streams) => streams.end(),
        }
    }

    fn finish(&mut self) {
        match self {
            Links::To(caller) => caller.finish(),
            Links::From(links) => links.finish(),
            Links::Over(streams) => streams.finish(),
        }
    }
}
