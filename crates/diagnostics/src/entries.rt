//! The entries of a book as the adapter reads them, to tell of them on standard error. Nothing that is done depends
//! on it.

use crate::texts::shown;
use mc_records::{FRAME, Record, begins_switch, read_record, tail_len};
use mc_site::Book;
use scrip_form::Name;
use scrip_journal::FIRST_GATE;
use std::alloc::{AllocError, Global};
use std::fs::OpenFile;
use std::os::unix::fs::FileExt;

/// How many bytes are read at once: more than any entry has.
const PAGE: usize = 262_144;

/// The header of a journal.
const HEADER: [u8; 8] = *b"MCJRNL1\n";

/// The entries of a book, one after another, up to the first that does not stand whole behind an open gate.
#[derive(Drop)]
pub(crate) struct Entries<'a, F> {
    book: &'a Book<F>,
    page: Vec<u8>,
    // where the page stands in the book, how many bytes of it were read, and where in it the next gate stands
    place: u64,
    filled: usize,
    gate: usize,
    // whether a Switch was read, from which on each entry has its chain behind its payload
    switched: bool,
}

impl<'a, F: OpenFile + FileExt> Entries<'a, F> {
    /// Those of a book; of one that is no journal there are none.
    pub(crate) fn of(alloc: Global, book: &'a Book<F>) -> Result<Entries<'a, F>, AllocError> {
        let page = Vec::from_elem(alloc, 0, PAGE)?;
        let place = if is_journal(book) {
            FIRST_GATE
        } else {
            u64::MAX
        };
        Ok(Entries {
            book,
            page,
            place,
            filled: 0,
            gate: 0,
            switched: false,
        })
    }

    /// The payload of the next entry.
    pub(crate) fn next_payload(&mut self) -> Option<&[u8]> {
        let length = match self.length() {
            Some(length) => length,
            None => {
                self.turn();
                self.length()?
            }
        };
        let from = self.gate.saturating_add(FRAME as usize);
        let end = from.saturating_add(length);
        self.gate = end.saturating_add(tail_len(self.switched) as usize);
        let payload = self.page.get(from..end)?;
        self.switched = self.switched || begins_switch(payload);
        Some(payload)
    }

    /// The length of the next entry's payload, where it stands whole in the page.
    fn length(&self) -> Option<usize> {
        payload_length(self.page.get(self.gate..self.filled)?)
    }

    /// Reads the page that begins with the next gate.
    fn turn(&mut self) {
        self.place = self.place.saturating_add(self.gate as u64);
        self.gate = 0;
        self.filled = self
            .book
            .read_there(self.place, &mut self.page)
            .unwrap_or(0);
    }
}

/// The length of the payload that stands whole behind an open gate.
fn payload_length(bytes: &[u8]) -> Option<usize> {
    match bytes {
        [1, a, b, c, d, rest @ ..] => {
            let length = u32::from_be_bytes([*a, *b, *c, *d]) as usize;
            if length <= rest.len() {
                Some(length)
            } else {
                None
            }
        }
        _ => None,
    }
}

fn is_journal<F: OpenFile + FileExt>(book: &Book<F>) -> bool {
    let mut front = [0; 8];
    book.read_there(0, &mut front).is_ok() && front == HEADER
}

/// What a book has, as its entries are read before it is opened.
#[derive(Clone, Copy)]
pub struct Survey {
    name: Option<Name>,
    entries: u64,
    latest: Option<u64>,
}

impl Survey {
    /// Whose book it is; nothing where its first entry names nobody.
    pub fn name(&self) -> &str {
        match &self.name {
            Some(name) => shown(name.bytes()),
            None => "",
        }
    }

    /// How many entries it has.
    pub fn entries(&self) -> u64 {
        self.entries
    }

    /// The greatest moment of its entries, in seconds since 1970; None where it has none.
    pub fn latest(&self) -> Option<u64> {
        self.latest
    }
}

/// Reads a book's entries; None where memory is refused.
pub fn survey_of<F: OpenFile + FileExt>(alloc: Global, book: &Book<F>) -> Option<Survey> {
    let mut entries = Entries::of(alloc, book).ok()?;
    let mut survey = Survey {
        name: None,
        entries: 0,
        latest: None,
    };
    for number in 0..u64::MAX {
        let Some(payload) = entries.next_payload() else {
            break;
        };
        if number == 0 {
            survey.name = name_of(payload);
        }
        survey.entries = survey.entries.saturating_add(1);
        survey.latest = survey.latest.max(moment_of(payload));
    }
    Some(survey)
}

/// The name in the first entry of a book.
fn name_of(payload: &[u8]) -> Option<Name> {
    match read_record(payload) {
        Ok(Record::Site { name, .. }) => Name::new(name),
        _ => None,
    }
}

/// The moment of a payload, which stands behind its kind.
fn moment_of(payload: &[u8]) -> Option<u64> {
    match payload {
        [_, a, b, c, d, e, f, g, h, ..] => {
            Some(u64::from_be_bytes([*a, *b, *c, *d, *e, *f, *g, *h]))
        }
        _ => None,
    }
}
