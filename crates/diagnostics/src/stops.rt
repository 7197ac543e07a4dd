//! Where a book can't stand, by a second look at its bytes.

use command_table::{MOST_NUMBER, number_from};
use mc_records::{FRAME, PAYLOAD_BOUND, begins_switch, read_record, tail_len};
use mc_site::Book;
use scrip_journal::FIRST_GATE;
use std::alloc::Global;
use std::fs::OpenFile;
use std::os::unix::fs::FileExt;

/// What is said of a book that can't stand.
#[derive(Clone, Copy)]
pub(crate) enum Stop {
    NoJournal,
    /// The bytes can't stand from this place on.
    BadEntry(u64),
    /// The chain at this place is another than that of the entries.
    BadChain(u64),
    /// The entry behind the gate at this place may not follow those before it, or be the first.
    Unlawful(u64),
}

impl Stop {
    /// Whether the bytes of a book show that it is said of it, and not only that it may be.
    pub(crate) fn is_shown(&self) -> bool {
        matches!(self, Stop::NoJournal | Stop::BadEntry(_))
    }
}

/// What a line says of a book that can't stand.
pub(crate) fn stop_said(line: &[u8]) -> Option<Stop> {
    if line == b"not a journal\n".as_slice() {
        return Some(Stop::NoJournal);
    }
    if let Some(place) = place_behind(line, b"bad entry at ") {
        return Some(Stop::BadEntry(place));
    }
    if let Some(place) = place_behind(line, b"bad chain at ") {
        return Some(Stop::BadChain(place));
    }
    Some(Stop::Unlawful(place_behind(line, b"unlawful entry at ")?))
}

/// The place at the end of a line that begins so.
fn place_behind(line: &[u8], front: &[u8]) -> Option<u64> {
    let rest = line.strip_prefix(front)?;
    number_from(0, MOST_NUMBER, rest.strip_suffix(b"\n".as_slice())?)
}

/// Whether this is said of a book, by its bytes; or, of a chain and of what is not lawful, whether it may be said of it.
pub(crate) fn may_stop<F: OpenFile + FileExt>(alloc: Global, book: &Book<F>, stop: &Stop) -> bool {
    match stop {
        Stop::NoJournal => !is_journal(book),
        Stop::BadEntry(place) => is_journal(book) && is_bad_at(alloc, book, *place),
        Stop::BadChain(place) => {
            let Walk { last, .. } = walk_to(book, *place);
            match last {
                Some(frame) => is_journal(book) && frame.tail > 0 && frame.chain() == *place,
                None => false,
            }
        }
        Stop::Unlawful(place) => {
            if *place == FIRST_GATE {
                return is_journal(book) && !begins_with_site(book);
            }
            let Walk { gate, .. } = walk_to(book, *place);
            is_journal(book) && gate == *place && is_open(book, gate)
        }
    }
}

/// Whether a book can't stand from just this place on: it ends there within an entry or before a gate, or there is a length or
/// a field that can't be.
fn is_bad_at<F: OpenFile + FileExt>(alloc: Global, book: &Book<F>, place: u64) -> bool {
    let Walk { last, gate } = walk_to(book, place);
    if is_end(book, place) {
        return gate >= place || is_open(book, gate);
    }
    match last {
        Some(frame) => frame.is_bad(alloc, book, place),
        None => false,
    }
}

/// Where an entry is in a book: its gate, which is open, the length of its payload, and that of its chain.
#[derive(Clone, Copy)]
struct Frame {
    gate: u64,
    length: u64,
    tail: u64,
    is_switch: bool,
}

impl Frame {
    /// The place of the payload.
    fn payload(&self) -> u64 {
        self.gate.saturating_add(FRAME)
    }

    /// The place of the chain, or of the next gate where there is none.
    fn chain(&self) -> u64 {
        self.payload().saturating_add(self.length)
    }

    /// Whether it is this place from which on its length or its payload, which is whole, can't stand.
    fn is_bad<F: OpenFile + FileExt>(&self, alloc: Global, book: &Book<F>, place: u64) -> bool {
        if self.length >= PAYLOAD_BOUND {
            return place == self.gate.saturating_add(1);
        }
        let Ok(mut bytes) = Vec::from_elem(alloc, 0, self.length as usize) else {
            return false;
        };
        let count = book.read_there(self.payload(), &mut bytes).unwrap_or(0);
        match read_record(&bytes) {
            Ok(_) => false,
            Err(fault) => {
                let at = self.payload().saturating_add(fault.place as u64);
                count == bytes.len() && at == place
            }
        }
    }
}

/// How far the entries of a book lead.
#[derive(Clone, Copy)]
struct Walk {
    /// The last whose gate is before the place.
    last: Option<Frame>,
    /// The gate behind it: the first at the place or after it, or the one at which the entries end.
    gate: u64,
}

/// Goes from entry to entry up to this place.
fn walk_to<F: OpenFile + FileExt>(book: &Book<F>, place: u64) -> Walk {
    let mut last = None;
    let mut gate = FIRST_GATE;
    let mut switched = false;
    for _ in 0..u64::MAX {
        if gate >= place {
            break;
        }
        let Some(frame) = frame_at(book, gate, tail_len(switched)) else {
            break;
        };
        gate = frame.chain().saturating_add(frame.tail);
        switched = switched || frame.is_switch;
        last = Some(frame);
    }
    Walk { last, gate }
}

/// The entry behind the gate at this place, with a chain of so many bytes, where the gate is open and the length is there.
fn frame_at<F: OpenFile + FileExt>(book: &Book<F>, gate: u64, tail: u64) -> Option<Frame> {
    let mut front = [0; 6];
    let count = book.read_there(gate, &mut front).unwrap_or(0);
    match front {
        [1, a, b, c, d, kind] if count >= 5 => {
            Some(Frame {
                gate,
                length: u64::from(u32::from_be_bytes([a, b, c, d])),
                tail,
                is_switch: begins_switch(&[kind]),
            })
        }
        _ => None,
    }
}

/// Whether the gate at this place is open.
fn is_open<F: OpenFile + FileExt>(book: &Book<F>, gate: u64) -> bool {
    let mut byte = [0];
    book.read_there(gate, &mut byte).is_ok() && byte == [1]
}

/// Whether a book ends at this place.
fn is_end<F: OpenFile + FileExt>(book: &Book<F>, place: u64) -> bool {
    place > 0
        && matches!(book.read_there(place, &mut [0]), Ok(0))
        && matches!(book.read_there(place - 1, &mut [0]), Ok(1))
}

/// Whether a book begins as a journal does.
fn is_journal<F: OpenFile + FileExt>(book: &Book<F>) -> bool {
    let mut front = [0; 8];
    book.read_there(0, &mut front).is_ok() && front == *b"MCJRNL1\n"
}

/// Whether the first entry of a book is a Site, by its kind.
fn begins_with_site<F: OpenFile + FileExt>(book: &Book<F>) -> bool {
    let mut front = [0; 6];
    let count = book.read_there(FIRST_GATE, &mut front).unwrap_or(0);
    matches!(front, [1, _, _, _, _, 1]) && count == 6
}
