//! How far the reading of a book is, where that takes long: one line of standard error, where that is a terminal, and nothing where it
//! is none.

use std::cell::Cell;
use std::fs::{File, Metadata, OpenFile};
use std::io;
use std::io::{IsTerminal, Write};
use std::os::fd::{AsRawFd, RawFd};
use std::os::unix::fs::FileExt;
use std::time::{Duration, Instant};

/// How many seconds a reading takes until the line is written.
const PATIENCE: u64 = 2;

/// How many bytes are read until the clock is looked at again.
const STEP: u64 = 1_048_576;

/// The most bytes of a path that are shown.
const MOST_SHOWN: usize = 32;

/// The one line of a terminal that shows how far a reading is. It is wiped before anything else is written there.
#[derive(Drop)]
pub struct Progress<'a> {
    rt: &'a HostRuntime,
    // standard error is a terminal, and readings are shown still
    is_shown: Cell<bool>,
    // the line is there
    is_written: Cell<bool>,
}

impl<'a> Progress<'a> {
    /// No line yet.
    pub fn new(rt: &'a HostRuntime) -> Progress<'a> {
        Progress {
            rt,
            is_shown: Cell::new(rt.stderr().is_terminal()),
            is_written: Cell::new(false),
        }
    }

    /// Wipes the line, where it is there.
    pub fn wipe(&self) {
        if self.is_written.get() {
            self.is_written.set(false);
            let _ = eprint!(self.rt; "\r\x1b[K");
        }
    }

    /// Wipes the line, and writes no other.
    pub fn end(&self) {
        self.wipe();
        self.is_shown.set(false);
    }

    /// Writes the line in place of the one before.
    fn write(&self, path: &str, reading: u32, share: Share, left: u64) {
        self.is_written.set(true);
        let path = end_of(path);
        let Share { percent, megabytes } = share;
        let _ = eprint!(self.rt;
            "\r\x1b[K{path}, reading {reading}: {percent} % of {megabytes} MB, {left} s left"
        );
    }

    fn now(&self) -> Option<Instant> {
        Instant::now(self.rt).ok()
    }
}

/// How much of a file is read.
#[derive(Clone, Copy)]
struct Share {
    percent: u64,
    /// The size of the file.
    megabytes: u64,
}

/// The last bytes of a path, as many as are shown.
fn end_of(path: &str) -> &str {
    let from = path.len().saturating_sub(MOST_SHOWN);
    for at in from..path.len() {
        if let Some(end) = path.get(at..) {
            return end;
        }
    }
    path
}

/// The file of a book, the reading of which is shown once it takes more than two seconds. Each reading from the front on is
/// counted: a command may read its book more than once.
#[derive(Drop)]
pub struct Metered<'a> {
    file: File,
    path: &'a str,
    progress: &'a Progress<'a>,
    // how many bytes the file had when it was opened
    size: u64,
    // the reading from the front on that goes on, by its number
    reading: Cell<u32>,
    // when it began
    began: Cell<Option<Instant>>,
    // up to where it was when the clock was looked at
    looked: Cell<u64>,
}

impl<'a> Metered<'a> {
    pub(crate) fn new(
        file: File,
        path: &'a str,
        progress: &'a Progress<'a>,
        size: u64,
    ) -> Metered<'a> {
        Metered {
            file,
            path,
            progress,
            size,
            reading: Cell::new(0),
            began: Cell::new(None),
            looked: Cell::new(0),
        }
    }

    /// So many bytes were read at this place.
    fn note(&self, at: u64, count: usize) {
        if at == 0 {
            self.begin();
        }
        let end = at.saturating_add(count as u64);
        if count == 0 || end >= self.size {
            self.progress.wipe();
        } else if end >= self.looked.get().saturating_add(STEP) {
            self.looked.set(end);
            self.look(end);
        }
    }

    /// A reading from the front on begins.
    fn begin(&self) {
        self.reading.set(self.reading.get().saturating_add(1));
        self.began.set(self.progress.now());
        self.looked.set(0);
    }

    /// Looks at the clock, and shows that the reading is at this place, where it has taken long.
    fn look(&self, at: u64) {
        let (Some(began), Some(now)) = (self.began.get(), self.progress.now()) else {
            return;
        };
        let took = now.duration_since(began);
        if took.as_secs() >= PATIENCE {
            let share = Share {
                percent: part(at.saturating_mul(100), self.size),
                megabytes: self.size / 1_000_000,
            };
            let left = seconds_left(took, at, self.size);
            self.progress
                .write(self.path, self.reading.get(), share, left);
        }
    }
}

/// How many seconds it takes for the rest of so many bytes, where those up to this place took so long.
fn seconds_left(took: Duration, at: u64, size: u64) -> u64 {
    let rest = size.saturating_sub(at);
    part(took.as_secs().saturating_mul(rest), at)
}

/// The one number by the other, rounded down; 0 where the other is 0.
fn part(whole: u64, by: u64) -> u64 {
    whole.checked_div(by).unwrap_or(0)
}

impl<'a> OpenFile for Metered<'a> {
    fn metadata(&self) -> io::Result<Metadata> {
        self.file.metadata()
    }

    fn set_len(&self, size: u64) -> io::Result<()> {
        self.file.set_len(size)
    }

    fn sync_all(&self) -> io::Result<()> {
        self.file.sync_all()
    }

    fn sync_data(&self) -> io::Result<()> {
        self.file.sync_data()
    }
}

impl<'a> FileExt for Metered<'a> {
    fn read_at(&self, buf: &mut [u8], offset: u64) -> io::Result<usize> {
        let read = self.file.read_at(buf, offset);
        if let Ok(count) = read
            && self.progress.is_shown.get()
        {
            self.note(offset, count);
        }
        read
    }

    fn write_at(&self, buf: &[u8], offset: u64) -> io::Result<usize> {
        self.file.write_at(buf, offset)
    }
}

impl<'a> AsRawFd for Metered<'a> {
    fn as_raw_fd(&self) -> RawFd {
        self.file.as_raw_fd()
    }
}

/// A writer, before whose bytes the line is wiped: that of a terminal is mostly the same terminal.
#[derive(Drop)]
pub struct Wiping<'a, W> {
    writer: W,
    progress: &'a Progress<'a>,
}

impl<'a, W: Write> Wiping<'a, W> {
    /// The writer, and the line that is wiped before it writes.
    pub fn new(writer: W, progress: &'a Progress<'a>) -> Wiping<'a, W> {
        Wiping { writer, progress }
    }
}

impl<'a, W: Write> Write for Wiping<'a, W> {
    fn write(&mut self, buf: &[u8]) -> io::Result<usize> {
        self.progress.wipe();
        self.writer.write(buf)
    }

    fn flush(&mut self) -> io::Result<()> {
        self.writer.flush()
    }
}
