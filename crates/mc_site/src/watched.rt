//! A site goes on in the file that it opened, though its name may lead to another file by now: that is told.

use crate::book::{Book, FileMark};
use mc_door::Source;
use std::fs::OpenFile;
use std::os::fd::AsRawFd;
use std::os::unix::fs::MetadataExt;
use std::path::PathBuf;
use std::time::Instant;
use std::{fs, io};

/// How many seconds go by until it is looked again where the name leads.
const LOOK: u64 = 60;

/// The links of another source, and where they are taken, once a minute, a look where the name of a book leads.
/// Where that is not the file that was opened, standard error says so, once.
#[derive(Drop)]
pub struct Watched<'a, S> {
    source: S,
    rt: &'a HostRuntime,
    path: &'a str,
    // the file, where one was opened
    file: Option<FileMark>,
    looked: Option<Instant>,
    told: bool,
}

impl<'a, S> Watched<'a, S> {
    /// The links of a source, under the name of this book.
    pub fn new<F: OpenFile + AsRawFd>(
        source: S,
        rt: &'a HostRuntime,
        path: &'a str,
        book: &Book<F>,
    ) -> Watched<'a, S> {
        Watched {
            source,
            rt,
            path,
            file: book.mark(),
            looked: Instant::now(rt).ok(),
            told: false,
        }
    }

    /// Looks where the name leads, and tells where that is not the file.
    fn look(&mut self) {
        let Some(file) = self.file else {
            return;
        };
        if !self.told && !is_at(self.rt, self.path, file) {
            self.told = true;
            tell_moved(self.rt, self.path, file);
        }
    }

    /// Whether it is time to look.
    fn is_due(&mut self) -> bool {
        let now = Instant::now(self.rt).ok();
        let is_due = match (now, self.looked) {
            (Some(now), Some(looked)) => now.duration_since(looked).as_secs() >= LOOK,
            _ => false,
        };
        if is_due {
            self.looked = now;
        }
        is_due
    }
}

/// Whether the path leads to the file.
fn is_at(rt: &HostRuntime, path: &str, file: FileMark) -> bool {
    match fs::metadata(rt, path) {
        Ok(there) => there.ino() == file.inode && there.dev() == file.device,
        Err(_) => false,
    }
}

/// Tells that the path does not lead to the file, and which name the system has for that.
fn tell_moved(rt: &HostRuntime, path: &str, file: FileMark) {
    match name_of(rt, file) {
        Ok(name) => {
            let name = name.as_str();
            let _ = eprintln!(rt;
                "millicent: {path} no longer leads to the book that is served: that is {name}"
            );
        }
        Err(_) => {
            let _ = eprintln!(rt; "millicent: {path} no longer leads to the book that is served");
        }
    }
}

/// The name that Linux has for an open file.
fn name_of(rt: &HostRuntime, file: FileMark) -> io::Result<PathBuf> {
    let descriptor = file.descriptor;
    let link = format!(in rt.alloc(); "/proc/self/fd/{descriptor}")?;
    fs::read_link(rt, link.as_str())
}

impl<'a, S: Source> Source for Watched<'a, S> {
    fn next(&mut self) -> io::Result<bool> {
        if self.is_due() {
            self.look();
        }
        self.source.next()
    }

    fn recv(&mut self, buf: &mut [u8]) -> io::Result<usize> {
        self.source.recv(buf)
    }

    fn send(&mut self, bytes: &[u8]) -> io::Result<usize> {
        self.source.send(bytes)
    }

    fn is_operators(&self) -> bool {
        self.source.is_operators()
    }

    fn end(&mut self) {
        self.source.end();
    }

    fn finish(&mut self) {
        self.look();
        self.source.finish();
    }
}
