ghost use Rattle.std.specs.Prelude.{◌≡◌, ◌≤◌, length, IfOk};
ghost use Rattle.mc_site.specs.Counts.{book_counts};

use crate::faults::counted;
use crate::progress::{Metered, Progress};
use mc_outside::{Disk, DiskFault};
use std::fs::{File, Files, OpenFile, OpenOptions};
use std::io::ErrorKind;
use std::marker::Model;
use std::os::fd::{AsRawFd, RawFd};
use std::os::unix::fs::{FileExt, MetadataExt, OpenOptionsExt};
use std::path::Path;
use std::{fmt, fs, io};

/// A disk over one open file, or over none: then each call fails. It tells nothing of the bytes: that the
/// system keeps them is trusted. Contracts see how many of its calls failed.
///
/// The file has at least the bytes that it had when it was opened, and those that were written since. Where the system says that
/// it ends before, that is a fault, and no end: the disk or another process lost what was there.
#[derive(Drop)]
pub struct Book<F> {
    file: Option<F>,
    faults: u64,
    /// What the system said of the last fault.
    last_fault: Option<io::Error>,
    /// Where the file ended before its known end, where the last read found that.
    early_end: Option<EarlyEnd>,
    /// The file was made for it.
    made: bool,
    /// How many bytes the file has at least.
    known: u64,
}

impl<F> Model for Book<F> {
    ghost use Rattle.std.specs.Prelude.{ℕ};

    ghost Value = { ℕ };

    ghost view = { λ b. b.faults };
}

impl<F> Book<F> {
    /// A disk whose every call fails, and is counted.
    pub fn none() -> Book<F>
        ensures { result ≡ 0 }
    {
        Book {
            file: None,
            faults: 0,
            last_fault: None,
            early_end: None,
            made: false,
            known: 0,
        }
    }

    /// What the system said of the last fault of the open file.
    pub fn fault(&self) -> Option<io::Error> {
        match self.file {
            Some(_) => self.last_fault,
            None => None,
        }
    }

    /// Where the file ended before its known end, where the last read found that.
    pub fn early_end(&self) -> Option<EarlyEnd> {
        self.early_end
    }

    /// How many of its calls failed, up to the greatest number.
    pub fn faults(&self) -> u64
        ensures { result ≡ self.now }
    {
        self.faults
    }

    /// Whether there is a file.
    pub fn is_open(&self) -> bool {
        self.file.is_some()
    }

    fn opened(&self) -> io::Result<&F> {
        match &self.file {
            Some(file) => Ok(file),
            None => Err(ErrorKind::NotFound.into()),
        }
    }
}

impl Book<File> {
    /// The book at this path, for this process alone: the file's lock is taken, and lasts as long as the
    /// file is open, so a kill ends it too. Where there is no file one is made, if `create` says so. An Err
    /// says why there is none: the file can't be opened, is not a regular one, or is locked by another process
    /// (`cause_of`).
    pub fn open<R: Files<File = File>>(rt: &R, path: &str, create: bool) -> io::Result<Book<File>>
        ensures { IfOk result (λ book. book ≡ 0) }
    {
        let (file, made) = file_at(rt, path, create)?;
        of_file(file, made)
    }

    /// As `open`, to read alone: nothing can be written to the book, no file is made, and others may read it, too.
    pub fn open_to_read<R: Files<File = File>>(rt: &R, path: &str) -> io::Result<Book<File>>
        ensures { IfOk result (λ book. book ≡ 0) }
    {
        let file = file_to_read(rt, path)?;
        of_file(file, false)
    }

    /// The same book, which shows how far its reading is under this path.
    pub fn metered<'a>(self, path: &'a str, progress: &'a Progress<'a>) -> Book<Metered<'a>>
        ensures { result ≡ self }
    {
        let file = match self.file {
            Some(file) => Some(Metered::new(file, path, progress, self.known)),
            None => None,
        };
        Book {
            file,
            faults: self.faults,
            last_fault: self.last_fault,
            early_end: self.early_end,
            made: self.made,
            known: self.known,
        }
    }
}

/// The book of an open file, with the bytes that it has now.
fn of_file(file: File, made: bool) -> io::Result<Book<File>>
    ensures { IfOk result (λ book. book ≡ 0) }
{
    let known = file.metadata()?.len();
    Ok(Book {
        file: Some(file),
        faults: 0,
        last_fault: None,
        early_end: None,
        made,
        known,
    })
}

/// A book's file that ended before its known end.
#[derive(Clone, Copy, Debug, PartialEq, Eq)]
pub struct EarlyEnd {
    /// How many bytes the book has.
    pub known: u64,
    /// How many of them the system had.
    pub found: u64,
}

impl fmt::Display for EarlyEnd {
    fn fmt<W: fmt::Write>(&self, f: &mut fmt::Formatter<W>) -> fmt::Result {
        let known = self.known;
        let found = self.found;
        write!(
            f,
            "unexpected end of file: the book has {known} bytes, {found} were read"
        )
    }
}

/// What an open file is known by, whatever its name.
#[derive(Clone, Copy)]
pub(crate) struct FileMark {
    pub(crate) inode: u64,
    pub(crate) device: u64,
    pub(crate) descriptor: RawFd,
}

fn mark_of<F: OpenFile + AsRawFd>(file: &F) -> io::Result<FileMark> {
    let here = file.metadata()?;
    Ok(FileMark {
        inode: here.ino(),
        device: here.dev(),
        descriptor: file.as_raw_fd(),
    })
}

/// Why a book was not opened, in a few words, by what the system tells.
pub fn cause_of(kind: ErrorKind) -> &'static str {
    match kind {
        ErrorKind::WouldBlock => "locked by another process",
        ErrorKind::NotFound => "no such file",
        ErrorKind::PermissionDenied => "not permitted",
        ErrorKind::IsADirectory | ErrorKind::Unsupported => "no regular file",
        ErrorKind::NotADirectory => "no such folder",
        ErrorKind::AlreadyExists => "exists already",
        ErrorKind::StorageFull => "disk full",
        ErrorKind::ReadOnlyFilesystem => "read-only disk",
        _ => "not to be opened",
    }
}

/// The file at this path, locked, and whether it was made here. It has secrets, so only its owner may read one
/// that is made; one that is made and can't be used is taken away again.
fn file_at<R: Files<File = File>>(rt: &R, path: &str, create: bool) -> io::Result<(File, bool)> {
    if create {
        match new_file(rt, path) {
            Ok(file) => {
                file.try_lock()?;
                return match named(rt, path, &file) {
                    Ok(()) => Ok((file, true)),
                    Err(e) => {
                        let _ = fs::remove_file(rt, path);
                        Err(e)
                    }
                };
            }
            Err(e) if e.kind() == ErrorKind::AlreadyExists => {}
            Err(e) => return Err(e),
        }
    }
    let file = OpenOptions::new().read(true).write(true).open(rt, path)?;
    file.try_lock()?;
    if create {
        named(rt, path, &file)?;
    } else {
        usable(rt, path, &file)?;
    }
    Ok((file, false))
}

/// The file at this path, to read alone, under a lock that others who only read may have, too. What is no regular file
/// is not opened, since that may wait.
fn file_to_read<R: Files<File = File>>(rt: &R, path: &str) -> io::Result<File> {
    if !fs::metadata(rt, path)?.is_file() {
        return Err(ErrorKind::Unsupported.into());
    }
    let file = File::open(rt, path)?;
    file.try_lock_shared()?;
    usable(rt, path, &file)?;
    Ok(file)
}

/// A file that was not there.
fn new_file<R: Files<File = File>>(rt: &R, path: &str) -> io::Result<File> {
    OpenOptions::new()
        .read(true)
        .write(true)
        .create_new(true)
        .mode(0o600)
        .open(rt, path)
}

/// Makes the name of a locked file last, where the file may be used.
fn named<R: Files<File = File>>(rt: &R, path: &str, file: &File) -> io::Result<()> {
    usable(rt, path, file)?;
    sync_folder(rt, path)
}

/// A locked file may be used where it is a regular one, and the one that the path names: another process may
/// have taken it away before.
fn usable<R: Files<File = File>>(rt: &R, path: &str, file: &File) -> io::Result<()> {
    let here = file.metadata()?;
    // What is said where standard output was closed must not land in the book.
    if file.as_raw_fd() <= 2 || !here.is_file() {
        return Err(ErrorKind::Unsupported.into());
    }
    let there = fs::metadata(rt, path)?;
    if here.ino() != there.ino() || here.dev() != there.dev() {
        return Err(ErrorKind::NotFound.into());
    }
    Ok(())
}

/// Makes the name of a file that may be new last: a sync of the file does not.
fn sync_folder<R: Files<File = File>>(rt: &R, path: &str) -> io::Result<()> {
    let folder = match Path::new(path).parent() {
        Some(folder) if !folder.as_str().is_empty() => folder.as_str(),
        _ => ".",
    };
    File::open(rt, folder)?.sync_all()
}

impl<F: OpenFile + AsRawFd> Book<F> {
    /// What its file is known by.
    pub(crate) fn mark(&self) -> Option<FileMark> {
        match self.opened() {
            Ok(file) => mark_of(file).ok(),
            Err(_) => None,
        }
    }
}

impl<F: OpenFile + FileExt> Book<F> {
    /// Takes the file away that was made for the book, where it has no bytes.
    pub fn forget_if_empty<R: Files>(&self, rt: &R, path: &str) {
        if let Ok(0) = self.length()
            && self.made
        {
            let _ = fs::remove_file(rt, path);
        }
    }

    /// Whether others than the file's owner may read it or write to it.
    pub fn is_open_to_others(&self) -> bool {
        match self.mode() {
            Ok(mode) => mode & 0o077 != 0,
            Err(_) => false,
        }
    }

    fn mode(&self) -> io::Result<u32> {
        Ok(self.opened()?.metadata()?.mode())
    }

    fn length(&self) -> io::Result<u64> {
        Ok(self.opened()?.metadata()?.len())
    }

    /// Reads from a place of the file, whatever the count of faults: up to `buf.len()` bytes, and 0 at the file's end or where
    /// `buf` is empty. 0 before the file's known end is an error (`UnexpectedEof`). An error is not counted.
    pub fn read_there(&self, at: u64, buf: &mut [u8]) -> io::Result<usize>
        ensures { IfOk result (λ n. n ≤ length buf.old) }
    {
        let n = self.opened()?.read_at(buf, at)?;
        if n == 0 && at < self.known && !buf.is_empty() {
            return Err(ErrorKind::UnexpectedEof.into());
        }
        Ok(n)
    }

    /// Where the file ended before its known end, as a read at this place answered, where it answered that.
    fn early_end_of(&self, answer: &io::Result<usize>, at: u64) -> Option<EarlyEnd> {
        match answer {
            Err(e) if e.kind() == ErrorKind::UnexpectedEof => Some(EarlyEnd {
                known: self.known,
                found: at,
            }),
            _ => None,
        }
    }

    fn write_there(&self, at: u64, bytes: &[u8]) -> io::Result<()> {
        self.opened()?.write_all_at(bytes, at)
    }

    /// Sets the length only where the file is longer, so it never grows.
    fn shorten(&self, size: u64) -> io::Result<()> {
        if self.length()? <= size {
            return Ok(());
        }
        self.opened()?.set_len(size)
    }

    /// `sync_data` (`fdatasync`) makes the bytes last and what is needed to read them, so the length too,
    /// whether it grew or was cut; `sync_all` would write the times as well.
    fn sync_data(&self) -> io::Result<()> {
        self.opened()?.sync_data()
    }
}

impl<F: OpenFile + FileExt> Disk for Book<F> {
    ghost use Rattle.mc_outside.specs.Silent.{silent_disk, SilentDiskMoved, silent_is_disk, silent_disk_none, silent_disk_then, silent_disk_goes};

    ghost disk = { λ b. silent_disk (book_counts b) };

    ghost disk_moved = { λ a b. SilentDiskMoved (book_counts a) (book_counts b) };

    ghost is_disk = { λ b. silent_is_disk (book_counts b) };

    ghost disk_stays = { λ a. silent_disk_none _ };

    ghost disk_goes_on = { λ a b c m n. silent_disk_then _ _ _ m n };

    ghost disk_goes = { λ a b m. silent_disk_goes _ _ m };

    fn size(&mut self) -> Result<u64, DiskFault> {
        let answer = self.length();
        counted(&mut self.faults, &mut self.last_fault, answer, DiskFault)
    }

    fn read(&mut self, at: u64, buf: &mut [u8]) -> Result<usize, DiskFault> {
        let answer = self.read_there(at, buf);
        self.early_end = self.early_end_of(&answer, at);
        counted(&mut self.faults, &mut self.last_fault, answer, DiskFault)
    }

    fn write_at(&mut self, at: u64, bytes: &[u8]) -> Result<(), DiskFault> {
        let answer = self.write_there(at, bytes);
        if answer.is_ok() {
            self.known = self.known.max(at.saturating_add(bytes.len() as u64));
        }
        counted(&mut self.faults, &mut self.last_fault, answer, DiskFault)
    }

    fn cut(&mut self, size: u64) -> Result<(), DiskFault> {
        let answer = self.shorten(size);
        self.known = self.known.min(size);
        counted(&mut self.faults, &mut self.last_fault, answer, DiskFault)
    }

    fn sync(&mut self) -> Result<(), DiskFault> {
        let answer = self.sync_data();
        counted(&mut self.faults, &mut self.last_fault, answer, DiskFault)
    }
}
