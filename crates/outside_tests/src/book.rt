//! A book over a file: what it keeps, who else may open it, and what is told where there is none.

use mc_outside::{Disk, DiskFault};
use mc_site::{Book, EarlyEnd, cause_of};
use std::alloc::Alloc;
use std::fs;
use std::fs::{File, Files, OpenOptions};
use std::io::ErrorKind;
use std::os::unix::fs::MetadataExt;
use std::process::Abort;
use std::test::Fail;

const PATH: &str = "a.book";

const LOCKED: &str = "locked.book";

const CUT: &str = "cut.book";

/// Why there is no book at this path; nothing where there is one.
fn refused<R: Files<File = File>>(rt: &R, path: &str, create: bool) -> &'static str {
    match Book::open(rt, path, create) {
        Ok(_) => "",
        Err(error) => cause_of(error.kind()),
    }
}

/// A book whose file is new keeps what is written, and is never made longer by a cut.
fn keeps_bytes<R: Files<File = File> + Alloc + Abort>(
    rt: &R,
    book: &mut Book<File>,
) -> Result<(), Fail> {
    assert_eq!(rt; book.write_at(3, b"abc"), Ok(()));
    assert_eq!(rt; book.size(), Ok(6));
    let mut buf = [7; 5];
    assert_eq!(rt; book.read(2, &mut buf), Ok(4));
    assert_eq!(rt; buf, *b"\0abc\x07");
    assert_eq!(rt; book.read(6, &mut buf), Ok(0));
    assert_eq!(rt; book.cut(7), Ok(()));
    assert_eq!(rt; book.size(), Ok(6));
    assert_eq!(rt; book.cut(5), Ok(()));
    assert_eq!(rt; book.sync(), Ok(()));
    assert_eq!(rt; fs::read(rt, PATH)?.as_slice(), b"\0\0\0ab".as_slice());
    assert_eq!(rt; fs::metadata(rt, PATH)?.mode() & 0o777, 0o600);
    assert_eq!(rt; book.faults(), 0);
    assert!(rt; !book.is_open_to_others());
    Ok(())
}

/// Its file is taken away where it has no bytes, and only there.
fn is_forgotten_if_empty<R: Files<File = File> + Abort>(
    rt: &R,
    book: &mut Book<File>,
) -> Result<(), Fail> {
    book.forget_if_empty(rt, PATH);
    assert!(rt; fs::exists(rt, PATH)?);
    assert_eq!(rt; book.cut(0), Ok(()));
    book.forget_if_empty(rt, PATH);
    assert!(rt; !fs::exists(rt, PATH)?);
    Ok(())
}

#[test]
fn a_book_over_a_file(rt: HostRuntime) -> Result<(), Fail> {
    let _ = fs::remove_file(&rt, PATH);
    assert_eq!(rt; refused(&rt, PATH, false), "no such file");
    assert!(rt; !fs::exists(&rt, PATH)?);
    let mut book = Book::open(&rt, PATH, true)?;
    keeps_bytes(&rt, &mut book)?;
    is_forgotten_if_empty(&rt, &mut book)
}

#[test]
fn each_cause_has_its_words(rt: HostRuntime) -> Result<(), Fail> {
    let causes = [
        (ErrorKind::WouldBlock, "locked by another process"),
        (ErrorKind::NotFound, "no such file"),
        (ErrorKind::PermissionDenied, "not permitted"),
        (ErrorKind::IsADirectory, "no regular file"),
        (ErrorKind::Unsupported, "no regular file"),
        (ErrorKind::NotADirectory, "no such folder"),
        (ErrorKind::AlreadyExists, "exists already"),
        (ErrorKind::StorageFull, "disk full"),
        (ErrorKind::ReadOnlyFilesystem, "read-only disk"),
        (ErrorKind::Interrupted, "not to be opened"),
    ];
    for (kind, words) in &causes {
        assert_eq!(rt; cause_of(*kind), *words);
    }
    Ok(())
}

#[test]
fn no_book_fails_each_call(rt: HostRuntime) -> Result<(), Fail> {
    let mut book = Book::<File>::none();
    let mut buf = [0; 4];
    assert_eq!(rt; book.size(), Err(DiskFault));
    assert_eq!(rt; book.read(0, &mut buf), Err(DiskFault));
    assert_eq!(rt; book.write_at(0, b"abc"), Err(DiskFault));
    assert_eq!(rt; book.cut(0), Err(DiskFault));
    assert_eq!(rt; book.sync(), Err(DiskFault));
    assert_eq!(rt; book.faults(), 5);
    Ok(())
}

/// What is open to read alone is read, and not changed.
fn is_read_alone(rt: &impl Abort, book: &mut Book<File>) {
    let mut buf = [0; 4];
    assert_eq!(rt; book.sync(), Ok(()));
    assert_eq!(rt; book.read(0, &mut buf), Ok(3));
    assert_eq!(rt; book.cut(0), Err(DiskFault));
    assert_eq!(rt; book.write_at(0, b"xyz"), Err(DiskFault));
    assert_eq!(rt; book.size(), Ok(3));
}

/// Writes a new book, which no other process can open meanwhile.
fn lock<R: Files<File = File> + Abort>(rt: &R, book: &mut Book<File>) {
    assert_eq!(rt; refused(rt, LOCKED, true), "locked by another process");
    assert_eq!(rt; refused(rt, LOCKED, false), "locked by another process");
    assert!(rt; Book::open_to_read(rt, LOCKED).is_err());
    assert_eq!(rt; book.size(), Ok(0));
    assert_eq!(rt; book.write_at(0, b"abc"), Ok(()));
}

#[test]
fn a_locked_book_is_refused(rt: HostRuntime) -> Result<(), Fail> {
    let mut first = Book::open(&rt, LOCKED, true)?;
    lock(&rt, &mut first);
    drop(first);
    let mut audited = Book::open_to_read(&rt, LOCKED)?;
    assert!(rt; Book::open_to_read(&rt, LOCKED).is_ok());
    assert_eq!(rt; refused(&rt, LOCKED, false), "locked by another process");
    is_read_alone(&rt, &mut audited);
    drop(audited);
    Book::open(&rt, LOCKED, true)?.forget_if_empty(&rt, LOCKED);
    assert!(rt; fs::exists(&rt, LOCKED)?);
    fs::remove_file(&rt, LOCKED)?;
    Ok(())
}

#[test]
fn no_book_where_no_file_can_be(rt: HostRuntime) -> Result<(), Fail> {
    assert!(rt; Book::open_to_read(&rt, ".").is_err());
    assert_eq!(rt; refused(&rt, ".", true), "no regular file");
    assert_eq!(rt; refused(&rt, "", true), "no such file");
    assert_eq!(rt; refused(&rt, "none/a.book", true), "no such file");
    Ok(())
}

/// A book of six bytes of which two are left: to read on there is a fault, and no end.
fn ends_early(rt: &impl Abort, book: &mut Book<File>) {
    let mut buf = [0; 4];
    assert_eq!(rt; book.read(0, &mut buf), Ok(2));
    assert_eq!(rt; book.early_end(), None);
    assert_eq!(rt; book.read(2, &mut buf), Err(DiskFault));
    assert_eq!(rt; book.early_end(), Some(EarlyEnd { known: 6, found: 2 }));
    assert_eq!(rt; book.faults(), 1);
    assert_eq!(rt; book.read(2, &mut []), Ok(0));
    assert_eq!(rt; book.read(6, &mut buf), Ok(0));
}

#[test]
fn a_book_cut_by_another_process(rt: HostRuntime) -> Result<(), Fail> {
    let mut book = Book::open(&rt, CUT, true)?;
    assert_eq!(rt; book.write_at(0, b"abcdef"), Ok(()));
    OpenOptions::new().write(true).open(&rt, CUT)?.set_len(2)?;
    ends_early(&rt, &mut book);
    drop(book);
    fs::remove_file(&rt, CUT)?;
    Ok(())
}

#[test]
fn the_words_of_an_early_end(rt: HostRuntime) -> Result<(), Fail> {
    let end = EarlyEnd { known: 6, found: 2 };
    let words = format!(in rt.alloc(); "{end}")?;
    assert_eq!(rt;
        words.as_str(),
        "unexpected end of file: the book has 6 bytes, 2 were read"
    );
    Ok(())
}
