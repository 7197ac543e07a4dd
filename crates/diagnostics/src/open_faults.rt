//! What is told of a book that could not be opened, or whose disk failed: why it is so, and what to do.

use crate::texts::word;
use mc_site::cause_of;
use std::io::ErrorKind;
use std::rt::Files;
use std::{fs, io};

/// Tells why the book at this path was not opened, and what to do. The command with these words founds it, or opens one
/// that is there.
pub fn tell_unopened(
    rt: &(impl Eprint + Files),
    words: &[String],
    path: &str,
    founds: bool,
    error: &io::Error,
) {
    let cause = cause_of(error.kind());
    match advice_on_opening(rt, path, founds, error) {
        Some(advice) => {
            let _ = eprintln!(rt; "millicent: {path}: {cause}: {advice}");
        }
        None => match word(words, 0) {
            "audit" => {
                let _ = eprintln!(rt; "millicent: {path}: {cause}: is the path right?");
            }
            role => {
                let _ = eprintln!(rt;
                    "millicent: {path}: {cause}: is the path right? millicent {role} init founds a book"
                );
            }
        },
    }
}

/// What to do about a book that was not opened; None where there is no file of that name, and the book is not founded.
fn advice_on_opening(
    files: &impl Files,
    path: &str,
    founds: bool,
    error: &io::Error,
) -> Option<&'static str> {
    match error.kind() {
        ErrorKind::WouldBlock => {
            Some("it is in use, by a site that serves it or by another command: stop that, or wait")
        }
        ErrorKind::NotFound => missing(files, path, founds),
        ErrorKind::PermissionDenied if founds => {
            Some("this user may not make it in that folder, or not write to it")
        }
        ErrorKind::PermissionDenied => {
            Some("this user may not open it: run the command as the book's owner")
        }
        ErrorKind::IsADirectory | ErrorKind::Unsupported => Some(irregular(files, path, error)),
        ErrorKind::NotADirectory => Some("what the path names as a folder is a file"),
        ErrorKind::StorageFull | ErrorKind::QuotaExceeded => { Some("make room, and run it again") }
        ErrorKind::ReadOnlyFilesystem => Some("its file system is mounted without writing"),
        ErrorKind::AlreadyExists => {
            Some("another process made or took away the file meanwhile: look, and run it again")
        }
        _ => Some("the system does not open it: look at the system's log"),
    }
}

/// What is missing of a book of which the system says that there is no such file.
fn missing(files: &impl Files, path: &str, founds: bool) -> Option<&'static str> {
    if fs::symlink_metadata(files, path).is_ok() {
        return Some("it is a symbolic link to a file that is missing");
    }
    if founds {
        Some("the folder that it is to be founded in is missing")
    } else {
        None
    }
}

/// What a book is that is no regular file, or can't be locked.
fn irregular(files: &impl Files, path: &str, error: &io::Error) -> &'static str {
    match fs::metadata(files, path) {
        Ok(there) if there.is_dir() => "it is a folder, and a book is a file",
        Ok(there) if !there.is_file() => "it is a pipe or a device, and a book is a file",
        _ => {
            if error.raw_os_error().is_some() {
                "its file system has no locks: keep the book on another"
            } else {
                "standard input, output or error is closed: open it, as by < /dev/null"
            }
        }
    }
}

/// Tells what the system said where a call of the disk of the book at this path failed, and what to do.
pub fn tell_disk_fault(rt: &impl Eprint, path: &str, fault: Option<io::Error>) {
    let Some(error) = fault else {
        return;
    };
    let advice = match error.kind() {
        ErrorKind::StorageFull | ErrorKind::QuotaExceeded => {
            "make room, and open the book again: it shows then what was entered"
        }
        _ => "the disk failed: look at the system's log before the book is opened again",
    };
    let _ = eprintln!(rt; "millicent: {path}: {error}: {advice}");
}
