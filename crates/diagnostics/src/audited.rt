//! What is told of the books of an audit: which one can't stand, and why some are not audited together.

use crate::entries::Entries;
use crate::refusals::role_of;
use crate::stops::{Stop, may_stop, stop_said};
use crate::texts::{shown, word};
use mc_base::List;
use mc_records::{Record, read_record};
use mc_site::{Book, Passed};
use std::alloc::{AllocError, Global};
use std::fs::OpenFile;
use std::os::unix::fs::FileExt;

/// Tells of which book a status of 3 is, and why the books are refused together, where the command with these words is an
/// audit of the books at these paths. They are looked at a second time.
pub fn tell_audit<F: OpenFile + FileExt>(
    rt: &impl Eprint,
    alloc: Global,
    words: &[String],
    paths: &[List<u8>],
    books: &[Book<F>],
    passed: &Passed,
) {
    if word(words, 0) != "audit" {
        return;
    }
    if passed.said().starts_with(b"refused 69 ") {
        if let Ok(owners) = owners_of(alloc, books) {
            tell_bad_books(rt, word(words, 1) == "tree", paths, &owners);
        }
    } else if let Some(stop) = stop_said(passed.said()) {
        tell_stop(rt, alloc, &stop, shown(passed.said()), paths, books);
    }
}

/// Tells which book it is that ended the audit with this line. Those before it are lawful: it is the first of which the bytes
/// show it, or the only one of which it may be said; else all of these are told.
fn tell_stop<F: OpenFile + FileExt>(
    rt: &impl Eprint,
    alloc: Global,
    stop: &Stop,
    line: &str,
    paths: &[List<u8>],
    books: &[Book<F>],
) {
    let mut found = Vec::new(alloc);
    for (path, book) in paths.iter().zip(books) {
        if may_stop(alloc, book, stop) && found.push(text(path)).is_err() {
            return;
        }
    }
    let count = if stop.is_shown() { 1 } else { found.len() };
    for path in found.iter().take(count) {
        if count == 1 {
            let _ = eprintln!(rt; "millicent: {path}: {line}");
        } else {
            let _ = eprintln!(rt; "millicent: {path}, or another of {count} books: {line}");
        }
    }
}

/// Whose a book is.
#[derive(Drop)]
struct Owner {
    kind: u8,
    name: Vec<u8>,
}

/// Whose each book is, in their order; of what has no Site entry in front, a wallet's without a name.
fn owners_of<F: OpenFile + FileExt>(
    alloc: Global,
    books: &[Book<F>],
) -> Result<Vec<Owner>, AllocError> {
    let mut owners = Vec::new(alloc);
    for book in books {
        let owner = owner_of(alloc, book)?;
        owners.push(owner)?;
    }
    Ok(owners)
}

fn owner_of<F: OpenFile + FileExt>(alloc: Global, book: &Book<F>) -> Result<Owner, AllocError> {
    let mut entries = Entries::of(alloc, book)?;
    if let Some(payload) = entries.next_payload()
        && let Ok(Record::Site { kind, name, .. }) = read_record(payload)
    {
        return Ok(Owner {
            kind,
            name: Vec::from_slice(alloc, name)?,
        });
    }
    Ok(Owner {
        kind: 2,
        name: Vec::new(alloc),
    })
}

/// Tells why books of these owners are not audited together.
fn tell_bad_books(rt: &impl Eprint, is_tree: bool, paths: &[List<u8>], owners: &[Owner]) {
    let mut has_broker = false;
    let mut left = owners;
    for (n, path) in paths.iter().enumerate() {
        let Some((owner, behind)) = left.split_first() else {
            break;
        };
        left = behind;
        if owner.kind == 2 {
            let path = text(path);
            let _ = eprintln!(rt; "millicent: {path} is the book of a wallet: leave it out");
        }
        has_broker = has_broker || owner.kind == 1;
        for (other, other_path) in behind.iter().zip(paths.iter().skip(n.saturating_add(1))) {
            tell_pair(rt, is_tree, (text(path), owner), (text(other_path), other));
        }
    }
    if !has_broker {
        let _ = eprintln!(rt; "millicent: none of them is the book of a broker");
    }
}

/// Tells where two books are not audited together: they have one name, or both are brokers'.
fn tell_pair(rt: &impl Eprint, is_tree: bool, one: (&str, &Owner), other: (&str, &Owner)) {
    let ((path, owner), (other_path, of)) = (one, other);
    if owner.kind == 2 || of.kind == 2 {
        return;
    }
    let is_same_kind = owner.kind == of.kind;
    if owner.name.as_slice() == of.name.as_slice() && (is_tree || is_same_kind) {
        let name = shown(&owner.name);
        let role = role_of(owner.kind);
        let _ = eprintln!(rt;
            "millicent: {path} and {other_path} both have the name {name}, as the book of a {role}: leave one out"
        );
    } else if !is_tree && is_same_kind && owner.kind == 1 {
        let _ = eprintln!(rt;
            "millicent: {path} and {other_path} are books of two brokers: millicent audit tree takes several"
        );
    }
}

/// The text of a path.
fn text(path: &List<u8>) -> &str {
    str::from_utf8(path.slice()).unwrap_or("")
}
