//! What is told of a refusal with which a command ended: what it means, and what to do.

use crate::advice::{advice, site_advice, unproved_advice};
use crate::entries::Entries;
use crate::input_faults::tell_bad_line;
use crate::pending_draws::waiting_for;
use crate::texts::{leading_number, shown, word};
use httpdate::HttpDate;
use mc_records::{MOST_CONTENTS, Record, read_record};
use mc_site::{Book, Passed};
use std::alloc::Global;
use std::fs::OpenFile;
use std::os::unix::fs::FileExt;

/// Tells what the refusal means with which the command with these words ended, where it did.
pub fn tell_refusal<F: OpenFile + FileExt>(
    rt: &impl Eprint,
    alloc: Global,
    words: &[String],
    book: &Book<F>,
    passed: &Passed,
) {
    let Some((number, kept)) = refused(passed.said()) else {
        return;
    };
    if let Some(text) = advice(number) {
        let _ = eprintln!(rt; "millicent: {text}");
    }
    match number {
        52 => tell_other_role(rt, alloc, word(words, 2), book),
        53 => tell_bad_line(rt, words, passed),
        54 => tell_too_large(rt, kept),
        62 => tell_no_funds(rt, alloc, words, book, kept),
        63..=66 => tell_kept(rt, words, number, passed),
        68 => tell_site_refusal(rt, kept),
        74 => tell_open_series(rt, kept),
        _ => {}
    }
}

/// The number of the refusal that is said, and what it keeps.
fn refused(said: &[u8]) -> Option<(u64, &str)> {
    let text = shown(said).strip_prefix("refused ")?;
    let number = leading_number(text)?;
    match text.split_once(' ') {
        Some((_, behind)) => match behind.split_once(' ') {
            Some((_, kept)) => Some((number, kept)),
            None => Some((number, "")),
        },
        None => Some((number, "")),
    }
}

/// Tells of which role the book at this path is, which is not that of the command.
pub fn tell_other_role<F: OpenFile + FileExt>(
    rt: &impl Eprint,
    alloc: Global,
    path: &str,
    book: &Book<F>,
) {
    let Ok(mut entries) = Entries::of(alloc, book) else {
        return;
    };
    if let Some(payload) = entries.next_payload()
        && let Ok(Record::Site { kind, .. }) = read_record(payload)
    {
        let role = role_of(kind);
        let _ = eprintln!(rt;
            "millicent: {path} is the book of a {role}: its commands are those of millicent {role}"
        );
    }
}

/// The word for the role of a book of this kind.
pub(crate) fn role_of(kind: u8) -> &'static str {
    match kind {
        0 => "vendor",
        1 => "broker",
        _ => "wallet",
    }
}

/// Tells by how much contents are too large. All that is on sale with them is told, or one byte more than goods may have.
fn tell_too_large(rt: &impl Eprint, kept: &str) {
    let most = MOST_CONTENTS;
    match leading_number(kept) {
        Some(bytes) if bytes > most as u64 + 1 => {
            let _ = eprintln!(rt;
                "millicent: with these contents {bytes} bytes would be on sale, and 67108864 are the most: take less for others first"
            );
        }
        _ => {
            let _ = eprintln!(rt;
                "millicent: CONTENTS has more than {most} bytes, the most that goods have ({kept} were read)"
            );
        }
    }
}

/// Tells why no piece pays, and which requests may have one.
fn tell_no_funds<F: OpenFile + FileExt>(
    rt: &impl Eprint,
    alloc: Global,
    words: &[String],
    book: &Book<F>,
    best: &str,
) {
    let peer = word(words, 3);
    if word(words, 1) == "lines" {
        let _ = eprintln!(rt;
            "millicent: no held piece of {peer} may be sold on: one that has not ended and is no change"
        );
    } else if best == "0" {
        let _ = eprintln!(rt; "millicent: no piece of {peer} is held that has not ended");
    } else {
        let limit = limit_of(words);
        let _ = eprintln!(rt;
            "millicent: no held piece of {peer} is worth {limit} or more: the best is {best}"
        );
    }
    let waiting = waiting_for(alloc, book, peer.as_bytes());
    if waiting > 0 {
        let path = word(words, 2);
        let _ = eprintln!(rt;
            "millicent: requests to {peer} that wait for a reply: {waiting} (millicent wallet retry {path} {peer} CONNECT)"
        );
    }
}

/// The word for the limit of a wallet's command that buys or gets.
fn limit_of(words: &[String]) -> &str {
    if word(words, 1) == "buy" {
        word(words, 6)
    } else {
        word(words, 5)
    }
}

/// Tells what a refusal means that nobody signed, and that the request is kept.
fn tell_kept(rt: &impl Eprint, words: &[String], number: u64, passed: &Passed) {
    if number == 66
        && let Some(reply) = passed.reply()
        && let Some(refusal) = reply.refusal
        && let Some(claimed) = leading_number(shown(refusal))
        && let Some(text) = unproved_advice(claimed)
    {
        let _ = eprintln!(rt; "millicent: {text}");
    }
    let (path, peer) = (word(words, 2), word(words, 3));
    let _ = eprintln!(rt;
        "millicent: the request is kept: millicent wallet retry {path} {peer} CONNECT sends it again"
    );
}

/// Tells what the refusal of this number means that a site signed.
fn tell_site_refusal(rt: &impl Eprint, kept: &str) {
    if let Some(number) = leading_number(kept)
        && let Some(text) = site_advice(number)
    {
        let _ = eprintln!(rt; "millicent: {text}");
    }
}

/// Tells when a series ends that has not.
fn tell_open_series(rt: &impl Eprint, kept: &str) {
    if let Some(end) = leading_number(kept)
        && let Ok(date) = HttpDate::from_unix_secs(end)
    {
        let _ = eprintln!(rt; "millicent: the epoch has not ended: it ends on {date}");
    }
}
