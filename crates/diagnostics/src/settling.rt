//! What is told of the reply to a wallet's request: the price, the refusal, and what of it was not taken.

use crate::entries::Entries;
use crate::refusals::tell_refusal;
use crate::texts::{before_space, shown, word};
use mc_records::{Record, read_record};
use mc_site::{Book, Passed};
use reply_reader::ReplyRef;
use scrip_form::read_scrip;
use std::alloc::Global;
use std::fs::OpenFile;
use std::os::unix::fs::FileExt;

/// Tells what the reply of a peer said to the wallet's command with these words, by the status with which it ended, where a
/// request was sent.
pub fn tell_reply<F: OpenFile + FileExt>(
    rt: &impl Eprint,
    alloc: Global,
    words: &[String],
    status: u8,
    book: &Book<F>,
    passed: &Passed,
) {
    let peer = word(words, 3);
    match status {
        // Settled, though the line about it may not have been said.
        0 | 6 => tell_paid(rt, alloc, peer, book, passed),
        7 => {
            tell_refused(rt, peer, passed);
            tell_refusal(rt, alloc, words, book, passed);
        }
        _ => {}
    }
}

/// Tells the price of what was paid, or what was drawn or put back, and what of the reply was not taken.
fn tell_paid<F: OpenFile + FileExt>(
    rt: &impl Eprint,
    alloc: Global,
    peer: &str,
    book: &Book<F>,
    passed: &Passed,
) {
    if let Some(
        Record::Done {
            number,
            price,
            change,
            got,
            ..
        },
    ) = passed.record()
    {
        let what = what_was_done(alloc, book, number, change.is_some());
        let _ = eprintln!(rt; "millicent: {peer}: {what} {price}");
        tell_untaken(rt, passed, change.is_some(), got.is_some());
    }
}

/// What the sum is in the reply to the request of this entry: a price, what was drawn, or what was put back into an account.
fn what_was_done<F: OpenFile + FileExt>(
    alloc: Global,
    book: &Book<F>,
    number: u64,
    has_change: bool,
) -> &'static str {
    let Ok(mut entries) = Entries::of(alloc, book) else {
        return "price";
    };
    for at in 0..u64::MAX {
        let Some(payload) = entries.next_payload() else {
            break;
        };
        if at == number {
            return what_it_asks(payload, has_change);
        }
    }
    "price"
}

/// What the sum is in the reply to the request with this payload. A piece that is put back is so as a whole.
fn what_it_asks(payload: &[u8], has_change: bool) -> &'static str {
    match read_record(payload) {
        Ok(Record::Pend { scrip, target, .. }) => {
            if scrip.is_none() {
                "drawn"
            } else if !has_change && target.starts_with(b"/credit/") {
                "put back"
            } else {
                "price"
            }
        }
        _ => "price",
    }
}

/// Tells the refusal of the site, or what came in place of a reply.
fn tell_refused(rt: &impl Eprint, peer: &str, passed: &Passed) {
    let Some(reply) = passed.reply() else {
        tell_front(rt, peer, passed.received());
        return;
    };
    match passed.record() {
        Some(Record::Refused { .. }) => tell_site_words(rt, peer, "refused", &reply),
        _ => tell_site_words(rt, peer, "a reply that is not proved says", &reply),
    }
}

/// Tells the first line of what came and is no reply.
fn tell_front(rt: &impl Eprint, peer: &str, received: &[u8]) {
    if !received.is_empty() {
        let front = shown(received);
        let _ = eprintln!(rt; "millicent: {peer}: no reply of a site, but: {front}");
    }
}

/// Tells of the change and of the piece that came in a reply and are not in the entry that settled it: the wallet
/// had pieces of those identities before.
fn tell_untaken(rt: &impl Eprint, passed: &Passed, has_change: bool, has_piece: bool) {
    let Some(reply) = passed.reply() else {
        return;
    };
    if !has_change {
        tell_known(rt, "change", reply.change);
    }
    // A get says its contents, and a buy or a draw says what it got.
    if !has_piece && passed.said().starts_with(b"got ") {
        tell_known(rt, "piece", before_space(reply.contents));
    }
}

/// Tells of a piece that was not taken, where the text is one.
fn tell_known(rt: &impl Eprint, what: &str, text: &[u8]) {
    let Ok(scrip) = read_scrip(text) else {
        return;
    };
    let piece = scrip.piece();
    let name = piece.vendor();
    let vendor = shown(name.bytes());
    let value = piece.value().get();
    let id = piece.id().number();
    let _ = eprintln!(rt;
        "millicent: {what} not taken: {vendor} {value} {id:016x}: the wallet had a piece of this identity before"
    );
}

/// Tells the refusal of a reply, with its kept values, and the price where it names one.
fn tell_site_words(rt: &impl Eprint, peer: &str, how: &str, reply: &ReplyRef<'_>) {
    let Some(refusal) = reply.refusal else {
        return;
    };
    let refusal = shown(refusal);
    if reply.price == b"-".as_slice() {
        let _ = eprintln!(rt; "millicent: {peer}: {how} {refusal}");
    } else {
        let price = shown(reply.price);
        let _ = eprintln!(rt; "millicent: {peer}: {how} {refusal}, price {price}");
    }
}
