//! What is told of the requests of a wallet that no reply has settled. Draws among them have no piece, so that a list of
//! pieces has no line for them.

use crate::entries::Entries;
use crate::texts::shown;
use mc_records::{Record, read_record};
use mc_site::Book;
use std::alloc::{AllocError, Global};
use std::fs::OpenFile;
use std::os::unix::fs::FileExt;

/// Tells of each draw of the wallet that is not settled.
pub fn tell_pending_draws<F: OpenFile + FileExt>(rt: &impl Eprint, alloc: Global, book: &Book<F>) {
    let (Ok(waiting), Ok(mut entries)) = (unsettled(alloc, book), Entries::of(alloc, book)) else {
        return;
    };
    for number in 0..u64::MAX {
        let Some(payload) = entries.next_payload() else {
            break;
        };
        if waiting.contains(&number) {
            tell_draw(rt, payload);
        }
    }
}

/// How many requests to this peer are not settled.
pub(crate) fn waiting_for<F: OpenFile + FileExt>(
    alloc: Global,
    book: &Book<F>,
    name: &[u8],
) -> u64 {
    let (Ok(waiting), Ok(mut entries)) = (unsettled(alloc, book), Entries::of(alloc, book)) else {
        return 0;
    };
    let mut count: u64 = 0;
    for number in 0..u64::MAX {
        let Some(payload) = entries.next_payload() else {
            break;
        };
        if waiting.contains(&number)
            && let Ok(Record::Pend { peer, .. }) = read_record(payload)
            && peer == name
        {
            count = count.saturating_add(1);
        }
    }
    count
}

/// The numbers of the entries that are requests and are not settled.
fn unsettled<F: OpenFile + FileExt>(alloc: Global, book: &Book<F>) -> Result<Vec<u64>, AllocError> {
    let mut entries = Entries::of(alloc, book)?;
    let mut waiting = Vec::new(alloc);
    for number in 0..u64::MAX {
        let Some(payload) = entries.next_payload() else {
            break;
        };
        match step_of(payload) {
            Step::Asks => waiting.push(number)?,
            Step::Settles(settled) => waiting.retain(|n| *n != settled),
            Step::Other => {}
        }
    }
    Ok(waiting)
}

/// What an entry is to the requests before it.
enum Step {
    Asks,
    /// It settles the entry of this number.
    Settles(u64),
    Other,
}

fn step_of(payload: &[u8]) -> Step {
    match read_record(payload) {
        Ok(Record::Pend { .. }) => Step::Asks,
        Ok(Record::Done { number, .. }) | Ok(Record::Refused { number, .. }) => {
            Step::Settles(number)
        }
        _ => Step::Other,
    }
}

fn tell_draw(rt: &impl Eprint, payload: &[u8]) {
    if let Ok(
        Record::Pend {
            peer,
            target,
            scrip,
            ..
        },
    ) = read_record(payload)
        && scrip.is_none()
    {
        let (peer, target) = (shown(peer), shown(target));
        let _ = eprintln!(rt;
            "millicent: pending: {peer} {target}, which no reply has settled: wallet retry"
        );
    }
}
