//! Lines that ask for the sums of the books of a broker and of vendors, and for the first stranger in them.

use crate::ledger_verbs::history_of;
use audit_model::{Sums, VendorSums};
use case_lines::{Fault, Lines, State};
use ledger_model::History;
use slow_sums::{slow_first_stranger, slow_sums};

/// The verbs of this module; None where the verb is none of them.
pub(crate) fn ask(
    state: &State,
    verb: &[u8],
    args: &[&[u8]],
    out: &mut Lines,
) -> Option<Result<(), Fault>> {
    Some(match verb {
        b"sums" => sums(state, args, out),
        b"stranger" => stranger(state, args, out),
        _ => return None,
    })
}

/// The books that words spell.
fn books_of(state: &State, words: &[&[u8]]) -> Result<Vec<History>, Fault> {
    let mut books = Vec::new(state.alloc);
    for word in words {
        books.push(history_of(state.alloc, state.names.bytes(word)?)?)?;
    }
    Ok(books)
}

fn sums(state: &State, args: &[&[u8]], out: &mut Lines) -> Result<(), Fault> {
    let Some((broker, vendors)) = args.split_first() else {
        return Err(Fault::Arguments);
    };
    let broker = history_of(state.alloc, state.names.bytes(broker)?)?;
    let vendors = books_of(state, vendors)?;
    show_sums(&slow_sums(state.alloc, &broker, &vendors)?, out);
    Ok(())
}

fn show_sums(sums: &Sums, out: &mut Lines) {
    out.start("sums");
    out.sum(sums.paid_in);
    out.sum(sums.paid_out);
    out.sum(sums.accounts);
    out.sum(sums.fees);
    out.sum(sums.outstanding);
    out.sum(sums.lapsed);
    out.end();
    for vendor in sums.vendors.slice() {
        show_vendor(vendor, out);
    }
}

fn show_vendor(vendor: &VendorSums, out: &mut Lines) {
    out.start("vendor");
    out.bytes(vendor.name.bytes());
    out.sum(vendor.takings);
    out.sum(vendor.outstanding);
    out.sum(vendor.lapsed);
    out.end()
}

fn stranger(state: &State, args: &[&[u8]], out: &mut Lines) -> Result<(), Fault> {
    let books = books_of(state, args)?;
    match slow_first_stranger(state.alloc, &books)? {
        Some(stranger) => {
            out.start("stranger");
            out.number(stranger.book as u64);
            out.identity(stranger.id);
            out.end();
        }
        None => out.line("stranger none"),
    }
    Ok(())
}
