//! The pieces that vendors minted.

ghost use Rattle.std.specs.Prelude.{◌≡◌, ◌<◌, length, slice_get, IfSome};
ghost use Rattle.std.specs.List.{list_any};
ghost use Rattle.ledger_model.specs.Histories.{History as Entries};
ghost use Rattle.ledger_model.specs.Pieces.{run_from, minted_pieces, minted as pieces_minted};
ghost use Rattle.slow_sums.specs.Strangers.{same_as, mints_for};

use audit_model::Part;
use ledger_model::History;
use mc_records::Record;
use scrip_form::Id;
use slow_ledger::{Prefix, slow_is_broker, slow_name};

/// Whether a piece is one of so many of a value, whose identities follow the first.
fn is_of_run(count: u16, value: u64, first: Id, part: &Part) -> bool
    ensures { (before : Entries)
        → result ≡ list_any (same_as part.now) (run_from before value first count) }
{
    let (first, id) = (first.number(), part.id.number());
    if part.value != value || id < first {
        return false;
    }
    id - first < u64::from(count)
}

fn mints_at(h: &Prefix<'_>, n: usize, part: &Part) -> bool
    requires { n < length h.now }
    ensures { IfSome (slice_get h.now n) (λ e. (before : Entries)
        → result ≡ list_any (same_as part.now) (minted_pieces before e)) }
{
    match h.record(n) {
        Record::Mint {
            count,
            value,
            first,
            ..
        } => is_of_run(count, value, first, part),
        _ => false,
    }
}

/// Whether a house minted a piece.
fn mints(h: &Prefix<'_>, part: &Part) -> bool
    ensures { result ≡ list_any (same_as part.now) (pieces_minted h.now) }
{
    for n in 0..h.len() {
        if mints_at(h, n, part) {
            return true;
        }
    }
    false
}

/// Whether a book is that of a vendor of this name, which minted a piece.
fn mints_of(h: &History, vendor: &[u8], part: &Part) -> bool
    ensures { result ≡ mints_for vendor.now part.now h.now }
{
    let h = Prefix::whole(h);
    !slow_is_broker(&h) && vendor == slow_name(&h) && mints(&h, part)
}

/// Whether one of some books is that of a vendor of this name, which minted a piece.
pub(crate) fn is_minted(books: &[History], vendor: &[u8], part: &Part) -> bool
    ensures { result ≡ list_any (mints_for vendor.now part.now) books.now }
{
    books.iter().any(|book| mints_of(book, vendor, part))
}
