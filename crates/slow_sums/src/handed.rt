//! The pieces that a house handed out in its own series.

ghost use Rattle.std.specs.Prelude.{◌≡◌, ℕ, ◌<◌, ◌++◌, List, Option, option_map, map, length, take, slice_get, IfOk, IfSome};
ghost use Rattle.mc_records.specs.Entry.{Accept, Draw, Deed};
ghost use Rattle.ledger_model.specs.Houses.{own_end};
ghost use Rattle.ledger_model.specs.Pieces.{handed_piece, own_out};
ghost use Rattle.audit_model.specs.Parts.{part_of};

use crate::parts::with;
use audit_model::Part;
use mc_base::NoMemory;
use mc_records::Record;
use mc_requests::{Errand, read_errand};
use scrip_form::Id;
use slow_ledger::{Prefix, slow_terms};

/// The end of a series of the house's own, by an identity of it.
fn end_of(before: &Prefix<'_>, id: Id) -> u64
    ensures { result ≡ own_end before.now id }
{
    match slow_terms(before, 0) {
        Some(terms) => {
            let (_, epoch, _) = id.parts();
            terms.series_end(epoch)
        }
        None => 0,
    }
}

/// The change of a scrip text at a price, after the entries before it.
fn change_of(before: &Prefix<'_>, scrip: &[u8], price: u64, change: Option<Id>) -> Option<Part>
    ensures { (m : ℕ) → (target : List ℕ) → (sign : Option (List ℕ)) → (deed : Deed)
        → result ≡ option_map part_of (handed_piece before.now (Accept m scrip.now target sign price change deed)) }
{
    match (change, Part::read(scrip)) {
        (Some(id), Some(paid)) => Some(Part {
            id,
            value: paid.value.saturating_sub(price),
            expires: end_of(before, id),
        }),
        _ => None,
    }
}

/// What was drawn by a target, after the entries before it.
fn drawn_by(before: &Prefix<'_>, target: &[u8], drawn: Id) -> Option<Part>
    ensures { (m : ℕ) → (sign : List ℕ)
        → result ≡ option_map part_of (handed_piece before.now (Draw m target.now sign drawn)) }
{
    match read_errand(target) {
        Some(Errand::Draw { amount, .. }) => Some(Part {
            id: drawn,
            value: amount,
            expires: end_of(before, drawn),
        }),
        _ => None,
    }
}

/// The piece that the entry of a number hands out.
fn own_at(h: &Prefix<'_>, n: usize) -> Option<Part>
    requires { n < length h.now }
    ensures { IfSome (slice_get h.now n)
        (λ e. result ≡ option_map part_of (handed_piece (take n h.now) e)) }
{
    let before = h.first(n);
    match h.record(n) {
        Record::Accept {
            scrip,
            price,
            change,
            ..
        } => change_of(&before, scrip, price, change),
        Record::Draw { target, drawn, .. } => drawn_by(&before, target, drawn),
        _ => None,
    }
}

/// Some pieces, and behind them those that the house handed out in its own series.
pub(crate) fn with_own(mut parts: Vec<Part>, h: &Prefix<'_>) -> Result<Vec<Part>, NoMemory>
    ensures { IfOk result (λ all. all.items ≡ parts.items ++ map part_of (own_out h.now)) }
{
    for n in 0..h.len() {
        parts = with(parts, own_at(h, n))?;
    }
    Ok(parts)
}
