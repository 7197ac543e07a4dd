//! The pieces that a broker put into stock.

ghost use Rattle.std.specs.Prelude.{◌≡◌, ◌<◌, ◌==◌, option_map, option_to_list, find, length, slice_get, IfSome};
ghost use Rattle.mc_records.specs.PieceViews.{pieces_of};
ghost use Rattle.ledger_model.specs.Stock.{held_piece, held_pieces, stock_of, stock_pieces};
ghost use Rattle.audit_model.specs.Parts.{part_of};

use audit_model::Part;
use mc_records::{PieceList, Record};
use scrip_form::Id;
use slow_ledger::Prefix;

/// The piece of this number of a list.
fn held_at(pieces: &PieceList<'_>, k: u16) -> Option<Part>
    ensures { IfSome (slice_get (pieces_of pieces.now) k)
        (λ x. result ≡ option_map part_of (held_piece x)) }
{
    match pieces.get(k) {
        Some((scrip, _)) => Part::read(scrip.text()),
        None => None,
    }
}

/// The piece of this number of a list, where it has an identity.
fn found_at(pieces: &PieceList<'_>, k: u16, id: Id) -> Option<Part>
    ensures { IfSome (slice_get (pieces_of pieces.now) k)
        (λ x. result ≡ option_map part_of (find (λ p. p.id == id) (option_to_list (held_piece x)))) }
{
    match held_at(pieces, k) {
        Some(part) => if part.id == id { Some(part) } else { None },
        None => None,
    }
}

/// The first piece of a list with an identity.
fn found_in(pieces: &PieceList<'_>, id: Id) -> Option<Part>
    ensures { result ≡ option_map part_of (find (λ p. p.id == id) (held_pieces (pieces_of pieces.now))) }
{
    for k in 0..pieces.count() {
        match found_at(pieces, k, id) {
            Some(part) => return Some(part),
            None => (),
        }
    }
    None
}

fn stocked_at(h: &Prefix<'_>, n: usize, vendor: &[u8], id: Id) -> Option<Part>
    requires { n < length h.now }
    ensures { IfSome (slice_get h.now n)
        (λ e. result ≡ option_map part_of (find (λ p. p.id == id) (held_pieces (stock_of vendor.now e)))) }
{
    match h.record(n) {
        Record::Stock {
            vendor: at,
            pieces,
            ..
        } => if at == vendor {
            found_in(&pieces, id)
        } else {
            None
        },
        _ => None,
    }
}

/// The first piece of a vendor with an identity that was put into stock.
pub(crate) fn stocked(h: &Prefix<'_>, vendor: &[u8], id: Id) -> Option<Part>
    ensures { result ≡ option_map part_of (find (λ p. p.id == id) (stock_pieces h.now vendor.now)) }
{
    for n in 0..h.len() {
        match stocked_at(h, n, vendor, id) {
            Some(part) => return Some(part),
            None => (),
        }
    }
    None
}
