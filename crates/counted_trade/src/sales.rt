//! What an entry redeems and sells, and the keys of series.

ghost use Rattle.std.specs.Prelude.{◌≡◌, ◌≤◌, ◌++◌, length, take, option_map};
ghost use Rattle.std.specs.Int.{w32, to_be_bytes};
ghost use Rattle.mc_records.specs.Views.{entry};
ghost use Rattle.ledger_model.specs.Pieces.{accepted_piece};
ghost use Rattle.audit_model.specs.Parts.{part_of};
ghost use Rattle.audit_model.specs.Sales.{sale_by};
ghost use Rattle.counted_trade.specs.Sold.{licensed_sale};

use audit_model::{Part, Sold};
use mc_fields::put_both_if_room;
use mc_records::Record;

/// The piece that an entry accepts.
pub(crate) fn paid(r: &Record<'_>) -> Option<Part>
    ensures { result ≡ option_map part_of (accepted_piece (entry r.now)) }
{
    match *r {
        Record::Accept { scrip, .. } => Part::read(scrip),
        _ => None,
    }
}

/// What an entry sells under a licence.
pub(crate) fn licensed_in(r: &Record<'_>) -> Option<Sold>
    ensures { option_map sale_by result ≡ licensed_sale (entry r.now) }
{
    match Sold::read(r) {
        Some(sold) if !sold.stock => Some(sold),
        _ => None,
    }
}

/// Writes the key of a series and a vendor, whose name has at most 63 bytes, and answers its length: the four bytes of the
/// series, then the name. It takes no memory.
pub fn put_key(out: &mut [u8; 67], series: u32, vendor: &[u8]) -> usize
    requires { length vendor.now ≤ 63 }
    ensures length { result ≤ 67 }
    ensures key { take result out.new ≡ to_be_bytes w32 series ++ vendor.now }
{
    put_both_if_room(out, 0, &series.to_be_bytes(), vendor).unwrap()
}
