//! The pieces that a broker sold.

ghost use Rattle.std.specs.Prelude.{◌≡◌, ◌<◌, ◌++◌, option_map, option_and_then, map, length, slice_get, IfOk, IfSome};
ghost use Rattle.scrip_form.specs.Identities.{series_of};
ghost use Rattle.mc_records.specs.Views.{deed_of};
ghost use Rattle.ledger_model.specs.Houses.{version};
ghost use Rattle.ledger_model.specs.Stock.{sale_of, sold as pieces_sold, sold_piece, licensed_piece, licence_in};
ghost use Rattle.slow_ledger.specs.Slow.{sale_for};
ghost use Rattle.audit_model.specs.Parts.{part_of};
ghost use Rattle.slow_sums.specs.Parts.{sale_by, sold_to};

use crate::parts::with;
use crate::stock::stocked;
use audit_model::Part;
use mc_base::NoMemory;
use mc_records::{Record, RecordDeed};
use mc_requests::{Errand, read_errand};
use scrip_form::Id;
use slow_ledger::{Prefix, slow_licence};

/// What was sold: of which vendor, of what value, out of stock or not, and under which identity.
#[derive(Clone, Copy, Drop)]
pub(crate) struct Sold<'a> {
    pub(crate) vendor: &'a [u8],
    pub(crate) value: u64,
    pub(crate) stock: bool,
    pub(crate) id: Id,
}

/// The sale of a deed for a target.
fn sale_in<'a>(target: &'a [u8], deed: &RecordDeed) -> Option<Sold<'a>>
    ensures { option_map sale_by result ≡ sale_for target.entry.now (deed_of deed.now) }
{
    let RecordDeed::Sale { stock, id } = deed else {
        return None;
    };
    match read_errand(target) {
        Some(Errand::Buy { vendor, amount }) => Some(Sold {
            vendor,
            value: amount,
            stock: *stock,
            id: *id,
        }),
        _ => None,
    }
}

/// The sale of the entry of a number.
pub(crate) fn sale_at<'a>(h: &'a Prefix<'_>, n: usize) -> Option<Sold<'a>>
    requires { n < length h.now }
    ensures { IfSome (slice_get h.now n) (λ e. option_map sale_by result ≡ sale_of e) }
{
    match h.record(n) {
        Record::Accept { target, deed, .. } => sale_in(target, &deed),
        _ => None,
    }
}

/// A piece that was made under the licence for a vendor.
fn licensed(h: &Prefix<'_>, sale: &Sold<'_>) -> Option<Part>
    ensures { result ≡ option_map part_of (option_map (λ terms. licensed_piece (version h.now sale.now.vendor.now (series_of sale.now.id)) terms sale.now.vendor.now sale.now.value sale.now.id) (licence_in h.now sale.now.vendor.now)) }
{
    match slow_licence(h, sale.vendor) {
        Some(terms) => {
            let (_, epoch, _) = sale.id.parts();
            Some(Part {
                id: sale.id,
                value: sale.value,
                expires: terms.series_end(epoch),
            })
        }
        None => None,
    }
}

/// The piece of a sale.
pub(crate) fn part_sold(h: &Prefix<'_>, sale: &Sold<'_>) -> Option<Part>
    ensures { result ≡ option_map part_of (sold_piece h.now (sale_by sale.now)) }
{
    if sale.stock {
        stocked(h, sale.vendor, sale.id)
    } else {
        licensed(h, sale)
    }
}

/// The piece that the entry of a number sold, where it is of a vendor.
fn sold_at(h: &Prefix<'_>, n: usize, vendor: &[u8]) -> Option<Part>
    requires { n < length h.now }
    ensures { IfSome (slice_get h.now n)
        (λ e. result ≡ option_map part_of (option_and_then (sold_to h.now vendor.now) (sale_of e))) }
{
    match sale_at(h, n) {
        Some(sale) => if sale.vendor == vendor {
            part_sold(h, &sale)
        } else {
            None
        },
        None => None,
    }
}

/// Some pieces, and behind them those of a vendor that a broker sold.
pub(crate) fn with_sold(
    mut parts: Vec<Part>,
    h: &Prefix<'_>,
    vendor: &[u8],
) -> Result<Vec<Part>, NoMemory>
    ensures { IfOk result (λ all. all.items ≡ parts.items ++ map part_of (pieces_sold h.now vendor.now)) }
{
    for n in 0..h.len() {
        parts = with(parts, sold_at(h, n, vendor))?;
    }
    Ok(parts)
}
