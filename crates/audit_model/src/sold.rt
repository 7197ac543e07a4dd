//! Sales, as an audit and a settlement ask of them.

ghost use Rattle.std.specs.Prelude.{◌≡◌, option_map};
ghost use Rattle.mc_records.specs.Views.{entry};
ghost use Rattle.ledger_model.specs.Stock.{sale_of};
ghost use Rattle.audit_model.specs.Sales.{sale_by};

use mc_records::{Record, RecordDeed};
use mc_requests::{Errand, errands_are_texts, read_errand};
use scrip_form::{Id, Name};

/// What a broker sold: of which vendor, of what value in units, out of stock or under a licence, and under which
/// identity.
#[derive(Clone, Copy, Drop)]
pub struct Sold {
    pub vendor: Name,
    pub value: u64,
    pub stock: bool,
    pub id: Id,
}

impl Sold {
    /// What an entry sells; None exactly where it sells nothing.
    pub fn read(r: &Record<'_>) -> Option<Sold>
        ensures { option_map sale_by result ≡ sale_of (entry r.now) }
    {
        errands_are_texts();
        let Record::Accept {
            target,
            deed: RecordDeed::Sale { stock, id },
            ..
        } = r
        else {
            return None;
        };
        let Some(Errand::Buy { vendor, amount }) = read_errand(target) else {
            return None;
        };
        let vendor = Name::new(vendor).unwrap();
        Some(Sold {
            vendor,
            value: amount,
            stock: *stock,
            id: *id,
        })
    }
}
