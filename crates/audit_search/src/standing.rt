//! The shops at a broker, as what the histories say of them.

ghost use Rattle.std.specs.Prelude.{◌≡◌, List as Items, filter, not, is_some, IfOk, MatchOption};
ghost use Rattle.mc_requests.specs.declared.limits.Limits.{Limits as Bounds};
ghost use Rattle.ledger_model.specs.Histories.{History};
ghost use Rattle.ledger_model.specs.Houses.{is_broker};
ghost use Rattle.audit_search.specs.Markets.{own_names};
ghost use Rattle.audit_search.specs.Audit.{IsLearned, AreLearned};
ghost use Rattle.audit_search.specs.Standing.{StandFor, sold_of, piece_in, has_minted};

use crate::market::vendor_names;
use crate::shops::Shops;
use audit_model::{Part, Sold};
use audit_sums::BookSums;
use mc_base::NoMemory;
use scrip_form::Name;
use std::alloc::Global;

impl Shops {
    /// The shops at a broker of the vendors among some books; None exactly where two vendors share a name.
    pub fn at_broker(
        alloc: Global,
        broker: &BookSums,
        books: &[BookSums],
    ) -> Result<Option<Shops>, NoMemory>
        ensures own { IfOk result (λ o. is_some o ≡ own_names books.now) }
        ensures stand { (limits : Bounds) (b : History) (hs : Items History) → IsLearned limits broker.now b
            → AreLearned limits books.now hs → IfOk result (λ o. MatchOption o (Unit {0})
            (StandFor b (filter (λ h. not (is_broker h)) hs))) }
    {
        match vendor_names(alloc, books)? {
            Some(names) => Ok(Some(Shops::new(alloc, broker, books, names)?)),
            None => Ok(None),
        }
    }

    /// The pieces of a vendor that the broker sold, in order.
    pub fn sold(&self, name: &Name) -> &[Part]
        ensures { result.now ≡ sold_of self.now name.now }
    {
        match self.find(name) {
            Some(shop) => &shop.sold,
            None => &[],
        }
    }

    /// The piece of a sale of the broker's; None where the broker had none.
    pub fn piece(&self, sale: &Sold) -> Option<Part>
        ensures { result ≡ piece_in self.now sale.now }
    {
        match self.find(&sale.vendor) {
            Some(shop) => shop.piece(sale),
            None => None,
        }
    }

    /// Whether a vendor minted a piece, by identity and value.
    pub fn has_minted(&self, name: &Name, part: &Part) -> bool
        ensures { result ≡ has_minted self.now name.now part.now.id part.now.value }
    {
        match self.find(name) {
            Some(shop) => shop.minted.has(part),
            None => false,
        }
    }
}
