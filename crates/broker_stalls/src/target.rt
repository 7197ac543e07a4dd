ghost use Rattle.std.specs.Prelude.{◌≡◌, ◌<◌, IfSome};
ghost use Rattle.mc_requests.specs.Errands.{errand_of};
ghost use Rattle.broker_stalls.specs.Vendors.{asked_to_buy};

use mc_base::Amount;
use mc_requests::{Errand, errands_are_texts, read_errand};
use scrip_form::Name;

/// Scrip that a target asks to buy: of this vendor, and of this value.
#[derive(Clone, Copy, Drop)]
pub struct Purchase {
    pub vendor: Name,
    pub value: Amount,
}

/// What a target asks to buy; None exactly where it asks for no scrip of a vendor.
pub fn bought(target: &[u8]) -> Option<Purchase>
    ensures asked { result ≡ asked_to_buy (errand_of target.now) }
    ensures some { IfSome result (λ x. 0 < x.value) }
{
    errands_are_texts();
    let Some(Errand::Buy { vendor, amount }) = read_errand(target) else {
        return None;
    };
    let vendor = Name::new(vendor).unwrap();
    let value = Amount::new(amount).unwrap();
    Some(Purchase { vendor, value })
}
