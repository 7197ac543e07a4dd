//! Writing what a target asks of a broker, as `read_errand` reads it.

ghost use Rattle.std.specs.Prelude.{◌≡◌, ◌≤◌};
ghost use Rattle.mc_base.specs.declared.amount.TheConstants.Amount.{MOST};
ghost use Rattle.scrip_form.specs.Texts.{IsTarget};
ghost use Rattle.mc_requests.specs.Errands as errands;
ghost use Rattle.mc_requests.specs.Errands.{IsErrand, errand_text};

use crate::errand_law::errands_are_texts;
use mc_base::Amount;
use mc_fields::{put, put_number};
use scrip_form::{Name, Target};

/// `/buy/V/N`, the target of a request to buy scrip of a vendor, of 1 unit at least.
pub fn buy_target(vendor: &Name, amount: Amount) -> Target
    requires { 1 ≤ amount }
    ensures target { result ≡ errand_text (errands.buy vendor.now amount) }
    ensures errand { IsErrand (errands.buy vendor.now amount) }
{
    let mut out = [0; 128];
    let at = put(&mut out, 0, b"/buy/");
    let at = put(&mut out, at, vendor.bytes());
    let at = put(&mut out, at, b"/");
    let at = put_number(&mut out, at, amount.get());
    errands_are_texts();
    target_of(&out[..at])
}

/// `/draw/A/K/N`, the target of a request to draw scrip out of an account, of 1 unit at least, under an order of 1 to 2^40.
pub fn draw_target(account: &Name, order: u64, amount: Amount) -> Target
    requires order { (1 ≤ order) × (order ≤ MOST) }
    requires amount { 1 ≤ amount }
    ensures target { result ≡ errand_text (errands.draw account.now order amount) }
    ensures errand { IsErrand (errands.draw account.now order amount) }
{
    let mut out = [0; 128];
    let at = put(&mut out, 0, b"/draw/");
    let at = put(&mut out, at, account.bytes());
    let at = put(&mut out, at, b"/");
    let at = put_number(&mut out, at, order);
    let at = put(&mut out, at, b"/");
    let at = put_number(&mut out, at, amount.get());
    errands_are_texts();
    target_of(&out[..at])
}

/// The target that this text is.
fn target_of(text: &[u8]) -> Target
    requires { IsTarget text.now }
    ensures { result ≡ text.now }
{
    match Target::new(text) {
        Some(target) => target,
        None => unreachable!(),
    }
}
