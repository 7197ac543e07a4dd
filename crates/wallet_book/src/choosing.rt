//! Choosing the piece to pay with.

ghost use Rattle.std.specs.Prelude.{◌≡◌, ℕ, max, option_map, IfErr, IfSome};
ghost use Rattle.wallet_model.specs.Asks as model;
ghost use Rattle.wallet_model.specs.Asks.{chosen_by, due_of};
ghost use Rattle.wallet_book.specs.Holdings.{AreSpelled, holding_of};
ghost use Rattle.wallet_book.specs.Choosing.{fit_among, Chooses, IsNoFunds, IsFitAt, least_with};

use crate::holding::{Holding, State};
use mc_base::{Amount, Moment};
use mc_requests::Refusal;
use scrip_form::Name;

/// The place of the piece to pay with: of the held pieces of a vendor that are not expired at a time and cover
/// the limit the one of least value, and of two of the same value the first. Where there is none the refusal
/// has the greatest value of the held pieces of the vendor that are not expired, 0 where there are none.
pub(crate) fn choose(
    holdings: &[Holding],
    time: Moment,
    vendor: &Name,
    limit: Amount,
) -> Result<usize, Refusal>
    requires { AreSpelled holdings.now }
    ensures exact { Chooses (chosen_by (fit_among holdings.now time vendor.now) limit) result }
    ensures refused { IfErr result IsNoFunds }
{
    let mut least = None;
    let mut greatest = 0;
    for (place, x) in holdings.iter().enumerate() {
        let value = x.piece.value().get();
        if is_fit(x, time, vendor) {
            least = lesser(least, limit.get() <= value, place, value);
            greatest = greater(greatest, value);
        }
    }
    match least {
        Some((place, _)) => Ok(place),
        None => Err(Refusal::NoFunds(greatest)),
    }
}

/// The place of the piece that is due for renewal: of the held pieces of a vendor that are not expired at a time and
/// end at a moment at the latest the one that ends first, and of two that end together the first. None exactly where
/// there is none.
pub(crate) fn first_due(
    holdings: &[Holding],
    time: Moment,
    vendor: &Name,
    before: Moment,
) -> Option<usize>
    requires { AreSpelled holdings.now }
    ensures exact { result ≡ option_map (λ o. o.place) (due_of (fit_among holdings.now time vendor.now) before) }
    ensures pays { IfSome result (IsFitAt holdings.now time vendor.now) }
{
    let mut first = None;
    for (place, x) in holdings.iter().enumerate() {
        let end = x.piece.expires();
        if is_fit(x, time, vendor) {
            first = lesser(first, end <= before.seconds(), place, end);
        }
    }
    match first {
        Some((place, _)) => Some(place),
        None => None,
    }
}

/// Whether a piece is held, of a vendor, and not expired at a time.
fn is_fit(x: &Holding, time: Moment, vendor: &Name) -> bool
    ensures { (place : ℕ) → result ≡ model.is_fit time vendor.now (record { place = place; holding = holding_of x.now; piece = x.now.piece }) }
{
    x.state == State::Held
        && time.seconds() < x.piece.expires()
        && x.piece.vendor().bytes() == vendor.bytes()
}

fn greater(a: u64, b: u64) -> u64
    ensures { result ≡ max a b }
{
    if a < b { b } else { a }
}

/// The one of the least key of those before, if there is one, and a piece of this place and key, if it counts.
fn lesser(least: Option<(usize, u64)>, counts: bool, place: usize, key: u64) -> Option<(usize, u64)>
    ensures { result ≡ least_with counts least place key }
{
    if !counts {
        return least;
    }
    match least {
        Some((_, lower)) if lower <= key => least,
        _ => Some((place, key)),
    }
}
