//! The piece that is chosen for a vendor and a limit.

ghost use Rattle.std.specs.Prelude.{◌≡◌, ◌<◌, ◌++◌, List, length, slice_get, option_map, option_and_then, option_to_list, filter_map};
ghost use Rattle.std.specs.Result.{result_map_both};
ghost use Rattle.wallet_model.specs.Asks.{chosen};
ghost use Rattle.slow_wallet.specs.Slow.{brought_at};
ghost use Rattle.slow_wallet.specs.Choices as choices;
ghost use Rattle.slow_wallet.specs.Choices.{Fitting, fitting_of, fit_at, offer_view, IsChoice};

use crate::came::{brought, count_brought};
use crate::holdings::Holding;
use crate::states::{is_held, slow_state};
use mc_base::Moment;
use mc_requests::Refusal;
use slow_ledger::Prefix;
use wallet_core::piece_of;

/// A piece that can be spent now, and its value.
#[derive(Clone, Copy, Drop)]
pub struct Offer<'a> {
    pub holding: Holding<'a>,
    pub value: u64,
}

/// Of some pieces the one of least value that covers a limit, and the greatest value.
#[derive(Clone, Copy, Drop)]
struct Choice<'a> {
    best: Option<Offer<'a>>,
    greatest: u64,
}

/// The piece of number `k` among those that the entry of a number brings, where it is fit.
fn offer_at<'a>(
    h: &'a Prefix<'_>,
    n: usize,
    k: u16,
    moment: Moment,
    vendor: &[u8],
) -> Option<Offer<'a>>
    requires { n < length h.now }
    ensures { option_map offer_view result
        ≡ option_and_then (fit_at h.now moment vendor.now) (slice_get (brought_at h.now n) k) }
{
    let Some(came) = brought(h, n, k) else {
        return None;
    };
    let text = came.0;
    let secret = came.1;
    let Some(piece) = piece_of(text) else {
        return None;
    };
    let state = slow_state(h, text);
    let holding = Holding {
        text,
        secret,
        state,
    };
    let value = piece.value().get();
    if is_held(state) && (moment.seconds() < piece.expires() && piece.vendor().bytes() == vendor) {
        Some(Offer { holding, value })
    } else {
        None
    }
}

/// The piece of less value, and of two of one value the first.
fn lesser<'a>(first: Offer<'a>, other: Offer<'a>) -> Offer<'a>
    ensures { offer_view result ≡ choices.lesser_fit (offer_view first.entry) (offer_view other.entry) }
{
    if other.value < first.value {
        other
    } else {
        first
    }
}

/// The best of some pieces with one more, which covers the limit.
fn better<'a>(best: Option<Offer<'a>>, other: Offer<'a>) -> Offer<'a>
    ensures { offer_view result ≡ choices.better (option_map offer_view best.entry) (offer_view other.entry) }
{
    match best {
        Some(first) => lesser(first, other),
        None => other,
    }
}

/// The choice among some pieces, with one more.
fn with_more<'a>(choice: Choice<'a>, limit: u64, more: Option<Offer<'a>>) -> Choice<'a>
    ensures { (xs : List Fitting) → IsChoice limit xs choice.entry
        → IsChoice limit (xs ++ option_to_list (option_map offer_view more.entry)) result }
{
    let Some(offer) = more else {
        return choice;
    };
    let best = if limit <= offer.value {
        Some(better(choice.best, offer))
    } else {
        choice.best
    };
    let greatest = choice.greatest.max(offer.value);
    Choice { best, greatest }
}

/// The choice among some pieces and those that the entry of a number brings.
fn with_entry<'a>(
    h: &'a Prefix<'_>,
    n: usize,
    moment: Moment,
    vendor: &[u8],
    limit: u64,
    choice: Choice<'a>,
) -> Choice<'a>
    requires { n < length h.now }
    ensures { (xs : List Fitting) → IsChoice limit xs choice.entry
        → IsChoice limit (xs ++ filter_map (fit_at h.now moment vendor.now) (brought_at h.now n)) result }
{
    let mut choice = choice;
    for k in 0..count_brought(h, n) {
        choice = with_more(choice, limit, offer_at(h, n, k, moment, vendor));
    }
    choice
}

/// The choice among all pieces that came.
fn choice_of<'a>(h: &'a Prefix<'_>, moment: Moment, vendor: &[u8], limit: u64) -> Choice<'a>
    ensures { IsChoice limit (choices.fits h.now moment vendor.now) result }
{
    let mut choice = Choice {
        best: None,
        greatest: 0,
    };
    for n in 0..h.len() {
        choice = with_entry(h, n, moment, vendor, limit, choice);
    }
    choice
}

/// The piece that is chosen for a vendor at a time, by the definitions: of those that can be spent there
/// and cover the limit, the first of the least value; else 62 NoFunds with the greatest value.
pub fn slow_chosen<'a>(
    h: &'a Prefix<'_>,
    moment: Moment,
    vendor: &[u8],
    limit: u64,
) -> Result<Offer<'a>, Refusal>
    ensures { result_map_both offer_view (λ f. f) result
        ≡ result_map_both fitting_of (λ f. f) (chosen h.now moment vendor.now limit) }
{
    let choice = choice_of(h, moment, vendor, limit);
    match choice.best {
        Some(offer) => Ok(offer),
        None => Err(Refusal::NoFunds(choice.greatest)),
    }
}
