//! Which lines are taken as stock.

ghost use Rattle.std.specs.Prelude.{◌≡◌, ◌==◌, ◌||◌, ◌∷◌, [], find, IfSome};
ghost use Rattle.ledger_model.specs.Histories.{History};
ghost use Rattle.ledger_model.specs.Stock.{stock_ids};
ghost use Rattle.house_core.specs.Refusing.{IsAmong};
ghost use Rattle.broker_stalls.specs.Shown.{Shows};
ghost use Rattle.broker_stalls.specs.Stalls.{was_stocked};
ghost use Rattle.broker_stalls.specs.Vendors.{found_stall};
ghost use Rattle.broker_core.specs.Tasks.{stands_twice, stock_lines, stock_refusal};

use broker_stalls::Stall;
use mc_records::MOST_PIECES;
use mc_requests::Refusal;
use piece_lines::{PieceRule, read_piece_ids};
use scrip_form::{Id, Name};

/// Why lines are not taken as stock of a vendor, who has this stall, if he has one; None where they are taken.
/// It takes no memory.
pub(crate) fn refusal_of(stall: Option<&Stall>, vendor: &Name, lines: &[u8]) -> Option<Refusal>
    ensures exact { (h : History) → Shows h vendor.now (found_stall stall.entry)
        → result ≡ stock_refusal (stock_ids h vendor.now) (stock_lines vendor.now lines.now) }
    ensures refusals { IfSome result (IsAmong (53 ∷ 57 ∷ [])) }
{
    let mut ids = [0; MOST_PIECES as usize];
    let rule = PieceRule::StockOf(*vendor);
    let count = match read_piece_ids(lines, &rule, &mut ids) {
        Ok(count) => count,
        Err(line) => return Some(Refusal::BadInput(u64::from(line))),
    };
    match first_twice(stall, &ids[..usize::from(count)]) {
        Some(id) => Some(Refusal::StockTwice(Id::of_number(id))),
        None => None,
    }
}

/// The first of some identities that was in stock, or stands a second time among them; None exactly where there
/// is none.
fn first_twice(stall: Option<&Stall>, ids: &[u64]) -> Option<u64>
    ensures { result ≡ find (λ id. was_stocked (found_stall stall.entry) id || stands_twice ids.now id) ids.now }
{
    ids.iter()
        .copied()
        .find(|id| was_in_stock(stall, *id) || stands_twice(ids, *id))
}

/// Whether a piece of an identity was ever in a vendor's stock.
fn was_in_stock(stall: Option<&Stall>, id: u64) -> bool
    ensures { result ≡ was_stocked (found_stall stall.entry) id }
{
    match stall {
        Some(stall) => stall.has(id),
        None => false,
    }
}

/// Whether an identity stands twice among some.
fn stands_twice(ids: &[u64], id: u64) -> bool
    ensures { result ≡ stands_twice ids.now id }
{
    ids.iter().filter(|k| **k == id).count() > 1
}
