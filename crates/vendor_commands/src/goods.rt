//! Goods that are put on sale.

ghost use Rattle.std.specs.Prelude.{List as Items, ℕ};
ghost use Rattle.ledger_model.specs.Histories.{History};
ghost use Rattle.ledger_model.specs.Houses.{site_name};
ghost use Rattle.house_core.specs.House.{HandsBack, HouseRepresents, IfRefused, KeepsTime};
ghost use Rattle.house_core.specs.Refusing.{IsAmong};
ghost use Rattle.vendor_core.specs.Shelf.{shelf_view};
ghost use Rattle.operator_command.specs.Operations.{CarriesOut};
ghost use Rattle.vendor_commands.specs.Operations.{goods_operation, begins_goods};

use house_core::{House, Outcome};
use mc_outside::Disk;
use mc_records::MOST_CONTENTS;
use mc_requests::Refusal;
use operator_command::without_answer;
use site_words::Listing;
use vendor_core::{Shelf, set_goods};

/// Puts goods on sale, whose contents are the input.
pub(crate) fn list_goods<D: Disk>(
    listing: &Listing<'_>,
    house: House<D, Shelf>,
    input: &[u8],
) -> Outcome<D, Shelf, ()>
    ensures back { HandsBack D.disk D.disk_moved (KeepsTime house) house.journal.disk result }
    ensures exact { (h : History) (line : Items ℕ) → HouseRepresents D.disk shelf_view house h
        → begins_goods listing.now (site_name h) line
        → CarriesOut D.disk shelf_view (goods_operation listing.now) house input.now line h result }
    ensures refusals { IfRefused (IsAmong (goods_operation listing.now).refusals) result }
{
    if input.len() > MOST_CONTENTS {
        return Outcome::Refused(house, Refusal::ContentsFull(MOST_CONTENTS as u64 + 1));
    }
    without_answer(set_goods(
        house,
        listing.target(),
        listing.price(),
        listing.kind(),
        input,
    ))
}
