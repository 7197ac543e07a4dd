//! Goods that are sold at another price.

ghost use Rattle.std.specs.Prelude.{List as Items, ℕ};
ghost use Rattle.ledger_model.specs.Histories.{History};
ghost use Rattle.ledger_model.specs.Houses.{site_name};
ghost use Rattle.house_core.specs.House.{HandsBack, HouseRepresents, IfRefused, KeepsTime};
ghost use Rattle.house_core.specs.Refusing.{IsAmong};
ghost use Rattle.vendor_core.specs.Shelf.{shelf_view};
ghost use Rattle.operator_command.specs.Operations.{CarriesOut};
ghost use Rattle.vendor_commands.specs.Operations.{price_operation, begins_price};

use house_core::{House, Outcome};
use mc_outside::Disk;
use operator_command::without_answer;
use site_words::Pricing;
use vendor_core::{Shelf, set_price};

/// Sells goods at another price.
pub(crate) fn price_goods<D: Disk>(
    pricing: &Pricing<'_>,
    house: House<D, Shelf>,
) -> Outcome<D, Shelf, ()>
    ensures back { HandsBack D.disk D.disk_moved (KeepsTime house) house.journal.disk result }
    ensures exact { (h : History) (input line : Items ℕ) → HouseRepresents D.disk shelf_view house h
        → begins_price pricing.now (site_name h) line
        → CarriesOut D.disk shelf_view (price_operation pricing.now) house input line h result }
    ensures refusals { IfRefused (IsAmong (price_operation pricing.now).refusals) result }
{
    without_answer(set_price(house, pricing.target(), pricing.price()))
}
