//! An issuer of a vendor's that is moved to the second version of scrip.

ghost use Rattle.std.specs.Prelude.{List as Items, ℕ};
ghost use Rattle.ledger_model.specs.Histories.{History};
ghost use Rattle.ledger_model.specs.Houses.{site_name};
ghost use Rattle.house_core.specs.House.{HandsBack, HouseRepresents, IfRefused, KeepsTime};
ghost use Rattle.house_core.specs.Refusing.{IsAmong};
ghost use Rattle.vendor_core.specs.Shelf.{shelf_view};
ghost use Rattle.operator_command.specs.Operations.{CarriesOut};
ghost use Rattle.vendor_commands.specs.Operations.{begins_upgrade, upgrade_operation};

use house_core::{House, Outcome};
use mc_outside::Disk;
use operator_command::without_answer;
use site_words::Upgrading;
use vendor_core::{Shelf, upgrade};

/// Moves the issuer from an epoch on.
pub(crate) fn move_issuer<D: Disk>(
    upgrading: &Upgrading<'_>,
    house: House<D, Shelf>,
) -> Outcome<D, Shelf, ()>
    ensures back { HandsBack D.disk D.disk_moved (KeepsTime house) house.journal.disk result }
    ensures exact { (h : History) (input line : Items ℕ) → HouseRepresents D.disk shelf_view house h
        → begins_upgrade upgrading.now (site_name h) line
        → CarriesOut D.disk shelf_view (upgrade_operation upgrading.now) house input line h result }
    ensures refusals { IfRefused (IsAmong (upgrade_operation upgrading.now).refusals) result }
{
    let issuer = upgrading.issuer();
    let from = upgrading.from();
    without_answer(upgrade(house, issuer, from))
}
