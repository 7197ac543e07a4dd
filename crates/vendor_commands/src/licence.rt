//! Scrip of another issuer that a vendor takes.

ghost use Rattle.std.specs.Prelude.{List as Items, ℕ};
ghost use Rattle.ledger_model.specs.Histories.{History};
ghost use Rattle.ledger_model.specs.Houses.{site_name};
ghost use Rattle.house_core.specs.House.{HandsBack, HouseRepresents, IfRefused, KeepsTime};
ghost use Rattle.house_core.specs.Refusing.{IsAmong};
ghost use Rattle.vendor_core.specs.Shelf.{shelf_view};
ghost use Rattle.operator_command.specs.Operations.{CarriesOut};
ghost use Rattle.vendor_commands.specs.Operations.{licence_operation, begins_licence};

use house_core::{House, Outcome};
use mc_outside::Disk;
use operator_command::without_answer;
use site_words::Licensing;
use vendor_core::{Shelf, add_terms};

/// Takes scrip of an issuer from now on.
pub(crate) fn take_issuer<D: Disk>(
    licensing: &Licensing<'_>,
    house: House<D, Shelf>,
) -> Outcome<D, Shelf, ()>
    ensures back { HandsBack D.disk D.disk_moved (KeepsTime house) house.journal.disk result }
    ensures exact { (h : History) (input line : Items ℕ) → HouseRepresents D.disk shelf_view house h
        → begins_licence licensing.now (site_name h) line
        → CarriesOut D.disk shelf_view (licence_operation licensing.now) house input line h result }
    ensures refusals { IfRefused (IsAmong (licence_operation licensing.now).refusals) result }
{
    without_answer(add_terms(house, &licensing.terms()))
}
