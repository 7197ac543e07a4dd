//! Pieces of a vendor's own scrip.

ghost use Rattle.std.specs.Prelude.{◌≡◌, List as Items, ℕ, []};
ghost use Rattle.ledger_model.specs.Histories.{History};
ghost use Rattle.house_core.specs.Bench.{limits_of};
ghost use Rattle.house_core.specs.House.{HandsBack, HouseRepresents, IfRefused, KeepsTime};
ghost use Rattle.house_core.specs.Refusing.{IsAmong};
ghost use Rattle.vendor_core.specs.Shelf.{shelf_view};
ghost use Rattle.operator_command.specs.Operations.{CarriesOut, full};
ghost use Rattle.vendor_commands.specs.Operations.{mint_operation};

use house_core::{House, Outcome};
use mc_outside::Disk;
use operator_command::without_answer;
use site_words::Minting;
use vendor_core::{Shelf, mint};

/// Mints pieces of the vendor's own scrip, and appends their lines to an empty line.
pub(crate) fn mint_pieces<D: Disk>(
    minting: &Minting<'_>,
    house: House<D, Shelf>,
    line: &mut Vec<u8>,
) -> Outcome<D, Shelf, ()>
    requires empty { line.old.items ≡ [] }
    ensures back { HandsBack D.disk D.disk_moved (KeepsTime house) house.journal.disk result }
    ensures exact { (h : History) (input : Items ℕ) → HouseRepresents D.disk shelf_view house h
        → limits_of house.bench ≡ full
        → CarriesOut D.disk shelf_view (mint_operation minting.now) house input
        line.new.items h result }
    ensures refusals { IfRefused (IsAmong (mint_operation minting.now).refusals) result }
{
    without_answer(mint(
        house,
        minting.count(),
        minting.value(),
        minting.reference(),
        line,
    ))
}
