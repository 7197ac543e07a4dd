//! An issuer that a broker moves to the second version of scrip.

ghost use Rattle.std.specs.Prelude.{◌≡◌, [], List as Items, ℕ};
ghost use Rattle.ledger_model.specs.Histories.{History};
ghost use Rattle.house_core.specs.House.{HandsBack, HouseRepresents, IfRefused, KeepsTime};
ghost use Rattle.house_core.specs.Refusing.{IsAmong};
ghost use Rattle.broker_core.specs.Desk.{desk_view};
ghost use Rattle.operator_command.specs.Operations.{CarriesOut};
ghost use Rattle.said_lines.specs.Lines.{ready};
ghost use Rattle.broker_commands.specs.Operations.{upgrade_operation};

use broker_core::{Desk, terms_to_move, upgrade_licence};
use house_core::{House, Outcome};
use mc_outside::Disk;
use operator_command::without_answer;
use said_lines::{lay_bare, put_upgrade};
use site_words::LicenceUpgrading;

/// Moves the issuer from an epoch on, and puts its line into an empty one.
pub(crate) fn move_issuer<D: Disk>(
    upgrading: &LicenceUpgrading<'_>,
    house: House<D, Desk>,
    line: &mut Vec<u8>,
) -> Outcome<D, Desk, ()>
    requires begun { line.old.items ≡ ready [] }
    ensures back { HandsBack D.disk D.disk_moved (KeepsTime house) house.journal.disk result }
    ensures exact { (h : History) (input : Items ℕ) → HouseRepresents D.disk desk_view house h
        → CarriesOut D.disk desk_view (upgrade_operation upgrading.now) house input line.new.items h result }
    ensures refusals { IfRefused (IsAmong (upgrade_operation upgrading.now).refusals) result }
{
    let vendor = upgrading.vendor();
    let from = upgrading.from();
    let (issuer, _) = terms_to_move(&house, vendor);
    lay_bare(line);
    put_upgrade(line, vendor, issuer, from);
    without_answer(upgrade_licence(house, vendor, from))
}
