//! How a broker's site stands, for Prometheus.

ghost use Rattle.std.specs.Prelude.{◌≡◌, ◌++◌, [], ℕ, List as Items, OnOk};
ghost use Rattle.ledger_model.specs.Histories.{History};
ghost use Rattle.house_core.specs.House.{HandsBack, HouseRepresents, IfRefused, KeepsTime};
ghost use Rattle.house_core.specs.Refusing.{IsAmong};
ghost use Rattle.broker_core.specs.Desk.{desk_view};
ghost use Rattle.operator_command.specs.Operations.{CarriesOut};
ghost use Rattle.broker_commands.specs.Operations.{status_operation, desk_metrics};

use broker_core::Desk;
use house_core::{House, Outcome};
use mc_base::NoMemory;
use mc_outside::Disk;
use operator_command::{append_book, looked};
use said_lines::append_metric;

/// Tells how the site stands, and enters nothing. The lines are appended to an empty line.
pub(crate) fn tell_status<D: Disk>(
    house: House<D, Desk>,
    line: &mut Vec<u8>,
) -> Outcome<D, Desk, ()>
    requires empty { line.old.items ≡ [] }
    ensures back { HandsBack D.disk D.disk_moved (KeepsTime house) house.journal.disk result }
    ensures exact { (h : History) (input : Items ℕ) → HouseRepresents D.disk desk_view house h
        → CarriesOut D.disk desk_view status_operation house input line.new.items h result }
    ensures refusals { IfRefused (IsAmong status_operation.refusals) result }
{
    let made = append_status(line, &house);
    looked(house, made)
}

/// Appends the metrics of a broker. After an `Err` there may be a part of them.
fn append_status<D: Disk>(lines: &mut Vec<u8>, house: &House<D, Desk>) -> Result<(), NoMemory>
    ensures { (h : History) → HouseRepresents D.disk desk_view house.now h
        → OnOk result (lines.new.items ≡ lines.old.items ++ desk_metrics h) }
{
    let site = house.name();
    let ledger = house.trade().accounts();
    append_book(lines, house)?;
    append_metric(
        lines,
        &site,
        b"millicent_accounts",
        b"gauge",
        b"Accounts.",
        ledger.accounts().len() as u128,
    )?;
    append_metric(
        lines,
        &site,
        b"millicent_balances",
        b"gauge",
        b"Units in all accounts.",
        ledger.balances(),
    )?;
    Ok(())
}
