//! How a vendor's site stands, for Prometheus.

ghost use Rattle.std.specs.Prelude.{◌≡◌, ◌++◌, [], ℕ, List as Items, OnOk};
ghost use Rattle.ledger_model.specs.Histories.{History};
ghost use Rattle.house_core.specs.House.{HandsBack, HouseRepresents, IfRefused, KeepsTime};
ghost use Rattle.house_core.specs.Refusing.{IsAmong};
ghost use Rattle.vendor_core.specs.Shelf.{shelf_view};
ghost use Rattle.operator_command.specs.Operations.{CarriesOut};
ghost use Rattle.vendor_commands.specs.Operations.{status_operation, shelf_metrics};

use house_core::{House, Outcome};
use mc_base::NoMemory;
use mc_outside::Disk;
use operator_command::{append_book, looked};
use said_lines::append_metric;
use vendor_core::Shelf;

/// Tells how the site stands, and enters nothing. The lines are appended to an empty line.
pub(crate) fn tell_status<D: Disk>(
    house: House<D, Shelf>,
    line: &mut Vec<u8>,
) -> Outcome<D, Shelf, ()>
    requires empty { line.old.items ≡ [] }
    ensures back { HandsBack D.disk D.disk_moved (KeepsTime house) house.journal.disk result }
    ensures exact { (h : History) (input : Items ℕ) → HouseRepresents D.disk shelf_view house h
        → CarriesOut D.disk shelf_view status_operation house input line.new.items h result }
    ensures refusals { IfRefused (IsAmong status_operation.refusals) result }
{
    let made = append_status(line, &house);
    looked(house, made)
}

/// Appends the metrics of a vendor. After an `Err` there may be a part of them.
fn append_status<D: Disk>(lines: &mut Vec<u8>, house: &House<D, Shelf>) -> Result<(), NoMemory>
    ensures { (h : History) → HouseRepresents D.disk shelf_view house.now h
        → OnOk result (lines.new.items ≡ lines.old.items ++ shelf_metrics h) }
{
    let site = house.name();
    let shelf = house.trade();
    append_book(lines, house)?;
    append_metric(
        lines,
        &site,
        b"millicent_takings_total",
        b"counter",
        b"Units taken in prices of accepted requests.",
        house.takings(),
    )?;
    append_metric(
        lines,
        &site,
        b"millicent_goods",
        b"gauge",
        b"Targets on sale.",
        shelf.targets().len() as u128,
    )?;
    append_metric(
        lines,
        &site,
        b"millicent_goods_bytes",
        b"gauge",
        b"Bytes of contents on sale.",
        u128::from(shelf.bytes_on_sale()),
    )?;
    Ok(())
}
