//! What a vendor has on sale.

ghost use Rattle.std.specs.Prelude.{◌≡◌, ◌++◌, [], ℕ, List as Items, Some, OnOk};
ghost use Rattle.ledger_model.specs.Histories.{History};
ghost use Rattle.house_core.specs.House.{HandsBack, HouseRepresents, IfRefused, KeepsTime};
ghost use Rattle.house_core.specs.Refusing.{IsAmong};
ghost use Rattle.vendor_core.specs.Shelf.{ShelfRepresents, on_sale_in, shelf_view};
ghost use Rattle.operator_command.specs.Operations.{CarriesOut};
ghost use Rattle.vendor_commands.specs.Operations.{list_operation, listed_goods, listed_line};

use house_core::{House, Outcome};
use mc_base::NoMemory;
use mc_outside::Disk;
use operator_command::looked;
use said_lines::append_number;
use vendor_core::{OnSale, Shelf};

/// Lists what is on sale, and enters nothing. The lines are appended to an empty line.
pub(crate) fn list_on_sale<D: Disk>(
    house: House<D, Shelf>,
    line: &mut Vec<u8>,
) -> Outcome<D, Shelf, ()>
    requires empty { line.old.items ≡ [] }
    ensures back { HandsBack D.disk D.disk_moved (KeepsTime house) house.journal.disk result }
    ensures exact { (h : History) (input : Items ℕ) → HouseRepresents D.disk shelf_view house h
        → CarriesOut D.disk shelf_view list_operation house input line.new.items h result }
    ensures refusals { IfRefused (IsAmong list_operation.refusals) result }
{
    let made = append_listed(line, house.trade());
    looked(house, made)
}

/// Appends the line of each target that sells something. After an `Err` there may be a part of them.
fn append_listed(lines: &mut Vec<u8>, shelf: &Shelf) -> Result<(), NoMemory>
    ensures { (h : History) → ShelfRepresents shelf.now h
        → OnOk result (lines.new.items ≡ lines.old.items ++ listed_goods h) }
{
    for target in shelf.targets() {
        append_goods(lines, shelf, target)?;
    }
    Ok(())
}

/// Appends the line of what a target sells, likewise.
fn append_goods(lines: &mut Vec<u8>, shelf: &Shelf, target: &[u8]) -> Result<(), NoMemory>
    ensures { (h : History) → ShelfRepresents shelf.now h → OnOk result
        (lines.new.items ≡ lines.old.items ++ listed_line target.now (on_sale_in h target.now)) }
{
    match shelf.on_sale(target) {
        Some(goods) => append_line(lines, target, goods),
        None => Ok(()),
    }
}

/// Appends that line, likewise.
fn append_line(lines: &mut Vec<u8>, target: &[u8], goods: OnSale) -> Result<(), NoMemory>
    ensures { OnOk result (lines.new.items ≡ lines.old.items ++ listed_line target.now (Some goods)) }
{
    lines.extend_from_slice(b"goods ")?;
    lines.extend_from_slice(target)?;
    append_number(lines, b" ", u128::from(goods.price))?;
    append_number(lines, b" ", u128::from(goods.kind))?;
    append_number(lines, b" ", u128::from(goods.length))?;
    lines.extend_from_slice(b"\n")?;
    Ok(())
}
