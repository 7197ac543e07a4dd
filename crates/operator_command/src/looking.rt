//! Commands that look at a site, and enter nothing.

ghost use Rattle.std.specs.Prelude.{◌≡◌, ◌++◌, ℕ, OnOk, length};
ghost use Rattle.mc_records.specs.Chains.{has_switch};
ghost use Rattle.mc_records.specs.Sizes.{size};
ghost use Rattle.ledger_model.specs.Histories.{History};
ghost use Rattle.ledger_model.specs.Houses.{site_name};
ghost use Rattle.house_core.specs.House.{HandsBack, HouseRepresents, KeepsTime};
ghost use Rattle.said_lines.specs.Lines.{site_metrics};
ghost use Rattle.operator_command.specs.Operations.{looked};

use house_core::{House, Outcome};
use house_state::Trade;
use mc_base::NoMemory;
use mc_outside::Disk;
use said_lines::append_site;

/// What comes of a command that looks at a house: it is done where its lines were made, else memory was refused.
/// Nothing is entered.
pub fn looked<D: Disk, T: Trade>(
    house: House<D, T>,
    made: Result<(), NoMemory>,
) -> Outcome<D, T, ()>
    ensures outcome { result ≡ looked house made }
    ensures back { HandsBack D.disk D.disk_moved (KeepsTime house) house.journal.disk result }
{
    match made {
        Ok(()) => Outcome::Done(house, ()),
        Err(NoMemory) => Outcome::NoMemory(house),
    }
}

/// Appends the metrics of the book of a house. After an `Err` there may be a part of them.
pub fn append_book<D: Disk, T: Trade>(
    lines: &mut Vec<u8>,
    house: &House<D, T>,
) -> Result<(), NoMemory>
    ensures { (h : History) → HouseRepresents D.disk T.trade house.now h → OnOk result
        (lines.new.items ≡ lines.old.items ++ site_metrics (site_name h) (length h) (size h) (has_switch h)) }
{
    let site = house.name();
    append_site(
        lines,
        &site,
        house.entries(),
        house.size(),
        house.is_switched(),
    )
}
