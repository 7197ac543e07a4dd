//! Pieces that a broker takes as stock.

ghost use Rattle.std.specs.Prelude.{◌≡◌};
ghost use Rattle.ledger_model.specs.Histories.{History};
ghost use Rattle.house_core.specs.House.{HandsBack, HouseRepresents, IfRefused, KeepsTime};
ghost use Rattle.house_core.specs.Refusing.{IsAmong};
ghost use Rattle.broker_core.specs.Desk.{desk_view};
ghost use Rattle.operator_command.specs.Operations.{CarriesOut};
ghost use Rattle.said_lines.specs.Lines.{ready};
ghost use Rattle.broker_commands.specs.Operations.{stock_words, stock_operation};

use crate::answer::{answer_of, counted};
use crate::lines::end_by;
use broker_core::{Desk, add_stock};
use house_core::{House, Outcome};
use mc_outside::Disk;
use operator_command::without_answer;
use said_lines::lay_bare;
use site_words::Stocking;

/// Takes the pieces whose lines are the input as stock, and ends its line by their count.
pub(crate) fn take_stock<D: Disk>(
    stocking: &Stocking<'_>,
    house: House<D, Desk>,
    input: &[u8],
    line: &mut Vec<u8>,
) -> Outcome<D, Desk, ()>
    requires begun { line.old.items ≡ ready (stock_words stocking.now.vendor) }
    ensures back { HandsBack D.disk D.disk_moved (KeepsTime house) house.journal.disk result }
    ensures exact { (h : History) → HouseRepresents D.disk desk_view house h
        → CarriesOut D.disk desk_view (stock_operation stocking.now) house input.now line.new.items h result }
    ensures refusals { IfRefused (IsAmong (stock_operation stocking.now).refusals) result }
{
    lay_bare(line);
    let taken = add_stock(house, stocking.vendor(), input);
    end_by(line, counted(answer_of(&taken)));
    without_answer(taken)
}
