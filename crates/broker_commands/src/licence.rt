//! A licence that a broker takes.

ghost use Rattle.std.specs.Prelude.{◌≡◌, []};
ghost use Rattle.ledger_model.specs.Histories.{History};
ghost use Rattle.house_core.specs.House.{HandsBack, HouseRepresents, IfRefused, KeepsTime};
ghost use Rattle.house_core.specs.Refusing.{IsAmong};
ghost use Rattle.broker_core.specs.Desk.{desk_view};
ghost use Rattle.operator_command.specs.Operations.{CarriesOut};
ghost use Rattle.said_lines.specs.Lines.{ready};
ghost use Rattle.broker_commands.specs.Operations.{licence_operation};

use crate::lines::put_taken;
use broker_core::{Desk, add_licence};
use house_core::{House, Outcome};
use licence_lines::read_licence_line;
use mc_outside::Disk;
use mc_requests::Refusal;
use operator_command::without_answer;
use said_lines::lay_bare;

/// Takes the licence that the input gives, and puts its line into an empty one.
pub(crate) fn take_licence<D: Disk>(
    house: House<D, Desk>,
    input: &[u8],
    line: &mut Vec<u8>,
) -> Outcome<D, Desk, ()>
    requires begun { line.old.items ≡ ready [] }
    ensures back { HandsBack D.disk D.disk_moved (KeepsTime house) house.journal.disk result }
    ensures exact { (h : History) → HouseRepresents D.disk desk_view house h
        → CarriesOut D.disk desk_view licence_operation house input.now line.new.items h result }
    ensures refusals { IfRefused (IsAmong licence_operation.refusals) result }
{
    let (vendor, terms) = match read_licence_line(input) {
        Ok(licence) => licence,
        Err(place) => return Outcome::Refused(house, Refusal::BadInput(u64::from(place))),
    };
    lay_bare(line);
    put_taken(line, &vendor, terms.issuer());
    without_answer(add_licence(house, &vendor, &terms))
}
