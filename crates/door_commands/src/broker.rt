//! What a broker's operator has done at the door of his site.

ghost use Rattle.std.specs.Prelude.{◌≡◌, ℕ, List as Items};
ghost use Rattle.mc_records.specs.Entry.{Entry};
ghost use Rattle.ledger_model.specs.Histories.{History};
ghost use Rattle.command_status.specs.declared.status.Status.{Status as Ended};
ghost use Rattle.operator_command.specs.Operations.{full};
ghost use Rattle.house_core.specs.Bench.{house_time, limits_of};
ghost use Rattle.house_core.specs.House.{HouseRepresents};
ghost use Rattle.broker_core.specs.Desk.{desk_view};
ghost use Rattle.house_doors.specs.Commands.{KeepsOn, ActsOn};
ghost use Rattle.door_commands.specs.Told.{BrokerObeys, BrokerDoubts, EndsBy, DoubtsBy};

use broker_commands::DeskOperation;
use broker_core::Desk;
use command_status::Status;
use door_wire::read_told;
use house_core::House;
use house_doors::{Operators, perform};
use mc_outside::Disk;
use mc_requests::Refusal;
use mc_words::{Command, command_of};
use scrip_journal::Halted;
use std::alloc::Global;

/// The commands of a broker's operator, at the door of his site.
#[derive(Clone, Copy, Drop)]
pub struct DeskDoor;

impl Operators<Desk> for DeskDoor {
    ghost ends = { λ d told h t status g. EndsBy BrokerObeys told h t status g };

    ghost doubts = { λ d told h t e. DoubtsBy BrokerDoubts told h t e };

    fn carry_out<D: Disk>(
        &self,
        alloc: Global,
        told: &[u8],
        house: House<D, Desk>,
    ) -> Result<(House<D, Desk>, Status), Halted<D>>
        ensures kept { KeepsOn D.disk D.disk_moved house result }
        ensures exact { (h : History) → HouseRepresents D.disk desk_view house h
            → limits_of house.bench ≡ full
            → ActsOn D.disk desk_view (EndsBy BrokerObeys told.now h (house_time house.bench))
            (DoubtsBy BrokerDoubts told.now h (house_time house.bench)) house.journal.disk h result }
    {
        let told = match read_told(alloc, told) {
            Ok(Some(told)) => told,
            Ok(None) => return Ok((house, Status::BadWords)),
            Err(_) => return Ok((house, Status::NoMemory)),
        };
        match command_of(alloc, &told.words) {
            Ok(Some(command)) => obey(alloc, &command, house, told.input),
            Ok(None) => Ok((house, Status::BadWords)),
            Err(_) => Ok((house, Status::NoMemory)),
        }
    }
}

/// Does what a command says, where it is one of the operator's of a broker.
fn obey<D: Disk>(
    alloc: Global,
    command: &Command<'_>,
    house: House<D, Desk>,
    input: &[u8],
) -> Result<(House<D, Desk>, Status), Halted<D>>
    ensures kept { KeepsOn D.disk D.disk_moved house result }
    ensures exact { (h : History) → HouseRepresents D.disk desk_view house h
        → limits_of house.bench ≡ full
        → ActsOn D.disk desk_view (BrokerObeys command.now input.now h (house_time house.bench))
        (BrokerDoubts command.now input.now h (house_time house.bench)) house.journal.disk h result }
{
    match command {
        Command::BrokerOperate(operation) => {
            perform(alloc, &DeskOperation::of(operation), house, input)
        }
        Command::Operate(_) => Ok((house, Status::Refused(Refusal::WrongKind))),
        _ => Ok((house, Status::BadWords)),
    }
}
