//! What a vendor's operator has done at the door of his site.

ghost use Rattle.std.specs.Prelude.{◌≡◌, ℕ, List as Items};
ghost use Rattle.mc_records.specs.Entry.{Entry};
ghost use Rattle.ledger_model.specs.Histories.{History};
ghost use Rattle.command_status.specs.declared.status.Status.{Status as Ended};
ghost use Rattle.operator_command.specs.Operations.{full};
ghost use Rattle.house_core.specs.Bench.{house_time, limits_of};
ghost use Rattle.house_core.specs.House.{HouseRepresents};
ghost use Rattle.vendor_core.specs.Shelf.{shelf_view};
ghost use Rattle.house_doors.specs.Commands.{KeepsOn, ActsOn};
ghost use Rattle.door_commands.specs.Told.{VendorObeys, VendorDoubts, EndsBy, DoubtsBy};

use command_status::Status;
use door_wire::read_told;
use house_core::House;
use house_doors::{Operators, perform};
use mc_outside::Disk;
use mc_requests::Refusal;
use mc_words::{Command, command_of};
use scrip_journal::Halted;
use std::alloc::Global;
use vendor_commands::VendorOperation;
use vendor_core::Shelf;

/// The commands of a vendor's operator, at the door of his site.
#[derive(Clone, Copy, Drop)]
pub struct ShelfDoor;

impl Operators<Shelf> for ShelfDoor {
    ghost ends = { λ d told h t status g. EndsBy VendorObeys told h t status g };

    ghost doubts = { λ d told h t e. DoubtsBy VendorDoubts told h t e };

    fn carry_out<D: Disk>(
        &self,
        alloc: Global,
        told: &[u8],
        house: House<D, Shelf>,
    ) -> Result<(House<D, Shelf>, Status), Halted<D>>
        ensures kept { KeepsOn D.disk D.disk_moved house result }
        ensures exact { (h : History) → HouseRepresents D.disk shelf_view house h
            → limits_of house.bench ≡ full
            → ActsOn D.disk shelf_view (EndsBy VendorObeys told.now h (house_time house.bench))
            (DoubtsBy VendorDoubts told.now h (house_time house.bench)) house.journal.disk h result }
    {
        let told = match read_told(alloc, told) {
            Ok(Some(told)) => told,
            Ok(None) => return Ok((house, Status::BadWords)),
            Err(_) => return Ok((house, Status::NoMemory)),
        };
        match command_of(alloc, &told.words) {
            Ok(Some(command)) => obey(alloc, &command, house, told.input),
            Ok(None) => Ok((house, Status::BadWords)),
            Err(_) => Ok((house, Status::NoMemory)),
        }
    }
}

/// Does what a command says, where it is one of the operator's of a vendor.
fn obey<D: Disk>(
    alloc: Global,
    command: &Command<'_>,
    house: House<D, Shelf>,
    input: &[u8],
) -> Result<(House<D, Shelf>, Status), Halted<D>>
    ensures kept { KeepsOn D.disk D.disk_moved house result }
    ensures exact { (h : History) → HouseRepresents D.disk shelf_view house h
        → limits_of house.bench ≡ full
        → ActsOn D.disk shelf_view (VendorObeys command.now input.now h (house_time house.bench))
        (VendorDoubts command.now input.now h (house_time house.bench)) house.journal.disk h result }
{
    match command {
        Command::Operate(operation) => {
            perform(alloc, &VendorOperation::of(operation), house, input)
        }
        Command::BrokerOperate(_) => Ok((house, Status::Refused(Refusal::WrongKind))),
        _ => Ok((house, Status::BadWords)),
    }
}
