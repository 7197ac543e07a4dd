//! Having a command of a site's operator done to its book.

ghost use Rattle.std.specs.Prelude.{◌≡◌, [], List as Items, ℕ, Some};
ghost use Rattle.house_core.specs.House.{outcome_disk};
ghost use Rattle.site_commands.specs.Operator.{OperatesBook, OperatesOpened, OperateCauses, Opened};
ghost use Rattle.site_commands.specs.Endings.{outcome_status};
ghost use Rattle.command_status.specs.Statuses.{number_of};

use command_status::{Status, not_opened};
use house_core::{House, Outcome};
use house_opening::open_house;
use house_state::Trade;
use mc_base::List;
use mc_outside::Outside;
use mc_requests::Limits;
use millicent_http::{InputFault, input_of};
use operator_command::OperatorCommand;
use std::alloc::Global;

/// Opens the book on the outside's disk as that of a site of the trade's kind, and has the command done to it.
/// The trade has learned nothing yet. Hands the outside back, and tells how it ended.
pub fn operate_book<O: Outside, T: Trade, C: OperatorCommand<T>>(
    alloc: Global,
    command: &C,
    trade: T,
    out: O,
) -> (O, Status)
    requires { (T.trade trade).represents [] }
    ensures words { number_of result.1 ≡ 2 → ⊥ }
    ensures causes { OperateCauses O.link O.disk (C.operation command.now) out result.1 result.0 }
    ensures operated { (x : Items ℕ) → (O.disk out).contents ≡ Some x
        → OperatesBook O.link O.disk T.passes (T.trade trade).site (C.operation command.now) x
        out result.1 result.0 }
{
    match open_house(alloc, out, Limits::FULL, trade) {
        Ok(house) => operate_house(alloc, command, house),
        Err(fault) => not_opened(fault),
    }
}

/// Has the command done to the house of a book that was opened: begins its line, takes its input, reads the
/// clock once, and does it at the house time.
fn operate_house<O: Outside, T: Trade, C: OperatorCommand<T>>(
    alloc: Global,
    command: &C,
    mut house: House<O, T>,
) -> (O, Status)
    ensures words { number_of result.1 ≡ 2 → ⊥ }
    ensures causes { OperateCauses O.link O.disk (C.operation command.now)
        house.journal.disk result.1 result.0 }
    ensures operated { (kind : ℕ) (a : O) (x : Items ℕ)
        → Opened O.link O.disk T.trade T.passes kind x a house
        → OperatesOpened O.link O.disk T.passes kind (C.operation command.now) x a result.1 result.0 }
{
    let Ok(mut line) = command.begin(alloc, &house.name()) else {
        return (house.close(), Status::NoMemory);
    };
    let input = match input_of(alloc, &mut house, command.input()) {
        Ok(input) => input,
        Err(InputFault::NoMemory) => return (house.close(), Status::NoMemory),
        Err(InputFault::Link) => return (house.close(), Status::LinkFault),
    };
    let _reading = house.raise_by_clock();
    let outcome = command.carry_out(house, &input, &mut line);
    closed_with(outcome, List::of(line))
}

/// The outside of a house that did what it was asked, or did not, and how that ended: with this line where it
/// did.
fn closed_with<O: Outside, T: Trade>(outcome: Outcome<O, T, ()>, line: List<u8>) -> (O, Status)
    ensures out { result.0 ≡ outcome_disk outcome }
    ensures status { result.1 ≡ outcome_status outcome line }
    ensures words { number_of result.1 ≡ 2 → ⊥ }
{
    match outcome {
        Outcome::Done(house, ()) => (house.close(), Status::Did(line)),
        Outcome::Refused(house, refusal) => (house.close(), Status::Refused(refusal)),
        Outcome::NoMemory(house) => (house.close(), Status::NoMemory),
        Outcome::Halted(halted) => (halted.close(), Status::DiskFault),
    }
}
