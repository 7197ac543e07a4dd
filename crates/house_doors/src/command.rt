//! A link of the operator's.

ghost use Rattle.std.specs.Prelude.{◌≡◌, length, IsTrue, IfOk};
ghost use Rattle.ledger_model.specs.Histories.{History};
ghost use Rattle.operator_command.specs.Operations.{full};
ghost use Rattle.link_turns.specs.Sending.{PartCauses};
ghost use Rattle.house_core.specs.Bench.{limits_of, state_of};
ghost use Rattle.house_core.specs.House.{HouseRepresents};
ghost use Rattle.house_doors.specs.Commands.{RepliesCommand, AnswersCommand, HadCommand, DoubtsCommand};
ghost use Rattle.house_doors.specs.declared.command.TheConstants.{MOST_TOLD};
ghost use Rattle.house_doors.specs.Links.{ServesOne};

use crate::answer::send_answer;
use crate::operators::Operators;
use command_status::Status;
use house_core::House;
use house_state::Trade;
use mc_outside::{Link, LinkFault, Outside};
use millicent_http::receive;
use scrip_journal::Halted;
use std::alloc::Global;

/// The most bytes of a command and what it reads: a line of 8,192 bytes, and one byte more than the longest input.
pub const MOST_TOLD: usize = 139_265;

/// Has what the standing link brings done as a command, answers it, and ends the link. Where receiving fails, nothing is
/// done.
pub(crate) fn serve_command<O: Outside, T: Trade, P: Operators<T>>(
    alloc: Global,
    operators: &P,
    mut house: House<O, T>,
    room: &mut Vec<u8>,
) -> Result<House<O, T>, Halted<O>>
    requires stands { IsTrue (O.link house.journal.disk).stands }
    requires room { length room.old.items ≡ MOST_TOLD }
    ensures room { length room.new.items ≡ MOST_TOLD }
    ensures causes { PartCauses O.link O.disk house.journal.disk (λ x. x.journal.disk) result }
    ensures limits { IfOk result (λ x. limits_of x.bench ≡ limits_of house.bench) }
    ensures served { (h : History) → HouseRepresents O.disk T.trade house h
        → limits_of house.bench ≡ full
        → ServesOne O.link O.disk T.trade (HadCommand (P.ends operators.now) MOST_TOLD)
        (DoubtsCommand (P.doubts operators.now) MOST_TOLD) house.journal.disk (state_of h house.bench) result }
{
    match receive(&mut house, &mut room[..]) {
        Ok(len) => match answer_command(alloc, operators, house, &room[..len]) {
            Ok(mut house) => {
                house.end_link();
                Ok(house)
            }
            Err(mut halted) => {
                halted.end_link();
                Err(halted)
            }
        },
        Err(LinkFault) => {
            house.end_link();
            Ok(house)
        }
    }
}

/// Does what was told at a reading of the clock, and answers it.
fn answer_command<O: Outside, T: Trade, P: Operators<T>>(
    alloc: Global,
    operators: &P,
    mut house: House<O, T>,
    told: &[u8],
) -> Result<House<O, T>, Halted<O>>
    requires stands { IsTrue (O.link house.journal.disk).stands }
    ensures causes { PartCauses O.link O.disk house.journal.disk (λ x. x.journal.disk) result }
    ensures limits { IfOk result (λ x. limits_of x.bench ≡ limits_of house.bench) }
    ensures answered { (h : History) → HouseRepresents O.disk T.trade house h
        → limits_of house.bench ≡ full
        → AnswersCommand O.link O.disk T.trade (P.ends operators.now) (P.doubts operators.now) told.now
        house.journal.disk (state_of h house.bench) result }
{
    let _reading = house.raise_by_clock();
    reply_to_command(alloc, operators, house, told)
}

/// Does what was told at the house time, and answers it.
fn reply_to_command<O: Outside, T: Trade, P: Operators<T>>(
    alloc: Global,
    operators: &P,
    house: House<O, T>,
    told: &[u8],
) -> Result<House<O, T>, Halted<O>>
    requires stands { IsTrue (O.link house.journal.disk).stands }
    ensures causes { PartCauses O.link O.disk house.journal.disk (λ x. x.journal.disk) result }
    ensures limits { IfOk result (λ x. limits_of x.bench ≡ limits_of house.bench) }
    ensures replied { (h : History) → HouseRepresents O.disk T.trade house h
        → limits_of house.bench ≡ full
        → RepliesCommand O.link O.disk T.trade (P.ends operators.now) (P.doubts operators.now) told.now
        house.journal.disk (state_of h house.bench) result }
{
    match operators.carry_out(alloc, told, house) {
        Ok((mut house, status)) => {
            let _sent = send_answer(&mut house, &status);
            Ok(house)
        }
        Err(mut halted) => {
            let _told = send_answer(&mut halted, &Status::DiskFault);
            Err(halted)
        }
    }
}
