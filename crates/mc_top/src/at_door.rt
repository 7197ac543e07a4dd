ghost use Rattle.std.specs.Prelude.{◌≡◌, ◌<◌, ◌≤◌, ◌^◌, ℕ, Bool, List, Option, map, string_bytes, take, length, IfOk, IfSome, IsNone, IsTrue, OnErr};
ghost use Rattle.mc_outside.specs.DiskView.{LinkKeeps};
ghost use Rattle.mc_outside.specs.LinkView.{after_send};
ghost use Rattle.millicent_http.specs.Inputs.{Receives};
ghost use Rattle.door_wire.specs.Wire.{IsAnswer, are_plain, told_of, with_dash};
ghost use Rattle.mc_top.specs.AtDoor.{AreForDoor, AreForNoDoor, AsksDoor, CanBeTold, EndsAtDoor, IsHeard, IsLost, IsUnanswered, limit_of};
ghost use Rattle.mc_top.specs.Programs as programs;
ghost use Rattle.mc_top.specs.Proxying.{RefusesWords};
ghost use Rattle.mc_top.specs.Saying.{Says};

use crate::program::{answered, say};
use crate::proxying::answer;
use broker_commands::DeskOperation;
use command_status::Status;
use door_wire::{Answer, can_be_told, put_told, read_answer};
use mc_outside::{Link, LinkFault, Outside};
use mc_words::{Command, command_of};
use millicent_http::{InputFault, input_of, receive, send_all};
use operator_command::OperatorCommand;
use std::alloc::Global;
use vendor_commands::VendorOperation;

/// The most bytes of an answer that are read.
pub const MOST_ANSWER: usize = 1 << 24;

/// The program for the words of an operator's command, those after its name, where the site of the book is served with a door,
/// which the third word names: tells the command there, over the next link of `door`, and says what the site answers. The
/// command's input comes on the next link of `out`.
///
/// The status is the site's, and so is the line: what the same words say over the closed book. 2: the words are of no such
/// command, or the door is not the third of them; nothing was touched but what is said. 5: memory was refused before anything was
/// told. 6: the input was lost; or nobody serves there; or no whole answer came, and then the command was done or not; or the
/// line can't be said.
pub fn run_at_door<O: Outside, U: Link>(
    alloc: Global,
    words: &[String],
    out: O,
    door: &mut U,
) -> (u8, O)
    ensures moved { U.link_moved door.old door.new }
    ensures other_words { AreForNoDoor (map string_bytes words.now)
        → RefusesWords O.link O.disk out (U.link door.old) result.0 (U.link door.new) result.1 }
    ensures told { (most : Option ℕ) → AreForDoor (map string_bytes words.now) most
        → EndsAtDoor O.link O.disk (map string_bytes words.now) most out (U.link door.old) result.0 result.1 (U.link door.new) }
{
    let command = match command_of(alloc, words) {
        Ok(Some(command)) => command,
        Ok(None) => return answer(out, Status::BadWords),
        Err(_) => return answer(out, Status::NoMemory),
    };
    match input_told(words, &command) {
        Some(most) => tell_command(alloc, words, most, out, door),
        None => answer(out, Status::BadWords),
    }
}

/// The most bytes of the input of a command that can be told at a door by these words; None of every other.
fn input_told(words: &[String], command: &Command<'_>) -> Option<Option<usize>>
    ensures some { IfSome result (CanBeTold (map string_bytes words.now) command.now) }
    ensures none { IsNone result → (most : Option ℕ)
        → CanBeTold (map string_bytes words.now) command.now most → ⊥ }
    ensures few { IfSome result (λ most. IfSome most (λ n. n < 2 ^ 32)) }
{
    let (place, most) = match command {
        Command::Operate(operation) => {
            (operation.book(), VendorOperation::of(operation).input())
        }
        Command::BrokerOperate(operation) => {
            (operation.book(), DeskOperation::of(operation).input())
        }
        _ => return None,
    };
    if can_be_told(words) && words[2].as_bytes() == place {
        Some(most)
    } else {
        None
    }
}

/// Reads the input, tells the command with it at the door, and says the answer.
fn tell_command<O: Outside, U: Link>(
    alloc: Global,
    words: &[String],
    most: Option<usize>,
    mut out: O,
    door: &mut U,
) -> (u8, O)
    requires plain { IsTrue (are_plain (map string_bytes words.now)) }
    requires few { IfSome most (λ n. n < 2 ^ 32) }
    ensures moved { U.link_moved door.old door.new }
    ensures told { EndsAtDoor O.link O.disk (map string_bytes words.now) most out
        (U.link door.old) result.0 result.1 (U.link door.new) }
{
    let mut room = Vec::new(alloc);
    if room.resize(MOST_ANSWER, 0).is_err() {
        return answer(out, Status::NoMemory);
    }
    let input = match input_of(alloc, &mut out, most) {
        Ok(input) => input,
        Err(InputFault::NoMemory) => return answer(out, Status::NoMemory),
        Err(InputFault::Link) => return answer(out, Status::LinkFault),
    };
    let mut told = Vec::new(alloc);
    if put_told(words, &input, &mut told).is_err() {
        return answer(out, Status::NoMemory);
    }
    match ask_door(door, &told, &mut room) {
        Some(said) => say_answer(out, said),
        None => answer(out, Status::LinkFault),
    }
}

/// Tells a command at the door, and receives the answer; None where no whole answer came.
fn ask_door<'a, U: Link>(door: &mut U, told: &[u8], room: &'a mut [u8]) -> Option<Answer<'a>>
    requires room { length room.old ≡ MOST_ANSWER }
    ensures moved { U.link_moved door.old door.new }
    ensures some { IfSome result (λ a. (answer : List ℕ)
        × IsHeard told.now answer (U.link door.old) (U.link door.new) × IsAnswer answer a.status a.line.now) }
    ensures none { IsNone result → IsUnanswered told.now (U.link door.old) (U.link door.new) }
{
    match door.next_link() {
        Ok(true) => (),
        _ => return None,
    }
    let heard = exchange(door, told, room);
    door.end_link();
    match heard {
        Ok(n) => read_answer(&room[..n]),
        Err(LinkFault) => None,
    }
}

/// Sends what is told on the standing link, and receives what comes up to its end, or until the room is full.
fn exchange<U: Link>(door: &mut U, told: &[u8], room: &mut [u8]) -> Result<usize, LinkFault>
    requires stands { IsTrue (U.link door.old).stands }
    ensures moved { U.link_moved door.old door.new }
    ensures len { length room.new ≡ length room.old }
    ensures bound { IfOk result (λ n. n ≤ length room.new) }
    ensures heard { IfOk result (λ n. Receives (length room.old)
        (after_send told.now (U.link door.old)) n (take n room.new) (U.link door.new)) }
    ensures lost { OnErr result (IsLost told.now (U.link door.old) (U.link door.new)) }
{
    send_all(door, told)?;
    receive(door, room)
}

/// Says the line of an answer, and answers its number, 6 in the place of 0 where the line can't be said.
fn say_answer<O: Outside>(out: O, said: Answer<'_>) -> (u8, O)
    ensures keeps { LinkKeeps (O.disk out) (O.disk result.1) }
    ensures said { (whole : Bool) × Says said.entry.line.now whole (O.link out) (O.link result.1)
        × (result.0 ≡ programs.answered whole said.entry.status) }
{
    let (out, is_said) = say(out, said.line);
    (answered(is_said, said.status), out)
}
