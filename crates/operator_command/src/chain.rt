//! The chain of a site's book, whatever the trade.

ghost use Rattle.std.specs.Prelude.{◌≡◌, ◌++◌, ◌≤◌, ◌+◌, List as Items, ℕ, length, vec_len, vec_capacity, IsSome};
ghost use Rattle.mc_records.specs.Chains.{chain};
ghost use Rattle.ledger_model.specs.Histories.{History};
ghost use Rattle.ledger_model.specs.Houses.{site_name};
ghost use Rattle.house_core.specs.House.{HandsBack, HouseRepresents, IfRefused, KeepsTime};
ghost use Rattle.house_core.specs.Refusing.{IsAmong};
ghost use Rattle.said_lines.specs.Lines.{chain_end, chain_words, ready};
ghost use Rattle.operator_command.specs.Operations.{CarriesOut, IfDone, chain_operation};

use crate::command::without_answer;
use house_core::{House, Outcome};
use house_state::Trade;
use mc_outside::Disk;
use said_lines::{READY, end_chain, lay_bare};

/// Switches the book, where it was not, and ends the line of its chain as it then stands. It takes no memory for itself.
pub fn switch_book<D: Disk, T: Trade>(house: House<D, T>, line: &mut Vec<u8>) -> Outcome<D, T, ()>
    requires begun { (site : Items ℕ) × (line.old.items ≡ ready (chain_words site)) }
    ensures back { HandsBack D.disk D.disk_moved (KeepsTime house) house.journal.disk result }
    ensures exact { (h : History) (input : Items ℕ) → HouseRepresents D.disk T.trade house h
        → line.old.items ≡ ready (chain_words (site_name h))
        → CarriesOut D.disk T.trade chain_operation house input line.new.items h result }
    ensures refusals { IfRefused (IsAmong chain_operation.refusals) result }
{
    lay_bare(line);
    let switched = house.switch();
    end_by_house(&switched, line);
    without_answer(switched)
}

/// Ends the line of the chain of a book by the house of it, where one goes on.
fn end_by_house<D: Disk, T: Trade, A>(outcome: &Outcome<D, T, A>, line: &mut Vec<u8>)
    requires room { vec_len line.old + READY ≤ vec_capacity line.old }
    requires known { IfDone outcome.now (λ x. IsSome x.journal.chain) }
    ensures { (g : History) → IfDone outcome.now (λ x. HouseRepresents D.disk T.trade x g
        → line.new.items ≡ line.old.items ++ chain_end (length g) (chain g)) }
{
    match outcome {
        Outcome::Done(house, _) => {
            let entries = house.entries();
            let digest = house.chain();
            end_chain(line, entries, &digest)
        }
        _ => (),
    }
}
