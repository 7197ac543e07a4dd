//! The balance of an account.

ghost use Rattle.std.specs.Prelude.{◌≡◌, List as Items, ℕ};
ghost use Rattle.ledger_model.specs.Histories.{History};
ghost use Rattle.house_core.specs.House.{HandsBack, HouseRepresents, IfRefused, KeepsTime};
ghost use Rattle.house_core.specs.Refusing.{IsAmong};
ghost use Rattle.broker_core.specs.Desk.{desk_view};
ghost use Rattle.operator_command.specs.Operations.{CarriesOut};
ghost use Rattle.said_lines.specs.Lines.{ready};
ghost use Rattle.broker_commands.specs.Operations.{balance_words, balance_operation};

use broker_core::Desk;
use house_core::{House, Outcome};
use mc_outside::Disk;
use mc_requests::Refusal;
use said_lines::{end_line, lay_bare};
use site_words::Inquiry;

/// Tells the balance of an account, and enters nothing.
pub(crate) fn tell_balance<D: Disk>(
    inquiry: &Inquiry<'_>,
    house: House<D, Desk>,
    line: &mut Vec<u8>,
) -> Outcome<D, Desk, ()>
    requires begun { line.old.items ≡ ready (balance_words inquiry.now.account) }
    ensures back { HandsBack D.disk D.disk_moved (KeepsTime house) house.journal.disk result }
    ensures exact { (h : History) (input : Items ℕ) → HouseRepresents D.disk desk_view house h
        → CarriesOut D.disk desk_view (balance_operation inquiry.now) house input line.new.items h result }
    ensures refusals { IfRefused (IsAmong (balance_operation inquiry.now).refusals) result }
{
    let Some(standing) = house.trade().accounts().standing(inquiry.account()) else {
        return Outcome::Refused(house, Refusal::NoAccount);
    };
    lay_bare(line);
    end_line(line, standing.balance);
    Outcome::Done(house, ())
}
