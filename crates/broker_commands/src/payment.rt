//! Money that is paid into an account, or out of it.

ghost use Rattle.std.specs.Prelude.{◌≡◌, List as Items, ℕ};
ghost use Rattle.ledger_model.specs.Histories.{History};
ghost use Rattle.house_core.specs.House.{HandsBack, HouseRepresents, IfRefused, KeepsTime};
ghost use Rattle.house_core.specs.Refusing.{IsAmong};
ghost use Rattle.broker_core.specs.Desk.{desk_view};
ghost use Rattle.operator_command.specs.Operations.{CarriesOut};
ghost use Rattle.said_lines.specs.Lines.{ready};
ghost use Rattle.broker_commands.specs.Operations.{balance_words, deposit_operation, withdraw_operation};

use crate::answer::answer_of;
use crate::lines::end_by;
use broker_core::{Desk, deposit, withdraw};
use house_core::{House, Outcome};
use mc_outside::Disk;
use operator_command::without_answer;
use said_lines::lay_bare;
use site_words::Movement;

/// Pays into an account, and ends its line by the balance.
pub(crate) fn pay_in<D: Disk>(
    payment: &Movement<'_>,
    house: House<D, Desk>,
    line: &mut Vec<u8>,
) -> Outcome<D, Desk, ()>
    requires begun { line.old.items ≡ ready (balance_words payment.now.account) }
    ensures back { HandsBack D.disk D.disk_moved (KeepsTime house) house.journal.disk result }
    ensures exact { (h : History) (input : Items ℕ) → HouseRepresents D.disk desk_view house h
        → CarriesOut D.disk desk_view (deposit_operation payment.now) house input line.new.items h result }
    ensures refusals { IfRefused (IsAmong (deposit_operation payment.now).refusals) result }
{
    lay_bare(line);
    let paid = deposit(
        house,
        payment.account(),
        payment.amount(),
        payment.reference(),
    );
    end_by(line, answer_of(&paid));
    without_answer(paid)
}

/// Pays out of an account likewise.
pub(crate) fn pay_out<D: Disk>(
    payment: &Movement<'_>,
    house: House<D, Desk>,
    line: &mut Vec<u8>,
) -> Outcome<D, Desk, ()>
    requires begun { line.old.items ≡ ready (balance_words payment.now.account) }
    ensures back { HandsBack D.disk D.disk_moved (KeepsTime house) house.journal.disk result }
    ensures exact { (h : History) (input : Items ℕ) → HouseRepresents D.disk desk_view house h
        → CarriesOut D.disk desk_view (withdraw_operation payment.now) house input line.new.items h result }
    ensures refusals { IfRefused (IsAmong (withdraw_operation payment.now).refusals) result }
{
    lay_bare(line);
    let paid = withdraw(
        house,
        payment.account(),
        payment.amount(),
        payment.reference(),
    );
    end_by(line, answer_of(&paid));
    without_answer(paid)
}
