//! An account that is opened.

ghost use Rattle.std.specs.Prelude.{◌≡◌, List as Items, ℕ};
ghost use Rattle.ledger_model.specs.Histories.{History};
ghost use Rattle.house_core.specs.House.{HandsBack, HouseRepresents, IfRefused, KeepsTime};
ghost use Rattle.house_core.specs.Refusing.{IsAmong};
ghost use Rattle.broker_core.specs.Desk.{desk_view};
ghost use Rattle.operator_command.specs.Operations.{CarriesOut};
ghost use Rattle.broker_commands.specs.Operations.{account_line, account_operation};

use broker_core::{Desk, open_account};
use house_core::{House, Outcome};
use mc_outside::Disk;
use operator_command::without_answer;
use site_words::Opening;

/// Opens an account.
pub(crate) fn open<D: Disk>(opening: &Opening<'_>, house: House<D, Desk>) -> Outcome<D, Desk, ()>
    ensures back { HandsBack D.disk D.disk_moved (KeepsTime house) house.journal.disk result }
    ensures exact { (h : History) (input line : Items ℕ) → HouseRepresents D.disk desk_view house h
        → line ≡ account_line opening.now.account
        → CarriesOut D.disk desk_view (account_operation opening.now) house input line h result }
    ensures refusals { IfRefused (IsAmong (account_operation opening.now).refusals) result }
{
    without_answer(open_account(house, opening.account(), opening.key()))
}
