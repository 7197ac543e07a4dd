//! The accounts of a broker.

ghost use Rattle.std.specs.Prelude.{◌≡◌, ◌++◌, [], ℕ, List as Items, OnOk};
ghost use Rattle.ledger_model.specs.Histories.{History};
ghost use Rattle.house_core.specs.House.{HandsBack, HouseRepresents, IfRefused, KeepsTime};
ghost use Rattle.house_core.specs.Refusing.{IsAmong};
ghost use Rattle.broker_core.specs.Desk.{desk_view};
ghost use Rattle.operator_command.specs.Operations.{CarriesOut};
ghost use Rattle.broker_commands.specs.Operations.{list_operation, listed_account, listed_accounts};

use broker_accounts::Account;
use broker_core::Desk;
use house_core::{House, Outcome};
use mc_base::NoMemory;
use mc_outside::Disk;
use operator_command::looked;
use said_lines::append_number;

/// Lists the accounts, and enters nothing. The lines are appended to an empty line.
pub(crate) fn list_accounts<D: Disk>(
    house: House<D, Desk>,
    line: &mut Vec<u8>,
) -> Outcome<D, Desk, ()>
    requires empty { line.old.items ≡ [] }
    ensures back { HandsBack D.disk D.disk_moved (KeepsTime house) house.journal.disk result }
    ensures exact { (h : History) (input : Items ℕ) → HouseRepresents D.disk desk_view house h
        → CarriesOut D.disk desk_view list_operation house input line.new.items h result }
    ensures refusals { IfRefused (IsAmong list_operation.refusals) result }
{
    let made = append_accounts(line, house.trade().accounts().accounts());
    looked(house, made)
}

/// Appends the line of each account. After an `Err` there may be a part of them.
fn append_accounts(lines: &mut Vec<u8>, accounts: &[Account]) -> Result<(), NoMemory>
    ensures { OnOk result (lines.new.items ≡ lines.old.items ++ listed_accounts accounts.now) }
{
    for account in accounts {
        append_account(lines, account)?;
    }
    Ok(())
}

/// Appends the line of an account, likewise.
fn append_account(lines: &mut Vec<u8>, account: &Account) -> Result<(), NoMemory>
    ensures { OnOk result (lines.new.items ≡ lines.old.items ++ listed_account account.now) }
{
    lines.extend_from_slice(b"account ")?;
    lines.extend_from_slice(account.name().bytes())?;
    append_number(lines, b" ", u128::from(account.balance()))?;
    append_number(lines, b" ", u128::from(account.last()))?;
    lines.extend_from_slice(b"\n")?;
    Ok(())
}
