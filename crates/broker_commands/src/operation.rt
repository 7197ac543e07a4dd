//! What a broker's operator has done to its book, as a command over the house of the book.

ghost use Rattle.std.specs.Prelude.{◌≡◌, ℕ, List as Items};
ghost use Rattle.ledger_model.specs.Histories.{History};
ghost use Rattle.ledger_model.specs.Houses.{site_name};
ghost use Rattle.house_core.specs.Bench.{limits_of};
ghost use Rattle.house_core.specs.House.{HandsBack, HouseRepresents, IfRefused, KeepsTime};
ghost use Rattle.house_core.specs.Refusing.{IsAmong};
ghost use Rattle.broker_core.specs.Desk.{desk_view};
ghost use Rattle.operator_command.specs.Operations.{CarriesOut, full};
ghost use Rattle.broker_commands.specs.Operations.{operation_view, begins};

use crate::account::open;
use crate::balance::tell_balance;
use crate::licence::take_licence;
use crate::lines;
use crate::list::list_accounts;
use crate::payment::{pay_in, pay_out};
use crate::status::tell_status;
use crate::stock::take_stock;
use crate::upgrade::move_issuer;
use broker_core::Desk;
use house_core::{House, Outcome};
use mc_base::NoMemory;
use mc_outside::Disk;
use operator_command::{OperatorCommand, switch_book};
use said_lines::{begin_chain, ready};
use scrip_form::Name;
use site_words::BrokerOperation;
use std::alloc::Global;
use std::marker::Model;

/// The most bytes of an input of lines.
pub const MOST_LINES: usize = 131_072;

/// An operation that a broker's operator has said. Contracts see it as the operation.
#[derive(Drop)]
pub struct DeskOperation<'a> {
    said: &'a BrokerOperation<'a>,
}

impl<'a> Model for DeskOperation<'a> {
    ghost use Rattle.site_words.specs.declared.broker_operation.BrokerOperation.{BrokerOperation as Said};

    ghost Value = { Said };

    ghost view = { λ v. v.said.now };
}

impl<'a> DeskOperation<'a> {
    /// The operation, to be done.
    pub fn of(said: &'a BrokerOperation<'a>) -> DeskOperation<'a>
        ensures { result ≡ said.now }
    {
        DeskOperation { said }
    }
}

impl<'a> OperatorCommand<Desk> for DeskOperation<'a> {
    ghost operation = { operation_view };

    ghost begun = { begins };

    fn input(&self) -> Option<usize> {
        match self.said {
            BrokerOperation::Licence(_) | BrokerOperation::Stock(_) => Some(MOST_LINES),
            BrokerOperation::Account(_)
            | BrokerOperation::Deposit(_)
            | BrokerOperation::Withdraw(_)
            | BrokerOperation::Balance(_)
            | BrokerOperation::Upgrade(_)
            | BrokerOperation::Chain(_)
            | BrokerOperation::List(_)
            | BrokerOperation::Status(_) => None,
        }
    }

    fn begin(&self, alloc: Global, site: &Name) -> Result<Vec<u8>, NoMemory> {
        match self.said {
            BrokerOperation::Account(opening) => lines::account_line(alloc, opening.account()),
            BrokerOperation::Deposit(payment) | BrokerOperation::Withdraw(payment) => {
                ready(lines::balance_words(alloc, payment.account())?)
            }
            BrokerOperation::Balance(inquiry) => {
                ready(lines::balance_words(alloc, inquiry.account())?)
            }
            BrokerOperation::Licence(_) | BrokerOperation::Upgrade(_) => ready(Vec::new(alloc)),
            BrokerOperation::Chain(_) => ready(begin_chain(alloc, site)?),
            BrokerOperation::List(_) | BrokerOperation::Status(_) => Ok(Vec::new(alloc)),
            BrokerOperation::Stock(stocking) => {
                ready(lines::stock_words(alloc, stocking.vendor())?)
            }
        }
    }

    fn carry_out<D: Disk>(
        &self,
        house: House<D, Desk>,
        input: &[u8],
        line: &mut Vec<u8>,
    ) -> Outcome<D, Desk, ()>
        requires begun { (site : Items ℕ) × begins self.now site line.old.items }
        ensures back { HandsBack D.disk D.disk_moved (KeepsTime house) house.journal.disk result }
        ensures exact { (h : History) → HouseRepresents D.disk desk_view house h
            → limits_of house.bench ≡ full → begins self.now (site_name h) line.old.items
            → CarriesOut D.disk desk_view (operation_view self.now) house input.now
            line.new.items h result }
        ensures refusals { IfRefused (IsAmong (operation_view self.now).refusals) result }
    {
        match self.said {
            BrokerOperation::Account(opening) => open(opening, house),
            BrokerOperation::Deposit(payment) => pay_in(payment, house, line),
            BrokerOperation::Withdraw(payment) => pay_out(payment, house, line),
            BrokerOperation::Balance(inquiry) => tell_balance(inquiry, house, line),
            BrokerOperation::Licence(_) => take_licence(house, input, line),
            BrokerOperation::Stock(stocking) => take_stock(stocking, house, input, line),
            BrokerOperation::Upgrade(upgrading) => move_issuer(upgrading, house, line),
            BrokerOperation::Chain(_) => switch_book(house, line),
            BrokerOperation::List(_) => list_accounts(house, line),
            BrokerOperation::Status(_) => tell_status(house, line),
        }
    }
}
