//! `broker settle`: a statement is paid.

ghost use Rattle.std.specs.Prelude.{◌≡◌, ◌++◌, ◌≤◌, ◌+◌, List as Items, ℕ, vec_len, vec_capacity};
ghost use Rattle.ledger_model.specs.Histories.{History};
ghost use Rattle.ledger_model.specs.Houses.{site_name};
ghost use Rattle.house_core.specs.Bench.{limits_of};
ghost use Rattle.house_core.specs.House.{HandsBack, HouseRepresents, IfRefused, KeepsTime};
ghost use Rattle.house_core.specs.Refusing.{IsAmong};
ghost use Rattle.operator_command.specs.Operations.{CarriesOut, full};
ghost use Rattle.counted_trade.specs.Counted.{counted_view};
ghost use Rattle.settle_core.specs.Statements.{StatementFits, statement_text};
ghost use Rattle.settle_commands.specs.Operations.{settle_operation, begins_paid, paid_line};

use crate::unasking::Unasking;
use counted_trade::{Counted, pay_statement};
use house_core::{House, Outcome};
use mc_base::NoMemory;
use mc_outside::Disk;
use mc_requests::Refusal;
use operator_command::{OperatorCommand, without_answer};
use said_lines::{READY, lay_bare, put, ready};
use scrip_form::Name;
use settle_core::{Statement, payment_in, read_statement};
use std::alloc::Global;

/// The most bytes of an input of lines.
pub const MOST_LINES: usize = 131_072;

/// A statement that a broker's operator pays, which the link brings.
#[derive(Clone, Copy, Drop)]
pub struct StatementPayment;

impl<T: Unasking> OperatorCommand<Counted<T>> for StatementPayment {
    ghost operation = { settle_operation };

    ghost begun = { begins_paid };

    fn input(&self) -> Option<usize> {
        Some(MOST_LINES)
    }

    fn begin(&self, alloc: Global, _site: &Name) -> Result<Vec<u8>, NoMemory> {
        ready(Vec::new(alloc))
    }

    fn carry_out<D: Disk>(
        &self,
        house: House<D, Counted<T>>,
        input: &[u8],
        line: &mut Vec<u8>,
    ) -> Outcome<D, Counted<T>, ()>
        requires begun { (site : Items ℕ) × begins_paid self.now site line.old.items }
        ensures back { HandsBack D.disk D.disk_moved (KeepsTime house) house.journal.disk result }
        ensures exact { (h : History) → HouseRepresents D.disk (counted_view T.trade) house h
            → limits_of house.bench ≡ full → begins_paid self.now (site_name h) line.old.items
            → CarriesOut D.disk (counted_view T.trade) (settle_operation self.now) house input.now
            line.new.items h result }
        ensures refusals { IfRefused (IsAmong (settle_operation self.now).refusals) result }
    {
        let statement = match read_statement(input) {
            Ok(statement) => statement,
            Err(place) => {
                return Outcome::Refused(house, Refusal::BadInput(u64::from(place)));
            }
        };
        lay_bare(line);
        put_paid(line, &statement, input);
        without_answer(pay_statement(house, input))
    }
}

/// Appends the line of a payment by the line of its statement, for which there is room. It takes no memory.
fn put_paid(line: &mut Vec<u8>, statement: &Statement, told: &[u8])
    requires fits { StatementFits statement.now }
    requires told { told.now ≡ statement_text statement.now }
    requires room { vec_len line.old + READY ≤ vec_capacity line.old }
    ensures { line.new.items ≡ line.old.items ++ paid_line statement.now.payment }
{
    put(line, b"paid ");
    put(line, payment_in(told, statement));
    put(line, b"\n");
}
