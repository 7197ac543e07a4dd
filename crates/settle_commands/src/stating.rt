//! `vendor statement`: what a vendor redeemed of a series is stated.

ghost use Rattle.std.specs.Prelude.{◌≡◌, ◌<◌, ◌^◌, List as Items, ℕ};
ghost use Rattle.ledger_model.specs.Histories.{History};
ghost use Rattle.ledger_model.specs.Houses.{site_name};
ghost use Rattle.house_core.specs.Bench.{limits_of};
ghost use Rattle.house_core.specs.House.{HandsBack, HouseRepresents, IfRefused, KeepsTime};
ghost use Rattle.house_core.specs.Refusing.{IsAmong};
ghost use Rattle.operator_command.specs.Operations.{CarriesOut, full};
ghost use Rattle.counted_trade.specs.Counted.{counted_view};
ghost use Rattle.settle_commands.specs.Operations.{state_operation, begins_statement};

use crate::unasking::Unasking;
use command_table::{Epoch, Issuer};
use counted_trade::{Counted, state_series};
use house_core::{House, Outcome};
use mc_base::NoMemory;
use mc_outside::Disk;
use operator_command::{OperatorCommand, without_answer};
use scrip_form::Name;
use std::alloc::Global;

/// The series that a vendor's operator states.
#[derive(Clone, Copy, Drop)]
pub struct SeriesStatement {
    /// Its issuer, above 0.
    pub issuer: Issuer,
    /// Its epoch.
    pub epoch: Epoch,
}

impl SeriesStatement {
    /// This series, to be stated.
    pub fn of(issuer: Issuer, epoch: Epoch) -> SeriesStatement
        ensures { result ≡ record { issuer = issuer; epoch = epoch } }
    {
        SeriesStatement { issuer, epoch }
    }

    /// The number of the issuer.
    fn issuer(&self) -> u8
        ensures value { result ≡ self.now.issuer }
        ensures some { 0 < result }
    {
        self.issuer.get() as u8
    }

    /// The epoch.
    fn epoch(&self) -> u32
        ensures value { result ≡ self.now.epoch }
        ensures small { result < 2 ^ 24 }
    {
        self.epoch.get() as u32
    }
}

impl<T: Unasking> OperatorCommand<Counted<T>> for SeriesStatement {
    ghost operation = { state_operation };

    ghost begun = { begins_statement };

    fn input(&self) -> Option<usize> {
        None
    }

    fn begin(&self, alloc: Global, _site: &Name) -> Result<Vec<u8>, NoMemory> {
        Ok(Vec::new(alloc))
    }

    fn carry_out<D: Disk>(
        &self,
        house: House<D, Counted<T>>,
        _input: &[u8],
        line: &mut Vec<u8>,
    ) -> Outcome<D, Counted<T>, ()>
        requires begun { (site : Items ℕ) × begins_statement self.now site line.old.items }
        ensures back { HandsBack D.disk D.disk_moved (KeepsTime house) house.journal.disk result }
        ensures exact { (h : History) → HouseRepresents D.disk (counted_view T.trade) house h
            → limits_of house.bench ≡ full → begins_statement self.now (site_name h) line.old.items
            → CarriesOut D.disk (counted_view T.trade) (state_operation self.now) house _input.now
            line.new.items h result }
        ensures refusals { IfRefused (IsAmong (state_operation self.now).refusals) result }
    {
        without_answer(state_series(house, self.issuer(), self.epoch(), line))
    }
}
