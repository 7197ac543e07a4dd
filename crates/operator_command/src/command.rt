ghost use Rattle.std.specs.Prelude.{◌≡◌, ◌<◌, ◌^◌, List as Items, ℕ, IfSome, IfOk};
ghost use Rattle.ledger_model.specs.Histories.{History};
ghost use Rattle.ledger_model.specs.Houses.{site_name};
ghost use Rattle.house_core.specs.Bench.{limits_of};
ghost use Rattle.house_core.specs.House.{HandsBack, HouseRepresents, IfRefused, KeepsTime};
ghost use Rattle.house_core.specs.Refusing.{IsAmong};
ghost use Rattle.operator_command.specs.Operations.{CarriesOut, OperationView, full, without_answer};

use house_core::{House, Outcome};
use house_state::Trade;
use mc_base::NoMemory;
use mc_outside::Disk;
use scrip_form::Name;
use std::alloc::Global;

/// A command of the operator of a site: the input that it reads, what it does over the house of the site's
/// book, and the line that is said where it is done.
pub trait OperatorCommand<T: Trade> {
    // What it means.
    ghost operation: { Self → OperationView };

    // The line of a site of this name, as far as it is known before the book is touched.
    ghost begun: { Self → Items ℕ → Items ℕ → Type 0 };

    /// The most bytes of its input, which the next link brings. None: it takes no link.
    fn input(&self) -> Option<usize>
        ensures input { result ≡ (operation self.now).input }
        ensures few { IfSome result (λ most. most < 2 ^ 32) };

    /// Begins its line, for a site of this name. The only memory that it takes for itself is taken here.
    fn begin(&self, alloc: Global, site: &Name) -> Result<Vec<u8>, NoMemory>
        ensures { IfOk result (λ line. begun self.now site.now line.items) };

    /// Does it with this input over a house, and ends its line, which was begun. It is refused with one of the
    /// operation's refusals, whatever the house represents.
    fn carry_out<D: Disk>(
        &self,
        house: House<D, T>,
        input: &[u8],
        line: &mut Vec<u8>,
    ) -> Outcome<D, T, ()>
        requires begun { (site : Items ℕ) × begun self.now site line.old.items }
        ensures back { HandsBack D.disk D.disk_moved (KeepsTime house) house.journal.disk result }
        ensures exact { (h : History) → HouseRepresents D.disk T.trade house h
            → limits_of house.bench ≡ full → begun self.now (site_name h) line.old.items
            → CarriesOut D.disk T.trade (operation self.now) house input.now
            line.new.items h result }
        ensures refusals { IfRefused (IsAmong (operation self.now).refusals) result };
}

/// The outcome, without what was answered.
pub fn without_answer<D, T: Trade, A: Drop>(outcome: Outcome<D, T, A>) -> Outcome<D, T, ()>
    ensures { result ≡ without_answer outcome }
{
    match outcome {
        Outcome::Done(house, _) => Outcome::Done(house, ()),
        Outcome::Refused(house, refusal) => Outcome::Refused(house, refusal),
        Outcome::NoMemory(house) => Outcome::NoMemory(house),
        Outcome::Halted(halted) => Outcome::Halted(halted),
    }
}
