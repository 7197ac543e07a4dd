ghost use Rattle.std.specs.Prelude.{◌≡◌, ℕ, List, Some};
ghost use Rattle.mc_outside.specs.Bytes.{BeginsWith};
ghost use Rattle.ledger_model.specs.Histories.{History};
ghost use Rattle.ledger_model.specs.Houses.{site_kind};
ghost use Rattle.ledger_model.specs.Lawful.{IsLawful};
ghost use Rattle.scrip_journal.specs.Layout.{header, Encodes};
ghost use Rattle.house_state.specs.Learning.{AllPass};
ghost use Rattle.house_opening.specs.Opening.{SpoilsAt, UnchainsAt, IsUnlawfulAt, IsOfOther};
ghost use Rattle.operator_command.specs.Operations.{full};
ghost use Rattle.command_status.specs.declared.status.Status.{Status as Ended};
ghost use Rattle.site_commands.specs.Endings.{TellsOtherKind};
ghost use Rattle.site_commands.specs.Serving.{ServesBook};
ghost use Rattle.site_commands.specs.Operator.{OperatesBook};

use house_state::Trade;
use mc_outside::Outside;
use operator_command::OperatorCommand;

/// Bytes that encode a lawful history of a site give no cause to refuse the book to one of its kind: they begin
/// with the header, nothing in them can't stand, each chain is the one computed, no entry breaks where each Note
/// passes the trade's own test, and the site is of no other kind. So `vendor serve` ends on those of a vendor with
/// neither status 3 nor 7.
pub fn lawful_books_are_opened<T: Trade>()
    ensures header { (h : History) (bytes : List ℕ) → Encodes h bytes → BeginsWith header bytes }
    ensures whole { (kind : ℕ) (h : History) (bytes : List ℕ) (place : ℕ) → Encodes h bytes
        → SpoilsAt T.passes full kind bytes place → ⊥ }
    ensures chained { (kind : ℕ) (h : History) (bytes : List ℕ) (place : ℕ) (stood computed : List ℕ)
        → Encodes h bytes → UnchainsAt T.passes full kind bytes place stood computed → ⊥ }
    ensures lawful { (kind : ℕ) (h : History) (bytes : List ℕ) (place : ℕ) → Encodes h bytes
        → IsLawful full h → AllPass T.passes h → IsUnlawfulAt T.passes full kind bytes place → ⊥ }
    ensures kind { (kind : ℕ) (h : History) (bytes : List ℕ) → Encodes h bytes
        → site_kind h ≡ Some kind → IsOfOther kind bytes → ⊥ }
{}

/// A book of a site of another kind is told as such: serving it, or having an operation done to it, ends with 52, unless
/// the disk failed or memory was refused. So `vendor serve` never serves the book of a broker.
pub fn books_of_another_kind_are_told<O: Outside, T: Trade, C: OperatorCommand<T>>()
    ensures served { (kind links : ℕ) (bytes : List ℕ) (a : O) (status : Ended) (b : O)
        → IsOfOther kind bytes → ServesBook O.link O.disk T.passes kind links bytes a status b
        → TellsOtherKind status }
    ensures operated { (command : C) (kind : ℕ) (bytes : List ℕ) (a : O) (status : Ended) (b : O)
        → IsOfOther kind bytes
        → OperatesBook O.link O.disk T.passes kind (C.operation command) bytes a status b
        → TellsOtherKind status }
{}
