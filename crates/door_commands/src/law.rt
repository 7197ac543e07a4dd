ghost use Rattle.std.specs.Prelude.{◌≡◌, ℕ, List, max};
ghost use Rattle.ledger_model.specs.Histories.{History, time};
ghost use Rattle.command_status.specs.declared.status.Status.{Status as Ended};
ghost use Rattle.command_status.specs.declared.status.Status.TheVariants as ends;
ghost use Rattle.site_commands.specs.Serving.{EncodesLawful};
ghost use Rattle.site_commands.specs.Operator.{Operated};
ghost use Rattle.house_doors.specs.Performing.{EndsAs};
ghost use Rattle.house_doors.specs.Commands.{answer_of};
ghost use Rattle.command_status.specs.Statuses.{number_of, line_of};
ghost use Rattle.door_wire.specs.Wire.{IsAnswer};
ghost use Rattle.door_commands.specs.Told.{BrokerObeys, VendorObeys, EndsBy};

use house_state::Trade;
use mc_outside::Outside;
use operator_command::OperatorCommand;

/// What a command does to a book that is closed, and says, is what it does at the door of a site that serves the same history,
/// with the same input and at the same reading of the clock: the same status with its line, and the same history.
pub fn a_door_does_what_a_command_does<O: Outside, T: Trade, C: OperatorCommand<T>>()
    ensures { (command : C) (kind : ℕ) (bytes : List ℕ) (a : O) (status : Ended) (b : O)
        → (o : Operated O.link O.disk T.passes kind (C.operation command) bytes a status b)
        → (status ≡ ends.DiskFault → ⊥)
        → (g : History) × EndsAs (C.operation command) o.input o.history (max (time o.history) o.moment) status g × EncodesLawful (O.disk b) g }
{}

/// A client reads each answer of a door as its status and its line (`read_answer`): whatever a broker or a vendor is told, and where
/// the disk failed.
pub fn door_answers_are_read()
    ensures broker { (told : List ℕ) (h : History) (t : ℕ) (status : Ended) (g : History)
        → EndsBy BrokerObeys told h t status g
        → IsAnswer (answer_of status) (number_of status) (line_of status) }
    ensures vendor { (told : List ℕ) (h : History) (t : ℕ) (status : Ended) (g : History)
        → EndsBy VendorObeys told h t status g
        → IsAnswer (answer_of status) (number_of status) (line_of status) }
    ensures halted { IsAnswer (answer_of ends.DiskFault) (number_of ends.DiskFault) (line_of ends.DiskFault) }
{}
