//! What was answered.

ghost use Rattle.std.specs.Prelude.{◌≡◌};
ghost use Rattle.broker_commands.specs.Answers.{answer_in};

use broker_core::Desk;
use house_core::Outcome;

/// The answer, where it was done.
pub(crate) fn answer_of<D, A: Copy>(outcome: &Outcome<D, Desk, A>) -> Option<A>
    ensures { result ≡ answer_in outcome.now }
{
    match outcome {
        Outcome::Done(_, answer) => Some(*answer),
        _ => None,
    }
}

/// A count that was answered, as a number.
pub(crate) fn counted(answer: Option<u16>) -> Option<u64>
    ensures { result ≡ answer }
{
    match answer {
        Some(count) => Some(u64::from(count)),
        None => None,
    }
}
