//! How a turn of a link ended.

ghost use Rattle.std.specs.Prelude.{◌≡◌};
ghost use Rattle.millicent_http.specs.declared.item.After.TheVariants.{Close};
ghost use Rattle.link_turns.specs.declared.turn.Turn.TheVariants.{GoOn};
ghost use Rattle.link_turns.specs.Turns.{turn_after};

use mc_outside::LinkFault;
use millicent_http::After;

/// How one turn of serving a link ended.
#[derive(Clone, Copy)]
pub enum Turn {
    /// The next item may follow.
    GoOn,
    /// The item ends the link.
    Last,
    /// The link was read to its end.
    End,
    NotReceived,
    NotSent,
}

/// How a turn ended whose reply was sent with this result.
pub fn turn_of(sent: Result<(), LinkFault>, after: After) -> Turn
    ensures turn { result ≡ turn_after sent after }
    ensures open { result ≡ GoOn → after ≡ Close → ⊥ }
{
    match sent {
        Ok(()) => match after {
            After::GoOn => Turn::GoOn,
            After::Close => Turn::Last,
        },
        Err(LinkFault) => Turn::NotSent,
    }
}
