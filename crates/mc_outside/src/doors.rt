ghost use Rattle.std.specs.Prelude.{IsTrue};
ghost use Rattle.mc_outside.specs.LinkView.{IsWhose};

use crate::Outside;

/// An outside some of whose links come through a second door, that of its operator.
pub trait Doors: Outside {
    /// Whether the standing link came through the operator's door.
    fn is_operators(&self) -> bool
        requires { IsTrue (Self.link self.now).stands }
        ensures { IsWhose (Self.link self.now) result };
}
