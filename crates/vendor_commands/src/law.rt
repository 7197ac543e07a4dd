ghost use Rattle.std.specs.Prelude.{◌≡◌, ℕ, List};
ghost use Rattle.vendor_commands.specs.Play.{ArePlayLines};

use millicent_http::one_reading;

/// A play of so many heads has one run in which memory is refused for no request, and so one text of lines.
pub fn a_play_has_one_text()
    ensures { (count : ℕ) (a b : List ℕ) → ArePlayLines count a → ArePlayLines count b → a ≡ b }
{
    one_reading();
}
