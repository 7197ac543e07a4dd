ghost use Rattle.std.specs.Prelude.{◌≡◌, ◌≤◌, length};

use mc_records::MOST_CONTENTS;
use std::marker::Model;

/// Contents that are sold, as they are written. Contracts see them as their bytes, of which there are at most 65,536.
#[derive(Drop)]
pub struct Contents<'a> {
    bytes: &'a [u8],
}

impl<'a> Model for Contents<'a> {
    ghost use Rattle.std.specs.Prelude.{ℕ, List, length, ◌≤◌};
    ghost use Rattle.mc_records.specs.declared.ranges.TheConstants.{MOST_CONTENTS};

    ghost Value = { List ℕ };

    ghost view = { λ c. c.bytes.now };

    ghost invariant = { λ c. length c.bytes.now ≤ MOST_CONTENTS };
}

impl<'a> Contents<'a> {
    pub(crate) fn of(bytes: &'a [u8]) -> Contents<'a>
        requires { length bytes.now ≤ MOST_CONTENTS }
        ensures { result ≡ bytes.now }
    {
        Contents { bytes }
    }

    /// The bytes.
    pub fn bytes(&self) -> &'a [u8]
        ensures value { result.now ≡ self.now }
        ensures range { length self.now ≤ MOST_CONTENTS }
    {
        self.bytes
    }
}
