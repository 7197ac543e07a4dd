ghost use Rattle.std.specs.Prelude.{◌≡◌};
ghost use Rattle.command_table.specs.Ranges.{IsPathOrAddress};

use std::marker::Model;

/// A book, or a place to listen at or to connect to, as it is written. Contracts see it as its bytes, of which there
/// are 1 to 255.
#[derive(Drop)]
pub struct Place<'a> {
    bytes: &'a [u8],
}

impl<'a> Model for Place<'a> {
    ghost use Rattle.std.specs.Prelude.{ℕ, List};
    ghost use Rattle.command_table.specs.Ranges.{IsPathOrAddress};

    ghost Value = { List ℕ };

    ghost view = { λ p. p.bytes.now };

    ghost invariant = { λ p. IsPathOrAddress p.bytes.now };
}

impl<'a> Place<'a> {
    pub(crate) fn of(bytes: &'a [u8]) -> Place<'a>
        requires { IsPathOrAddress bytes.now }
        ensures { result ≡ bytes.now }
    {
        Place { bytes }
    }

    /// The bytes.
    pub fn bytes(&self) -> &'a [u8]
        ensures value { result.now ≡ self.now }
        ensures range { IsPathOrAddress self.now }
    {
        self.bytes
    }
}
